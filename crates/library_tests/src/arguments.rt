// Arguments, one of which isn't UTF-8.
use plan_arguments::{ArgumentError, read_arguments};
use std::alloc::Global;
use std::env::FillError;
use std::rt::Env;

// A system that gives these arguments, and no variable.
#[derive(Clone, Copy)]
struct GivenArguments {
    arguments: &'static [&'static [u8]],
}

impl Env for GivenArguments {
    fn arg(&self, number: usize, room: &mut [u8]) -> Result<usize, FillError> {
        let Some(argument) = self.arguments.get(number) else {
            return Err(FillError::NotPresent);
        };
        let count = argument.len();
        if count > room.len() {
            return Err(FillError::TooLong);
        }
        room[..count].copy_from_slice(argument);
        Ok(count)
    }

    fn var(&self, _name: &str, _room: &mut [u8]) -> Result<usize, FillError> {
        Err(FillError::NotPresent)
    }

    fn var_at(&self, _number: usize, _room: &mut [u8]) -> Result<usize, FillError> {
        Err(FillError::NotPresent)
    }
}

// How many arguments are read of these.
fn count_of(alloc: Global, arguments: &'static [&'static [u8]]) -> Result<usize, ArgumentError> {
    Ok(read_arguments(&(GivenArguments { arguments }, alloc))?.len())
}

const TEXTS: [&[u8]; 3] = [b"farewise", b"feeds", b"Z\xc3\xbcrich"];

const NO_TEXTS: [&[u8]; 4] = [b"farewise", b"feeds", b"C\xff", b"plan"];

#[test]
fn arguments(rt: HostRuntime) {
    let count = count_of(rt.alloc(), &TEXTS);
    let refused = count_of(rt.alloc(), &NO_TEXTS);
    assert!(rt; count == Ok(3) && refused == Err(ArgumentError::Unreadable));
}
