//! Trying a program on the cases that its arguments name.

use crate::case::Case;
use crate::library::Library;
use crate::trial::{Outcome, Program, first_difference};
use anyhow::{Result, bail};
use bstr::ByteSlice;
use plan_arguments::{Command, command_of, read_arguments};

/// Tries the program on cases: the first argument is the folder of the library, `.` where there is none, and those behind it are
/// the names of the cases, all where there are none. A line is printed of each case that differs, and one behind them. Answers
/// whether none differs.
///
/// # Errors
/// Want of memory, arguments or a folder that can't be read, or text that can't be printed. A case that can't be read differs.
pub fn try_named<P: Program>(rt: &HostRuntime) -> Result<bool> {
    let Ok(arguments) = read_arguments(rt) else {
        bail!("the arguments can't be read");
    };
    let Command { path, words } = command_of(rt.alloc(), &arguments)?;
    try_in::<P>(rt, &Library::new(path), words.as_slice())
}

// Tries the program on the cases of these names, all where there are none. Answers whether none differs.
fn try_in<P: Program>(rt: &HostRuntime, library: &Library, names: &[String]) -> Result<bool> {
    if names.is_empty() {
        return try_all::<P>(rt, library, &library.case_names(rt)?);
    }
    try_all::<P>(rt, library, names)
}

// Tries the program on the cases of these names. Answers whether none differs.
fn try_all<P: Program>(rt: &HostRuntime, library: &Library, names: &[String]) -> Result<bool> {
    let mut differing = 0usize;
    for name in names {
        if differs::<P>(rt, library, name.as_str())? {
            differing = differing.saturating_add(1);
        }
    }
    let tried = names.len();
    println!(rt; "{tried} cases, {differing} differ")?;
    Ok(differing == 0)
}

// Whether the case of that name differs from what it says, which is then printed. One that can't be read differs.
fn differs<P: Program>(rt: &HostRuntime, library: &Library, name: &str) -> Result<bool> {
    match library.case(rt, name) {
        Ok(case) => comes_to_another::<P>(rt, &case, name),
        Err(error) => {
            println!(rt; "{name}: {error:#}")?;
            Ok(true)
        }
    }
}

// Whether the case comes to something else than it says, which is then printed.
fn comes_to_another<P: Program>(rt: &HostRuntime, case: &Case, name: &str) -> Result<bool> {
    let Some(came) = first_difference::<P>(rt.alloc(), case)? else {
        return Ok(false);
    };
    print_outcome(rt, name, &came)?;
    Ok(true)
}

// Prints what a run of the case came to.
fn print_outcome(rt: &HostRuntime, name: &str, came: &Outcome) -> Result<()> {
    let run = came.run.saturating_add(1);
    let status = came.status;
    let text = came.sink.bytes().as_bstr();
    println!(rt; "{name}: in run {run} status {status} came, with {text:?}")?;
    Ok(())
}
