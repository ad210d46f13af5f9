//! The program below its `main`.
ghost use Rattle.std.specs.Prelude.{◌≡◌, IfErr, IfOk, map, string_bytes};
ghost use Rattle.std.specs.Process.{exit_status};
ghost use Rattle.plan_arguments.specs.declared.arguments.ArgumentError.TheVariants.{NoMemory};
ghost use Rattle.plan_cli.specs.ExitNumbers.{IsRun, IsRunOf, exit_number};

use folder_io::{DirFolder, StdSink};
use plan_app::{Status, run};
use plan_arguments::{ArgumentError, command_of, read_arguments};
use std::alloc::Global;
use std::process::ExitCode;
use std::rt::{Env, Files};

/// What a run came to: its answer, and the folder and the output as it left them, so that contracts can tell of them.
#[derive(Drop)]
pub struct Ran<R: Files + Print + Clone + Drop> {
    pub answer: Status,
    pub folder: DirFolder<R>,
    pub output: StdSink<R>,
}

// Runs the command that the arguments name, once, over the system's folder of that path and standard output.
fn run_command<R: Files + Print + Copy>(
    rt: R,
    alloc: Global,
    arguments: &[String],
) -> Result<Ran<R>, ArgumentError>
    ensures ran { IfOk result (IsRunOf (map string_bytes arguments.now)) }
    ensures why { IfErr result (λ error. error ≡ NoMemory) }
{
    let Ok(command) = command_of(alloc, arguments) else {
        return Err(ArgumentError::NoMemory);
    };
    let Ok(mut folder) = DirFolder::new(rt, alloc, command.path.as_str()) else {
        return Err(ArgumentError::NoMemory);
    };
    let mut output = StdSink::new(rt);
    let answer = run(alloc, &command.words, &mut folder, &mut output);
    Ok(Ran {
        answer,
        folder,
        output,
    })
}

/// Runs the command that the program's arguments name, over the system's folder and standard output.
///
/// # Errors
/// Want of memory before the run; arguments that can't be read.
pub fn run_program<R: Env + Files + Print + AllocGlobal + Copy>(
    rt: R,
) -> Result<Ran<R>, ArgumentError>
    ensures { IfOk result IsRun }
{
    let arguments = read_arguments(&rt)?;
    run_command(rt, rt.alloc(), arguments.as_slice())
}

/// The code with which the program ends: that of the run's answer, or of why there was none.
pub fn exit_code<R: Files + Print + Clone + Drop>(came: &Result<Ran<R>, ArgumentError>) -> ExitCode
    ensures { exit_status result ≡ exit_number came.now }
{
    match came {
        Ok(ran) => ExitCode::from(ran.answer.number()),
        Err(error) => ExitCode::from(error.number()),
    }
}
