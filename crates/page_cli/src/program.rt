//! The program below its `main`.
ghost use Rattle.std.specs.Prelude.{◌≡◌, IfErr, IfOk, map, string_bytes};
ghost use Rattle.std.specs.Process.{exit_status};
ghost use Rattle.plan_arguments.specs.declared.arguments.ArgumentError.TheVariants.{NoMemory};
ghost use Rattle.page_cli.specs.Runs.{Comes, IsRun, IsRunOf, came_number, exit_number, input_failed};

use crate::text_input::TextInput;
use answer_page::{Shown, read_names, show};
use folder_io::{DirFolder, Folder, ReadError, Sink, StdSink};
use plan_arguments::{ArgumentError, WordList, command_of, read_arguments};
use std::alloc::Global;
use std::process::ExitCode;
use std::rt::{Env, Files};

/// What a run came to: what was shown, or why a read gave up, and the input, the folder and the output as it left them, so that
/// contracts can tell of them.
#[derive(Drop)]
pub struct Ran<R: Input + Files + Print + Clone + Drop> {
    pub came: Result<Shown, ReadError>,
    pub input: TextInput<R>,
    pub folder: DirFolder<R>,
    pub output: StdSink<R>,
}

// Shows the text of the input, with the names of the folder and these words.
fn show_text<R: Input + Clone + Drop, F: Folder, S: Sink>(
    alloc: Global,
    words: &WordList,
    input: &mut TextInput<R>,
    folder: &mut F,
    sink: &mut S,
) -> Result<Shown, ReadError>
    ensures source { (F.state folder.new).source ≡ (F.state folder.old).source }
    ensures comes { Comes words.now (input_failed input.new) (F.state folder.old) (F.state folder.new) (S.state sink.old) (S.state sink.new) result }
{
    let text = input.read(alloc)?;
    let names = read_names(alloc, folder)?;
    Ok(show(alloc, text.as_slice(), words, &names, sink))
}

// Shows the text on standard input, with the names of the folder and the words that the arguments name, on standard output.
fn run_on<R: Input + Files + Print + Copy>(
    rt: R,
    alloc: Global,
    arguments: &[String],
) -> Result<Ran<R>, ArgumentError>
    ensures ran { IfOk result (IsRunOf (map string_bytes arguments.now)) }
    ensures why { IfErr result (λ error. error ≡ NoMemory) }
{
    let Ok(command) = command_of(alloc, arguments) else {
        return Err(ArgumentError::NoMemory);
    };
    let Ok(mut folder) = DirFolder::new(rt, alloc, command.path.as_str()) else {
        return Err(ArgumentError::NoMemory);
    };
    let mut input = TextInput::new(rt);
    let mut output = StdSink::new(rt);
    let came = show_text(alloc, &command.words, &mut input, &mut folder, &mut output);
    Ok(Ran {
        came,
        input,
        folder,
        output,
    })
}

/// Shows the text on standard input, with the names of the folder and the words that the program's arguments name, on standard
/// output.
///
/// # Errors
/// Want of memory before the run; arguments that can't be read.
pub fn run_program<R: Env + Input + Files + Print + AllocGlobal + Copy>(
    rt: R,
) -> Result<Ran<R>, ArgumentError>
    ensures { IfOk result IsRun }
{
    let arguments = read_arguments(&rt)?;
    run_on(rt, rt.alloc(), arguments.as_slice())
}

/// Tells on standard error which line of the text was refused, if one was.
pub fn tell<R: Input + Files + Print + Eprint + Clone + Drop>(
    rt: &R,
    came: &Result<Ran<R>, ArgumentError>,
) {
    if let Ok(ran) = came {
        if let Ok(Shown::Refused(line)) = ran.came {
            let _ = eprintln!(rt; "refused\t{line}");
        }
    }
}

// The number with which the program ends after a run.
fn came_number(came: Result<Shown, ReadError>) -> u8
    ensures { result ≡ came_number came }
{
    match came {
        Ok(Shown::Whole) => 0,
        Ok(Shown::Refused(_)) => 3,
        Ok(Shown::WriteFault) => 5,
        Err(ReadError::ReadFault) => 4,
        Ok(Shown::NoMemory) | Err(ReadError::NoMemory) => 6,
    }
}

/// The code with which the program ends: that of the run, or of why there was none.
pub fn exit_code<R: Input + Files + Print + Clone + Drop>(
    came: &Result<Ran<R>, ArgumentError>,
) -> ExitCode
    ensures { exit_status result ≡ exit_number came.now }
{
    match came {
        Ok(ran) => ExitCode::from(came_number(ran.came)),
        Err(error) => ExitCode::from(error.number()),
    }
}
