//! The program that shows an answer as a page: the text of `plan`, `range` or `party` on standard input, the folder whose files
//! name stops and lines, and the words of the question.
#![tactic(auto)]

mod program;
mod text_input;

use program::{exit_code, run_program, tell};
use std::process::ExitCode;

fn main(rt: HostRuntime) -> ExitCode {
    let came = run_program(rt);
    tell(&rt, &came);
    exit_code(&came)
}
