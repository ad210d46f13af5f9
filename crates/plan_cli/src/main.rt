//! The program: the folder's path, and the command behind it.
#![tactic(auto)]

mod program;

use program::{exit_code, run_program};
use std::process::ExitCode;

fn main(rt: HostRuntime) -> ExitCode {
    exit_code(&run_program(rt))
}
