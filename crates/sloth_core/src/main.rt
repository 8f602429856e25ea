//! The program of the commands that build and run, no tools: the top call gets its words and gives its status.
#![tactic(auto)]

use core_commands::run_program;
use std::process::ExitCode;

fn main(rt: HostRuntime) -> ExitCode {
    run_program(&rt)
}
