//! The program: its words go to the top call, and its status is how it ends.
#![tactic(auto)]

use sloth_cli::run_program;
use std::process::ExitCode;

fn main(rt: HostRuntime) -> ExitCode {
    run_program(&rt)
}
