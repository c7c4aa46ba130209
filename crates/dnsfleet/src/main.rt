//! A fleet of forwarding DNS caches, run from the command line.
#![tactic(auto)]

use fleet_program::run_program;
use std::process::ExitCode;

fn main(rt: HostRuntime) -> ExitCode {
    run_program(&rt)
}
