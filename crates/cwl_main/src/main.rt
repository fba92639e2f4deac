//! The program `deparohi`; what it does is in `cwl_program`.
#![tactic(auto)]

use std::process::ExitCode;

fn main(rt: HostRuntime) -> ExitCode {
    cwl_program::program(rt)
}
