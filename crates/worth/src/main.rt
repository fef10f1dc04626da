// Answers the calls of standard input, or of each file named, about rows and spans.
#![tactic(auto)]

use pages::{Program, run};
use std::process::ExitCode;

fn main(rt: HostRuntime) -> ExitCode {
    run(&rt, Program::Rows)
}
