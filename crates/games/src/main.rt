// Answers the calls of standard input, or of each game file named.
#![tactic(auto)]

use pages::{Program, run};
use std::process::ExitCode;

fn main(rt: HostRuntime) -> ExitCode {
    run(&rt, Program::Games)
}
