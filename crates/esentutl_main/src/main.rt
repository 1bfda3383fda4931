//! The tool: opens a volume, reads a script of session calls, runs it there and prints the reply of each.
#![tactic(auto)]

use esentutl::run_process;
use std::env;
use std::process::ExitCode;

fn main(rt: HostRuntime) -> ExitCode {
    run_process(&rt, rt.alloc(), env::args(&rt), rt.stdin(), rt.stdout()).status
}
