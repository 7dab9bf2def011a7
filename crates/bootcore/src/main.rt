//! The boot services core as a program: a machine file and a trace in, the replies out.
#![tactic(auto)]

use program_runs::{SystemFiles, serve_arguments};
use std::env::args;
use std::process::ExitCode;

fn main(rt: HostRuntime) -> ExitCode {
    let mut files = SystemFiles::new(&rt);
    let mut out = rt.stdout();
    let mut err = rt.stderr();
    ExitCode::from(serve_arguments(
        rt.alloc(),
        args(&rt),
        &mut files,
        rt.stdin(),
        &mut out,
        &mut err,
    ))
}
