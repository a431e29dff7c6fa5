//! The workbench for squared rectangles.
#![tactic(auto)]

use bk_ports::{StdSink, StdSource};
use bk_top::{arguments_of, run_to_exit};
use std::env;
use std::process::ExitCode;

fn main(rt: HostRuntime) -> ExitCode {
    let arguments = arguments_of(rt.alloc(), env::args(&rt));
    let mut source = StdSource::new(rt.stdin());
    let mut out = StdSink::new(rt.stdout());
    let mut err = StdSink::new(rt.stderr());
    run_to_exit(rt.alloc(), &arguments, &mut source, &mut out, &mut err)
}
