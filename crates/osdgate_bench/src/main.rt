//! The program `osdgate_bench`: what verdicts, capability texts, expansions, comparisons, vectors of operations,
//! groups, peering, scripts, shared objects and clusters cost, in nanoseconds a call.
//!
//! It reads the clock.
#![tactic(auto)]

mod command;
mod compare;
mod expand;
mod fault;
mod grants;
mod group;
mod loads;
mod parse;
mod peering;
mod script;
mod script_lines;
mod share;
mod vector;
mod verdict;

use command::run_command;
use std::process::ExitCode;

fn main(rt: HostRuntime) -> ExitCode {
    let alloc = rt.alloc();
    let words: Vec<String> = match std::env::args(&rt) {
        Ok(args) => match args.collect(alloc) {
            Ok(words) => words,
            Err(_) => return ExitCode::from(1),
        },
        Err(_) => return ExitCode::from(1),
    };
    let status = run_command(
        alloc,
        &rt,
        &rt,
        words.as_slice(),
        &mut rt.stdout(),
        &mut rt.stderr(),
    );
    ExitCode::from(status)
}
