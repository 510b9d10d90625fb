//! The program `osdgate`: verdicts of a replicated object store's access gate, on the command line.
#![tactic(auto)]

use command_line::run_command;
use command_steps::refuse_words;
use gate_files::words;
use std::process::ExitCode;
use workload::run_workload;

fn main(rt: HostRuntime) -> ExitCode {
    let alloc = rt.alloc();
    let status = match words(&rt, alloc) {
        Ok(words) => run_command(
            alloc,
            words.as_slice(),
            &rt,
            |workers, moves| run_workload(&rt, alloc, workers, moves),
            &mut rt.stdin(),
            &mut rt.stdout(),
            &mut rt.stderr(),
        ),
        Err(fault) => refuse_words(fault, &mut rt.stdout(), &mut rt.stderr()),
    };
    ExitCode::from(status)
}
