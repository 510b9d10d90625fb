//! The program `osdgate` with the commands that ask the gate alone, which is built in less than half the time.
#![tactic(auto)]

use command_steps::refuse_words;
use gate_commands::run_gate;
use gate_files::words;
use std::process::ExitCode;

fn main(rt: HostRuntime) -> ExitCode {
    let alloc = rt.alloc();
    let status = match words(&rt, alloc) {
        Ok(words) => run_gate(
            alloc,
            words.as_slice(),
            &rt,
            &mut rt.stdin(),
            &mut rt.stdout(),
            &mut rt.stderr(),
        ),
        Err(fault) => refuse_words(fault, &mut rt.stdout(), &mut rt.stderr()),
    };
    ExitCode::from(status)
}
