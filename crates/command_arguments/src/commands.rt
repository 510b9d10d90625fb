//! The program's command line: its commands, with the options that more than one of them have.

use crate::arguments::{
    OptionRow, Takes, VERDICT_EXAMPLE, compare_command, completions_command, explain_command,
    lint_command, man_command, run_command, share_command, threads_command, verdict_command,
    who_command, with_options,
};
use crate::audit_arguments::{audit_command, reach_command};
use crate::check_arguments::check_command;
use crate::log_arguments::{log_command, suggest_command};
use clap::{ArgMatches, Command, Error};
use std::alloc::{AllocError, Global};
use std::convert::AsStr;

const VERSION: &str = "0.1.0";

const COLOR: OptionRow = (
    "color",
    Takes::Choice(&["auto", "always", "never"]),
    "Whether denials, faults and carets are coloured; if it is not given or is `auto`, where they are written to a terminal and `NO_COLOR` is not set",
);

/// The commands, in the order of help.
#[derive(Clone, Copy)]
enum Kind {
    Verdict,
    Explain,
    Compare,
    Who,
    Share,
    Lint,
    Audit,
    Reach,
    Log,
    Suggest,
    Check,
    Run,
    Threads,
    Completions,
    Man,
}

const KINDS: &[Kind; 15] = &[
    Kind::Verdict,
    Kind::Explain,
    Kind::Compare,
    Kind::Who,
    Kind::Share,
    Kind::Lint,
    Kind::Audit,
    Kind::Reach,
    Kind::Log,
    Kind::Suggest,
    Kind::Check,
    Kind::Run,
    Kind::Threads,
    Kind::Completions,
    Kind::Man,
];

/// Whether a command prints verdicts, or the faults of capability texts.
fn has_colours(kind: Kind) -> bool {
    match kind {
        Kind::Verdict
        | Kind::Explain
        | Kind::Compare
        | Kind::Who
        | Kind::Share
        | Kind::Lint
        | Kind::Reach => true,
        Kind::Audit
        | Kind::Log
        | Kind::Suggest
        | Kind::Check
        | Kind::Run
        | Kind::Threads
        | Kind::Completions
        | Kind::Man => false,
    }
}

fn command_of<'a>(alloc: Global, kind: Kind) -> Result<Command<'a>, AllocError> {
    let command = plain_command_of(alloc, kind)?;
    if has_colours(kind) {
        return with_options(alloc, command, &[COLOR]);
    }
    Ok(command)
}

/// A command without the option that colours it.
fn plain_command_of<'a>(alloc: Global, kind: Kind) -> Result<Command<'a>, AllocError> {
    match kind {
        Kind::Verdict => verdict_command(alloc),
        Kind::Explain => explain_command(alloc),
        Kind::Compare => compare_command(alloc),
        Kind::Who => who_command(alloc),
        Kind::Share => share_command(alloc),
        Kind::Lint => lint_command(alloc),
        Kind::Audit => audit_command(alloc),
        Kind::Reach => reach_command(alloc),
        Kind::Log => log_command(alloc),
        Kind::Suggest => suggest_command(alloc),
        Kind::Check => check_command(alloc),
        Kind::Run => run_command(alloc),
        Kind::Threads => threads_command(alloc),
        Kind::Completions => completions_command(alloc),
        Kind::Man => Ok(man_command(alloc)),
    }
}

/// The commands, in the order of help.
pub fn commands<'a>(alloc: Global) -> Result<Vec<Command<'a>>, AllocError> {
    let mut commands = Vec::new(alloc);
    for kind in KINDS {
        commands.push(command_of(alloc, *kind)?)?;
    }
    Ok(commands)
}

/// The program's command line.
pub fn whole_command<'a>(alloc: Global) -> Result<Command<'a>, AllocError> {
    let mut command = Command::new(alloc, "osdgate")
        .about("The access gate of a replicated object store")
        .version(VERSION)
        .after_help(VERDICT_EXAMPLE)
        .arg_required_else_help(true)
        .subcommand_required(true);
    for kind in KINDS {
        command = command.subcommand(command_of(alloc, *kind)?)?;
    }
    Ok(command)
}

/// The command that arguments request, the first of which is the program's own name.
///
/// The error is what clap reports of arguments that it does not take, the help that they request, or out of memory.
/// `refuse_command` writes it.
pub fn command_words<'a, S: AsStr>(alloc: Global, words: &'a [S]) -> Result<ArgMatches<'a>, Error> {
    whole_command(alloc)?.try_get_matches_from(words)
}
