//! A question to the access gate: from arguments to what is written, and the status.

ghost use Rattle.std.specs.Prelude.{◌≤◌};

use crate::compare::compare;
use crate::explain::explain;
use crate::lint::lint;
use crate::share::share;
use crate::verdict::verdict;
use crate::who::who;
use clap::ArgMatches;
use command_arguments::{Shell, command_words, completions_for, manual};
use command_steps::{
    Answered, BadWords, NoAnswer, colours_of, finish_answer, finish_unanswered, format_of,
    refuse_command, value_of, with_rules_of,
};
use gate_files::InputFiles;
use std::alloc::Global;
use std::convert::AsStr;
use std::io::{Read, Write};

/// The completions for the shell of the arguments.
fn shell_completions(alloc: Global, matches: &ArgMatches<'_>) -> Result<Answered, NoAnswer> {
    let shell = Shell::of(value_of(matches, "shell"));
    Ok(Answered::of_text(alloc, completions_for(alloc, shell)?))
}

/// The man page.
fn man_page(alloc: Global) -> Result<Answered, NoAnswer> {
    Ok(Answered::of_text(alloc, manual(alloc)?))
}

/// What a command of this name answers.
fn answer_command<F: InputFiles, R: Read>(
    alloc: Global,
    name: &str,
    matches: &ArgMatches<'_>,
    files: &F,
    reader: &mut R,
) -> Result<Answered, NoAnswer> {
    match name {
        "verdict" => verdict(alloc, matches, files, reader),
        "explain" => explain(alloc, matches, files, reader),
        "compare" => compare(alloc, matches, files, reader),
        "who" => who(alloc, matches, files, reader),
        "share" => share(alloc, matches, files, reader),
        "lint" => lint(alloc, matches, files, reader),
        "completions" => shell_completions(alloc, matches),
        "man" => man_page(alloc),
        _ => Err(NoAnswer::Words(BadWords::Command)),
    }
}

/// Whether a command of this name reads capability texts.
fn reads_texts(name: &str) -> bool {
    matches!(
        name,
        "verdict" | "explain" | "compare" | "who" | "share" | "lint"
    )
}

/// What the command of the arguments answers.
fn answer_matches<F: InputFiles, R: Read>(
    alloc: Global,
    matches: &ArgMatches<'_>,
    files: &F,
    reader: &mut R,
) -> Result<Answered, NoAnswer> {
    let Some((name, matches)) = matches.subcommand() else {
        return Err(NoAnswer::Words(BadWords::Command));
    };
    let answered = answer_command(alloc, name, matches, files, reader)?;
    if !reads_texts(name) {
        return Ok(answered);
    }
    let format = format_of(matches);
    let answered = with_rules_of(alloc, matches, answered)?.documented(alloc, format)?;
    let colours = colours_of(matches, files.screen());
    Ok(answered.coloured(alloc, format, colours)?)
}

/// Answers the command of the arguments, and returns the status: `DONE`, `FOUND` or `TROUBLE` of `command_steps`.
///
/// The answer goes to `out`. Notes, and what is wrong with the arguments, go to `err`. If a capability text has a fault, the
/// text and a caret under the fault's byte go to `err` too.
pub fn run_question<F: InputFiles, R: Read, O: Write, E: Write>(
    alloc: Global,
    matches: &ArgMatches<'_>,
    files: &F,
    reader: &mut R,
    out: &mut O,
    err: &mut E,
) -> u8
    ensures { result ≤ 2 }
{
    match answer_matches(alloc, matches, files, reader) {
        Ok(answered) => finish_answer(&answered, out, err),
        Err(why) => finish_unanswered(&why, out, err),
    }
}

/// Runs a program that has the questions to the access gate alone. The first argument is the program's own name. It returns the
/// exit status, as `run_question` does. It has no `audit`, `check`, `log`, `reach`, `run`, `suggest` and `threads`.
pub fn run_gate<S: AsStr, F: InputFiles, R: Read, O: Write, E: Write>(
    alloc: Global,
    words: &[S],
    files: &F,
    reader: &mut R,
    out: &mut O,
    err: &mut E,
) -> u8
    ensures { result ≤ 2 }
{
    match command_words(alloc, words) {
        Ok(matches) => run_question(alloc, &matches, files, reader, out, err),
        Err(error) => refuse_command(alloc, &error, files, out, err),
    }
}
