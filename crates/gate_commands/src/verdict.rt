//! `osdgate verdict`.

use crate::caps::caps_in;
use crate::notes::{fails_by_tag, request_lines, verdict_tag_line};
use clap::ArgMatches;
use command_steps::{
    Answered, BadWords, CallRules, NoAnswer, RequestWords, Times, fault_note, format_of,
    pools_given, reader_of, rules_of, times_of, with_line,
};
use common_types::OutOfMemory;
use gate_files::{InputFiles, Screen};
use share_core::Pool;
use std::alloc::Global;
use std::io::Read;
use verdict_text::{
    Answer, Asked, Printed, Printing, ReadText, Reader, Verdict, VerdictFault, answer_of,
    verdict_by,
};

/// What the arguments say, except the text and the request.
#[derive(Clone, Copy)]
struct VerdictArguments {
    times: Times,
    /// A denial fails, and so does an answer that depends on the address.
    check: bool,
    /// Access that depends on unknown tags does not fail.
    known: bool,
    printing: Printing,
}

/// The capability text and the request.
struct VerdictInputs<'a, 'p> {
    text: ReadText,
    request: RequestWords<'a, 'p>,
}

impl Drop for VerdictInputs<'_, '_> {
    fn drop(self) {
        let VerdictInputs {
            text: _,
            request: _,
        } = self;
    }
}

impl VerdictInputs<'_, '_> {
    /// The text alone.
    fn into_text(self) -> ReadText {
        let VerdictInputs { text, request: _ } = self;
        text
    }
}

/// How the arguments say that the answer is printed.
fn printing_of(matches: &ArgMatches<'_>) -> Printing {
    Printing {
        rules: rules_of(matches),
        why: matches.get_flag("why"),
        format: format_of(matches),
    }
}

impl VerdictArguments {
    /// What the arguments say. At most one file is standard input.
    fn of(matches: &ArgMatches<'_>) -> Result<VerdictArguments, BadWords> {
        if matches.get_str("auth") == Some("-") && matches.get_str("pools") == Some("-") {
            return Err(BadWords::OneInput);
        }
        Ok(VerdictArguments {
            times: times_of(matches).ok_or(BadWords::Time)?,
            check: matches.get_flag("check"),
            known: matches.get_flag("known"),
            printing: printing_of(matches),
        })
    }

    /// Whether an answer fails.
    fn fails(&self, answer: &Answer, needs_tags: bool) -> bool {
        match answer {
            Err(_) => true,
            Ok(Verdict::Denied(_) | Verdict::Depends { .. }) => {
                self.check || (needs_tags && !self.known)
            }
            Ok(_) => false,
        }
    }
}

fn read_inputs<'a, 'p>(
    alloc: Global,
    rules: &Reader,
    arguments: &VerdictArguments,
    caps: String,
    request: RequestWords<'a, 'p>,
) -> Result<VerdictInputs<'a, 'p>, OutOfMemory> {
    Ok(VerdictInputs {
        text: ReadText::of(alloc, rules, caps, arguments.times.until)?,
        request,
    })
}

/// The lines on the text and the request for standard error.
fn noted(
    alloc: Global,
    inputs: &VerdictInputs<'_, '_>,
    answer: &Answer,
    screen: Screen,
) -> Result<String, OutOfMemory> {
    let calls_are_refused = matches!(answer, Err(VerdictFault::Calls(_)));
    let lines = request_lines(alloc, &inputs.request, calls_are_refused)?;
    with_line(lines, fault_note(alloc, &inputs.text, screen))
}

/// The answer as it is printed, with its notes.
fn rendered(
    alloc: Global,
    arguments: &VerdictArguments,
    inputs: &VerdictInputs<'_, '_>,
    asked: &Asked<'_>,
    answer: &Answer,
    screen: Screen,
) -> Result<Answered, OutOfMemory> {
    let needs_tags = fails_by_tag(answer) && !inputs.request.knows_tags();
    let printed = Printed {
        text: verdict_by(alloc, arguments.printing, inputs.text.read(), asked, answer)?,
        fails: arguments.fails(answer, needs_tags),
    };
    let answered = Answered::noted(alloc, printed, noted(alloc, inputs, answer, screen)?);
    if needs_tags {
        return answered.with_note(verdict_tag_line(alloc));
    }
    Ok(answered)
}

/// The answer to a request, on these pools if they are given.
fn verdict_on(
    alloc: Global,
    matches: &ArgMatches<'_>,
    arguments: &VerdictArguments,
    caps: String,
    pools: Option<&[Pool]>,
    screen: Screen,
) -> Result<Answered, NoAnswer> {
    let request = RequestWords::of(alloc, matches, pools, CallRules::of(matches)?)?;
    let rules = reader_of(alloc, matches)?;
    let inputs = read_inputs(alloc, &rules, arguments, caps, request)?;
    let asked = inputs.request.asked(arguments.times.tick);
    let answer = answer_of(alloc, inputs.text.read(), &asked)?;
    let answered = rendered(alloc, arguments, &inputs, &asked, &answer, screen)?;
    Ok(answered.about_text(inputs.into_text())?)
}

/// `osdgate verdict`: whether a capability text allows a request.
pub(crate) fn verdict<F: InputFiles, R: Read>(
    alloc: Global,
    matches: &ArgMatches<'_>,
    files: &F,
    reader: &mut R,
) -> Result<Answered, NoAnswer> {
    let arguments = VerdictArguments::of(matches)?;
    let caps = caps_in(alloc, matches, files, reader)?;
    let pools = pools_given(alloc, files, reader, matches)?;
    let pools = pools.as_ref().map(Vec::as_slice);
    verdict_on(alloc, matches, &arguments, caps, pools, files.screen())
}
