//! `osdgate who`.

use crate::any_request::AnyRequest;
use crate::notes::{
    FIRST_TICK, calls_line, refuses_calls, request_lines, tag_holders, with_unknown_tags,
};
use crate::who_any::answer_any;
use clap::ArgMatches;
use command_steps::{
    Answered, BadWords, CallRules, KnownNames, LineRequest, NoAnswer, RequestWords, choice_knowing,
    chosen_by, format_of, lines_of, or_bad_file, pools_given, requests_of, text_in, with_line,
};
use common_types::OutOfMemory;
use gate_files::{Choice, Chosen, InputFiles, Purpose};
use share_core::Pool;
use std::alloc::Global;
use std::io::Read;
use verdict_text::{Asked, Format, Printed};
use who_text::{who_table, who_text};

/// What is asked.
#[derive(Clone, Copy)]
enum WhoQuestion<'m> {
    /// Who is allowed the request of the arguments.
    One,
    /// Who is allowed it at something in its pool.
    Any,
    /// Who is allowed each request of the file with this path.
    Each(&'m str),
}

impl<'m> WhoQuestion<'m> {
    fn of(matches: &ArgMatches<'m>) -> WhoQuestion<'m> {
        match matches.get_str("requests") {
            Some(path) => WhoQuestion::Each(path),
            None if matches.get_flag("any") => WhoQuestion::Any,
            None => WhoQuestion::One,
        }
    }
}

/// What the arguments say, except the request.
#[derive(Clone, Copy)]
pub(crate) struct WhoArguments<'m> {
    question: WhoQuestion<'m>,
    pub(crate) choice: Choice<'m>,
    /// Each entity is printed with its answer.
    all: bool,
    pub(crate) format: Format,
    /// Where calls are looked up.
    calls: CallRules<'m>,
}

impl<'m> WhoArguments<'m> {
    /// What the arguments say. At most one file is standard input.
    fn of(matches: &'m ArgMatches<'_>, choice: Choice<'m>) -> Result<WhoArguments<'m>, BadWords> {
        let files = ["auth", "pools", "requests"];
        let inputs = files
            .iter()
            .filter(|name| matches.get_str(name) == Some("-"))
            .count();
        if inputs > 1 {
            return Err(BadWords::OneInput);
        }
        Ok(WhoArguments {
            question: WhoQuestion::of(matches),
            choice,
            all: matches.get_flag("all"),
            format: format_of(matches),
            calls: CallRules::of(matches)?,
        })
    }
}

/// Who is allowed one request.
fn answer_one(
    alloc: Global,
    arguments: &WhoArguments<'_>,
    request: &RequestWords<'_, '_>,
    chosen: &Chosen,
) -> Result<Answered, OutOfMemory> {
    let entities = chosen.entities();
    let asked = request.asked(FIRST_TICK);
    let printed = who_text(alloc, entities, &asked, arguments.all, arguments.format)?;
    let calls_are_refused = printed.fails;
    let note = request_lines(alloc, request, calls_are_refused)?;
    let answered = Answered::noted(alloc, printed, note);
    if calls_are_refused {
        return Ok(answered);
    }
    let answered = answered.about(alloc, chosen)?;
    let holders = tag_holders(alloc, chosen)?;
    with_unknown_tags(
        alloc,
        answered,
        holders.as_slice(),
        arguments.choice,
        request,
        "",
    )
}

/// The requests of some lines.
fn all_asked<'a>(
    alloc: Global,
    requests: &'a [LineRequest<'_, '_>],
) -> Result<Vec<Asked<'a>>, OutOfMemory> {
    let mut all = Vec::with_capacity(alloc, requests.len())?;
    for line in requests {
        all.push(line.request.asked(FIRST_TICK))?;
    }
    Ok(all)
}

/// A line on each request whose calls are refused.
fn refused_lines(alloc: Global, requests: &[LineRequest<'_, '_>]) -> Result<String, OutOfMemory> {
    let mut lines = String::new(alloc);
    for line in requests {
        if refuses_calls(alloc, &line.request.asked(FIRST_TICK))? {
            let before = format!(in alloc; "line {}: ", line.number)?;
            lines = with_line(lines, calls_line(alloc, &line.request, before.as_str()))?;
        }
    }
    Ok(lines)
}

/// An answer with a line for each request whose tags are not known.
fn with_tag_lines(
    alloc: Global,
    answered: Answered,
    arguments: &WhoArguments<'_>,
    requests: &[LineRequest<'_, '_>],
    chosen: &Chosen,
) -> Result<Answered, OutOfMemory> {
    let holders = tag_holders(alloc, chosen)?;
    let holders = holders.as_slice();
    let mut answered = answered;
    for line in requests {
        let before = format!(in alloc; "line {}: ", line.number)?;
        let (request, before) = (&line.request, before.as_str());
        answered = with_unknown_tags(alloc, answered, holders, arguments.choice, request, before)?;
    }
    Ok(answered)
}

/// Whether the calls of some request are refused.
fn some_refused(alloc: Global, asked: &[Asked<'_>]) -> Result<bool, OutOfMemory> {
    for one in asked {
        if refuses_calls(alloc, one)? {
            return Ok(true);
        }
    }
    Ok(false)
}

/// A table of who is allowed which of some requests. Calls that are refused fail.
fn answer_each(
    alloc: Global,
    arguments: &WhoArguments<'_>,
    requests: &[LineRequest<'_, '_>],
    chosen: &Chosen,
) -> Result<Answered, OutOfMemory> {
    let asked = all_asked(alloc, requests)?;
    let printed = Printed {
        text: who_table(alloc, chosen.entities(), asked.as_slice(), arguments.format)?,
        fails: some_refused(alloc, asked.as_slice())?,
    };
    let answered = Answered::noted(alloc, printed, refused_lines(alloc, requests)?);
    let answered = answered.about(alloc, chosen)?;
    with_tag_lines(alloc, answered, arguments, requests, chosen)
}

/// Who is allowed the request of the arguments. The request is checked before the file of entities is read.
fn who_one<F: InputFiles, R: Read>(
    alloc: Global,
    matches: &ArgMatches<'_>,
    arguments: &WhoArguments<'_>,
    pools: Option<&[Pool]>,
    files: &F,
    reader: &mut R,
) -> Result<Answered, NoAnswer> {
    let request = RequestWords::of(alloc, matches, pools, arguments.calls)?;
    let chosen = chosen_by(alloc, files, reader, matches, arguments.choice)?;
    Ok(answer_one(alloc, arguments, &request, &chosen)?)
}

/// Who is allowed the request of the arguments at something in its pool. Calls that are refused are asked of nobody.
fn who_any<F: InputFiles, R: Read>(
    alloc: Global,
    matches: &ArgMatches<'_>,
    arguments: &WhoArguments<'_>,
    pools: Option<&[Pool]>,
    files: &F,
    reader: &mut R,
) -> Result<Answered, NoAnswer> {
    let request = RequestWords::of(alloc, matches, pools, arguments.calls)?;
    if refuses_calls(alloc, &request.asked(FIRST_TICK))? {
        let chosen = chosen_by(alloc, files, reader, matches, arguments.choice)?;
        return Ok(answer_one(alloc, arguments, &request, &chosen)?);
    }
    let asked = AnyRequest::of(alloc, matches, &request)?;
    let chosen = chosen_by(alloc, files, reader, matches, arguments.choice)?;
    Ok(answer_any(alloc, arguments, &request, &asked, &chosen)?)
}

/// Who is allowed each request of a file. The file of entities is read first.
fn who_each<F: InputFiles, R: Read>(
    alloc: Global,
    matches: &ArgMatches<'_>,
    arguments: &WhoArguments<'_>,
    path: &str,
    pools: Option<&[Pool]>,
    files: &F,
    reader: &mut R,
) -> Result<Answered, NoAnswer> {
    let chosen = chosen_by(alloc, files, reader, matches, arguments.choice)?;
    let text = text_in(alloc, files, reader, Purpose::Requests, path)?;
    let lines = lines_of(alloc, text.as_str());
    let lines = or_bad_file(alloc, Purpose::Requests, path, lines)?;
    let requests = requests_of(alloc, lines.as_slice(), pools, arguments.calls);
    let requests = or_bad_file(alloc, Purpose::Requests, path, requests)?;
    Ok(answer_each(alloc, arguments, requests.as_slice(), &chosen)?)
}

/// `osdgate who`: which entities of a file are allowed a request, or each request of a file.
pub(crate) fn who<F: InputFiles, R: Read>(
    alloc: Global,
    matches: &ArgMatches<'_>,
    files: &F,
    reader: &mut R,
) -> Result<Answered, NoAnswer> {
    let known = KnownNames::of(alloc, files, reader, matches)?;
    let patterns = known.patterns(alloc)?;
    let choice = choice_knowing(matches, patterns.as_slice());
    let arguments = WhoArguments::of(matches, choice)?;
    let pools = pools_given(alloc, files, reader, matches)?;
    let pools = pools.as_ref().map(Vec::as_slice);
    match arguments.question {
        WhoQuestion::One => who_one(alloc, matches, &arguments, pools, files, reader),
        WhoQuestion::Any => who_any(alloc, matches, &arguments, pools, files, reader),
        WhoQuestion::Each(path) => {
            who_each(alloc, matches, &arguments, path, pools, files, reader)
        }
    }
}
