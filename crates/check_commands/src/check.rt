//! `osdgate check`.

ghost use Rattle.std.specs.Prelude.{◌≡◌, ◌≤◌, IfOk, option_copied, string_bytes};
ghost use Rattle.check_commands.specs.Judged as spec;

use crate::arguments::{CheckArguments, CheckFormat};
use crate::rules_file::rules_in;
use clap::ArgMatches;
use command_steps::{
    Answered, NoAnswer, Progress, chosen_read_by, finish_answer, finish_unanswered, format_of,
    pools_given, reader_of, with_rules_of,
};
use common_types::OutOfMemory;
use gate_files::{Chosen, InputFiles};
use rules_text::{
    CheckedRule, RuleLine, Watch, check_json, check_junit, check_report, check_rules, some_fail,
};
use share_core::Pool;
use std::alloc::Global;
use std::io::{Read, Write};
use verdict_text::{Printed, ReadEntity};

/// Shows how many rules are checked.
struct Counting<'r, 'a, F, E> {
    progress: &'r mut Progress<'a, F, E>,
}

impl<F, E> Drop for Counting<'_, '_, F, E> {
    fn drop(self) {
        let Counting { progress: _ } = self;
    }
}

impl<'r, 'a, F: InputFiles, E: Write> Counting<'r, 'a, F, E> {
    fn of(progress: &'r mut Progress<'a, F, E>) -> Self {
        Counting { progress }
    }
}

impl<F: InputFiles, E: Write> Watch for Counting<'_, '_, F, E> {
    fn checked(&mut self, count: usize) {
        self.progress.show(count as u64, "rules are checked");
    }
}

/// Checked rules in the form that is asked for.
fn rendered(
    alloc: Global,
    arguments: &CheckArguments<'_>,
    entities: &[ReadEntity],
    all: &[CheckedRule<'_>],
) -> Result<String, OutOfMemory>
    ensures { IfOk result (λ text. string_bytes text ≡ spec.rendered arguments.now entities.now all.now) }
{
    match arguments.format {
        CheckFormat::Text => check_report(alloc, entities, arguments.quiet, all),
        CheckFormat::Json => check_json(alloc, entities, all),
        CheckFormat::Junit => check_junit(alloc, arguments.by, entities, all),
    }
}

/// What is printed of the rules of a file. It fails where a rule does not hold, names nobody, or names an entity that could not
/// be checked.
fn judged<W: Watch>(
    alloc: Global,
    arguments: &CheckArguments<'_>,
    rules: &[RuleLine],
    pools: Option<&[Pool]>,
    entities: &[ReadEntity],
    watch: &mut W,
) -> Result<Printed, OutOfMemory>
    ensures { IfOk result (spec.AreJudged arguments.now (option_copied pools.entry) rules.now entities.now) }
{
    let all = check_rules(alloc, pools, rules, entities, watch)?;
    let fails = some_fail(all.as_slice());
    let text = rendered(alloc, arguments, entities, all.as_slice())?;
    Ok(Printed { text, fails })
}

/// The answer on rules, with the entities that could not be checked. Those that no rule names do not make it fail.
fn checked<W: Watch>(
    alloc: Global,
    arguments: &CheckArguments<'_>,
    rules: &[RuleLine],
    pools: Option<&[Pool]>,
    chosen: &Chosen,
    watch: &mut W,
) -> Result<Answered, OutOfMemory> {
    let printed = judged(alloc, arguments, rules, pools, chosen.entities(), watch)?;
    let fails = printed.fails;
    let mut answered = Answered::of(alloc, printed).about(alloc, chosen)?;
    answered.printed.fails = fails;
    Ok(answered)
}

/// The answer on rules, while it is shown how many are checked.
fn checked_shown<F: InputFiles, E: Write>(
    alloc: Global,
    arguments: &CheckArguments<'_>,
    rules: &[RuleLine],
    pools: Option<&[Pool]>,
    chosen: &Chosen,
    progress: &mut Progress<'_, F, E>,
) -> Result<Answered, OutOfMemory> {
    let mut counting = Counting::of(progress);
    let answered = checked(alloc, arguments, rules, pools, chosen, &mut counting);
    counting.progress.end();
    answered
}

/// Which rules the entities of a file keep.
fn check<F: InputFiles, R: Read, E: Write>(
    alloc: Global,
    matches: &ArgMatches<'_>,
    files: &F,
    reader: &mut R,
    err: &mut E,
) -> Result<Answered, NoAnswer> {
    let arguments = CheckArguments::of(matches)?;
    let pools = pools_given(alloc, files, reader, matches)?;
    let pools = pools.as_ref().map(Vec::as_slice);
    let by = reader_of(alloc, matches)?;
    let chosen = chosen_read_by(alloc, files, reader, matches, &by)?;
    let rules = rules_in(alloc, files, reader, arguments.path, chosen.entities(), &by)?;
    let mut progress = Progress::begin(files, err);
    let rules = rules.as_slice();
    let answered = checked_shown(alloc, &arguments, rules, pools, &chosen, &mut progress)?;
    let answered = with_rules_of(alloc, matches, answered)?;
    Ok(answered.documented(alloc, format_of(matches))?)
}

/// `osdgate check`: which rules of a file the entities of another keep. Returns the status: 0 all hold, 1 some do not, 2 there is
/// no answer.
///
/// The answer goes to `out`. Notes, and what is wrong with the arguments or the files, go to `err`.
pub fn run_check<F: InputFiles, R: Read, O: Write, E: Write>(
    alloc: Global,
    matches: &ArgMatches<'_>,
    files: &F,
    reader: &mut R,
    out: &mut O,
    err: &mut E,
) -> u8
    ensures { result ≤ 2 }
{
    match check(alloc, matches, files, reader, err) {
        Ok(answered) => finish_answer(&answered, out, err),
        Err(why) => finish_unanswered(&why, out, err),
    }
}
