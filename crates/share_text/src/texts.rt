//! What two capability texts share.

ghost use Rattle.std.specs.Prelude.{◌≡◌, ◌++◌, ◌&&◌, true, not, ◌==◌, length, codes, string_bytes, IfOk, OnOk};
ghost use Rattle.std.specs.List.{flat_map};
ghost use Rattle.verdict_text.specs.Reading.{refused_side};
ghost use Rattle.share_text.specs.Texts as spec;
ghost use Rattle.share_text.specs.Texts.{AreAllExamples, AreExamples, AreRightsTold, AreShared, AreToldApart, IsShareAnswer, shared_line};

use crate::kind::Kind;
use crate::live::{live_ticket, ticket_in};
use common_types::OutOfMemory;
use compare_text::push_target;
use rights_core::Rights;
use share_core::{Shared, sharing};
use std::alloc::Global;
use std::fmt::Write;
use verdict_core::Ticket;
use verdict_text::{Printed, Reader, Reading, Rules, TextFault};

/// The examples of each kind.
pub(crate) struct Examples {
    pub(crate) writes_writes: Vec<Shared>,
    pub(crate) writes_reads: Vec<Shared>,
    pub(crate) reads_writes: Vec<Shared>,
    pub(crate) reads_reads: Vec<Shared>,
}

impl Drop for Examples {
    fn drop(self) {
        let Examples {
            writes_writes: _,
            writes_reads: _,
            reads_writes: _,
            reads_reads: _,
        } = self;
    }
}

/// The examples of one kind.
pub(crate) fn examples_of(
    alloc: Global,
    kind: Kind,
    ones: &Ticket,
    others: &Ticket,
) -> Result<Vec<Shared>, OutOfMemory>
    ensures { IfOk result (λ examples. AreExamples kind ones.now.grants others.now.grants examples.items) }
{
    let one = kind.one();
    let other = kind.other();
    sharing(alloc, ones, &one, others, &other)
}

/// The examples of each kind.
pub(crate) fn all_examples(
    alloc: Global,
    ones: &Ticket,
    others: &Ticket,
) -> Result<Examples, OutOfMemory>
    ensures { IfOk result (λ all. AreAllExamples ones.now.grants others.now.grants all) }
{
    let writes_writes = examples_of(alloc, Kind::WritesWrites, ones, others)?;
    let writes_reads = examples_of(alloc, Kind::WritesReads, ones, others)?;
    let reads_writes = examples_of(alloc, Kind::ReadsWrites, ones, others)?;
    let reads_reads = examples_of(alloc, Kind::ReadsReads, ones, others)?;
    Ok(Examples {
        writes_writes,
        writes_reads,
        reads_writes,
        reads_reads,
    })
}

/// Adds the paths of both grants, with a blank behind each.
fn push_paths(text: &mut String, shared: &Shared) -> Result<(), OutOfMemory>
    ensures { OnOk result (string_bytes text.new ≡ string_bytes text.old ++ spec.paths_words shared.now) }
{
    let path = &shared.path;
    write!(text, "{path}")?;
    text.push_str(" ")?;
    let other_path = &shared.other_path;
    write!(text, "{other_path}")?;
    text.push_str(" ")
}

/// Adds the line of an example.
fn push_shared(text: &mut String, kind: Kind, shared: &Shared) -> Result<(), OutOfMemory>
    ensures { OnOk result (string_bytes text.new ≡ string_bytes text.old ++ shared_line kind shared.now) }
{
    text.push_str(kind.words())?;
    text.push_str(" ")?;
    push_paths(text, shared)?;
    push_target(text, &shared.target)?;
    text.push_str("\n")
}

/// Adds a line for each example of a kind.
fn push_kind(text: &mut String, kind: Kind, examples: &[Shared]) -> Result<(), OutOfMemory>
    ensures { OnOk result (string_bytes text.new ≡ string_bytes text.old ++ flat_map (shared_line kind) examples.now) }
{
    for shared in examples {
        push_shared(text, kind, shared)?;
    }
    Ok(())
}

/// A line for each example, kind by kind.
fn shared_lines(alloc: Global, all: &Examples) -> Result<String, OutOfMemory>
    ensures { IfOk result (λ text. string_bytes text ≡ spec.shared_lines all.now) }
{
    let mut text = String::new(alloc);
    push_kind(&mut text, Kind::WritesWrites, all.writes_writes.as_slice())?;
    push_kind(&mut text, Kind::WritesReads, all.writes_reads.as_slice())?;
    push_kind(&mut text, Kind::ReadsWrites, all.reads_writes.as_slice())?;
    push_kind(&mut text, Kind::ReadsReads, all.reads_reads.as_slice())?;
    Ok(text)
}

/// The lines, or that nothing is shared.
fn or_apart(alloc: Global, lines: String) -> Result<String, OutOfMemory>
    ensures { IfOk result (λ text. string_bytes text ≡ spec.or_apart (string_bytes lines)) }
{
    if lines.is_empty() {
        String::from_str(alloc, "apart\n")
    } else {
        Ok(lines)
    }
}

/// Whether a check was asked for, and there is an example of one who writes.
pub(crate) fn fails_check(check: bool, all: &Examples) -> bool
    ensures { result ≡ (check && spec.is_any_written all.now) }
{
    let is_written = !all.writes_writes.is_empty()
        || !all.writes_reads.is_empty()
        || !all.reads_writes.is_empty();
    check && is_written
}

/// What is printed of two tickets.
fn told_apart(
    alloc: Global,
    ones: &Ticket,
    others: &Ticket,
    check: bool,
) -> Result<Printed, OutOfMemory>
    ensures { IfOk result (λ printed. AreToldApart check ones.now.grants others.now.grants (string_bytes printed.text) printed.fails) }
{
    let all = all_examples(alloc, ones, others)?;
    let lines = shared_lines(alloc, &all)?;
    let text = or_apart(alloc, lines)?;
    let fails = fails_check(check, &all);
    Ok(Printed { text, fails })
}

/// What is printed of a text that is refused, which fails.
fn refused(alloc: Global, side: &str, fault: TextFault) -> Result<Printed, OutOfMemory>
    ensures { IfOk result (λ printed. (string_bytes printed.text ≡ refused_side side.now fault) × (printed.fails ≡ true)) }
{
    let text = format!(in alloc; "refused {side} {fault}\n")?;
    Ok(Printed { text, fails: true })
}

/// What is printed of the rights of two texts.
fn told_rights(
    alloc: Global,
    ones: &Rights,
    others: &Rights,
    check: bool,
) -> Result<Printed, OutOfMemory>
    ensures { IfOk result (λ printed. AreRightsTold check ones.now.grants others.now.grants (string_bytes printed.text) printed.fails) }
{
    let live_ones = live_ticket(alloc, ones)?;
    let live_others = live_ticket(alloc, others)?;
    told_apart(
        alloc,
        ticket_in(ones, &live_ones),
        ticket_in(others, &live_others),
        check,
    )
}

/// What is printed of a second text that was read, beside the first one's rights.
fn told_second(
    alloc: Global,
    ones: &Rights,
    second: &Reading,
    check: bool,
) -> Result<Printed, OutOfMemory>
    ensures { IfOk result (λ printed. spec.IsSecondTold check ones.now.grants second.now (string_bytes printed.text) printed.fails) }
{
    match second {
        Ok(others) => told_rights(alloc, ones, others, check),
        Err(fault) => refused(alloc, "second", *fault),
    }
}

/// What the program prints of what two texts that were read share, as [`share_texts`] says.
pub fn share_read(
    alloc: Global,
    first: &Reading,
    second: &Reading,
    check: bool,
) -> Result<Printed, OutOfMemory>
    ensures { IfOk result (λ printed. AreShared check first.now second.now (string_bytes printed.text) printed.fails) }
{
    match first {
        Ok(ones) => told_second(alloc, ones, second, check),
        Err(fault) => refused(alloc, "first", *fault),
    }
}

/// What the program prints of what two capability texts share by this project's rules.
///
/// The kinds are `writes writes`, `writes reads`, `reads writes` and `reads reads`. For each kind, a grant of the first
/// text and one of the second have a line `KIND PATH PATH TARGET` where by themselves they allow it at a common target.
/// `TARGET` is what `osdgate verdict` takes, quoted for a shell. Who calls a method that reads or writes counts as one
/// who reads or writes. Where nothing is shared, it prints `apart`. With a check it fails where one writes what the
/// other reads or writes.
///
/// A grant counts at the addresses of its network. The texts share something if they do from some address of each.
///
/// A text that has no rights is refused, which fails: `refused first FAULT`, `refused second FAULT`. The first text is
/// checked first. The only error is `OutOfMemory`, which leaves nothing. The lines are this project's profile.
pub fn share_texts(
    alloc: Global,
    first: &str,
    second: &str,
    check: bool,
) -> Result<Printed, OutOfMemory>
    ensures { IfOk result (λ printed. IsShareAnswer check first.now second.now (string_bytes printed.text) printed.fails) }
{
    let reader = Reader::of(alloc, Rules::Project)?;
    let ones = reader.read(alloc, first, None)?;
    let others = reader.read(alloc, second, None)?;
    share_read(alloc, &ones, &others, check)
}
