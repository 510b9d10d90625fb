//! Where the data that an entity of a file writes may flow.

ghost use Rattle.std.specs.Prelude.{ℕ, ◌≡◌, ◌++◌, ◌<◌, ◌↔◌, map, length, slice_get, string_bytes, option_copied, IfOk, OnOk};
ghost use Rattle.std.specs.List.{Contains, flat_map};
ghost use Rattle.verdict_text.specs.ShownName.{shown_name};
ghost use Rattle.share_core.specs.Near.{AreNear};
ghost use Rattle.share_text.specs.Behind.{grants_of};
ghost use Rattle.share_text.specs.Kinds.{ShareWithin};
ghost use Rattle.share_text.specs.Flows as spec;
ghost use Rattle.share_text.specs.Flows.{AreFlowsTold, AreReaders, OfEach, between_words, first_between, grants_at, name_at, step_to, steps_words};
ghost use Rattle.share_text.specs.FlowLines.{AreChainsTold, IsChainTold, IsWriterTold};

use crate::detail::Detail;
use crate::holder::Holder;
use crate::kind::Kind;
use crate::tenants::{Tenant, index_of, lives_of, nothing, push_told, share_within, tenants_of};
use common_types::OutOfMemory;
use flow_core::{Found, chains_from};
use share_core::Pool;
use std::alloc::Global;
use std::fmt::Write;
use verdict_core::Ticket;
use verdict_text::{Printed, push_name};

/// The places of the tenants that read what one writes, in some of the pools where they are given. The near ones are given: the
/// others share nothing with it.
fn readers_of(
    alloc: Global,
    writer: &Ticket,
    near: &[usize],
    tenants: &[Tenant<'_>],
    pools: Option<&[Pool]>,
) -> Result<Vec<usize>, OutOfMemory>
    requires { AreNear writer.now.grants (grants_of tenants.now) 0 near.now }
    ensures { IfOk result (λ readers. (reader : ℕ) → Contains readers.items reader ↔ ((reader < length tenants.now) × ShareWithin (option_copied pools.entry) Kind.WritesReads writer.now.grants (grants_at tenants.now reader))) }
{
    let mut readers = Vec::new(alloc);
    for place in near {
        let tenant = &tenants[*place];
        if share_within(Kind::WritesReads, writer, tenant.ticket, pools) {
            readers.push(*place)?;
        }
    }
    Ok(readers)
}

/// For each tenant the places of those that read what it writes.
pub(crate) fn steps_of(
    alloc: Global,
    tenants: &[Tenant<'_>],
    pools: Option<&[Pool]>,
) -> Result<Vec<Vec<usize>>, OutOfMemory>
    ensures { IfOk result (λ steps. AreReaders (option_copied pools.entry) tenants.now (map (λ readers. readers.items) steps.items)) }
{
    let index = index_of(alloc, tenants)?;
    let mut steps = Vec::new(alloc);
    for writer in tenants {
        let near = index.near(writer.ticket, 0)?;
        let readers = readers_of(alloc, writer.ticket, near.as_slice(), tenants, pools)?;
        steps.push(readers)?;
    }
    Ok(steps)
}

/// Adds the name at a place as it is shown.
fn push_name_at(text: &mut String, tenants: &[Tenant<'_>], place: usize) -> Result<(), OutOfMemory>
    ensures { OnOk result (string_bytes text.new ≡ string_bytes text.old ++ shown_name (name_at tenants.now place)) }
{
    match tenants.get(place) {
        None => push_name(text, ""),
        Some(tenant) => push_name(text, tenant.name),
    }
}

/// Adds a step to the tenant at a place.
fn push_step(text: &mut String, tenants: &[Tenant<'_>], place: usize) -> Result<(), OutOfMemory>
    ensures { OnOk result (string_bytes text.new ≡ string_bytes text.old ++ step_to tenants.now place) }
{
    text.push_str(" -> ")?;
    push_name_at(text, tenants, place)
}

/// Adds steps to all of those between.
fn push_steps(
    text: &mut String,
    tenants: &[Tenant<'_>],
    between: &[usize],
) -> Result<(), OutOfMemory>
    ensures { OnOk result (string_bytes text.new ≡ string_bytes text.old ++ flat_map (step_to tenants.now) between.now) }
{
    for place in between {
        push_step(text, tenants, *place)?;
    }
    Ok(())
}

/// Adds a step to the first of those between, and that others are left out.
fn push_first(
    text: &mut String,
    tenants: &[Tenant<'_>],
    between: &[usize],
) -> Result<(), OutOfMemory>
    ensures { OnOk result (string_bytes text.new ≡ string_bytes text.old ++ first_between tenants.now (slice_get between.now 0)) }
{
    match between.first() {
        None => text.push_str(" -> "),
        Some(place) => {
            push_step(text, tenants, *place)?;
            text.push_str(" .. ")
        }
    }
}

/// Adds those between, up to the words before the reader.
fn push_between(
    text: &mut String,
    tenants: &[Tenant<'_>],
    between: &[usize],
    detail: Detail,
) -> Result<(), OutOfMemory>
    ensures { OnOk result (string_bytes text.new ≡ string_bytes text.old ++ between_words detail tenants.now between.now) }
{
    match detail {
        Detail::Brief => push_first(text, tenants, between),
        Detail::Whole => {
            push_steps(text, tenants, between)?;
            text.push_str(" -> ")
        }
    }
}

/// Adds the number of steps, with this many between, where some are left out.
fn push_count(text: &mut String, between: &[usize], detail: Detail) -> Result<(), OutOfMemory>
    ensures { OnOk result (string_bytes text.new ≡ string_bytes text.old ++ steps_words detail (length between.now)) }
{
    match detail {
        Detail::Brief if !between.is_empty() => {
            let steps = between.len() + 1;
            write!(text, ", {steps} steps")
        }
        Detail::Brief | Detail::Whole => Ok(()),
    }
}

/// The line of a writer and a reader, with those between.
fn flow_line(
    alloc: Global,
    tenants: &[Tenant<'_>],
    writer: usize,
    reader: usize,
    between: &[usize],
    detail: Detail,
) -> Result<String, OutOfMemory>
    ensures { IfOk result (λ text. string_bytes text ≡ spec.flow_line detail tenants.now writer reader between.now) }
{
    let mut text = String::new(alloc);
    push_name_at(&mut text, tenants, writer)?;
    push_between(&mut text, tenants, between, detail)?;
    push_name_at(&mut text, tenants, reader)?;
    push_count(&mut text, between, detail)?;
    text.push_str("\n")?;
    Ok(text)
}

/// What is reported of two tenants, where the one reaches the other by a chain: a line with the chain. Nothing is
/// reported where the chain is empty, or where both are the same tenant.
fn told_chain(
    alloc: Global,
    tenants: &[Tenant<'_>],
    writer: usize,
    reader: usize,
    chain: &[usize],
    detail: Detail,
    check: bool,
) -> Result<Printed, OutOfMemory>
    ensures { IfOk result (λ printed. IsChainTold detail check tenants.now writer reader chain.now (string_bytes printed.text) printed.fails) }
{
    if writer == reader || chain.is_empty() {
        return Ok(nothing(alloc));
    }
    let between = &chain[..chain.len() - 1];
    let text = flow_line(alloc, tenants, writer, reader, between, detail)?;
    Ok(Printed { text, fails: check })
}

/// What is reported of a tenant with each tenant to which a chain was found.
fn told_chains(
    alloc: Global,
    tenants: &[Tenant<'_>],
    writer: usize,
    chains: &[Found],
    detail: Detail,
    check: bool,
) -> Result<Printed, OutOfMemory>
    ensures { IfOk result (λ printed. AreChainsTold detail check tenants.now writer chains.now (string_bytes printed.text) printed.fails) }
{
    let mut printed = nothing(alloc);
    for found in chains {
        let chain = found.chain.as_slice();
        let told = told_chain(alloc, tenants, writer, found.end, chain, detail, check)?;
        push_told(&mut printed, &told)?;
    }
    Ok(printed)
}

/// What is reported of each tenant, by the chains that the steps give.
fn told_writers(
    alloc: Global,
    tenants: &[Tenant<'_>],
    steps: &[Vec<usize>],
    detail: Detail,
    check: bool,
) -> Result<Printed, OutOfMemory>
    ensures { IfOk result (λ printed. OfEach (IsWriterTold detail check tenants.now (map (λ readers. readers.items) steps.now)) (length steps.now) (string_bytes printed.text) printed.fails) }
{
    let mut printed = nothing(alloc);
    for writer in 0..steps.len() {
        let chains = chains_from(alloc, steps, writer)?;
        let told = told_chains(alloc, tenants, writer, chains.as_slice(), detail, check)?;
        push_told(&mut printed, &told)?;
    }
    Ok(printed)
}

/// What the program prints of where the data that an entity writes may flow.
///
/// For each who writes and each other who reads, in the file's order, it prints at most one line, with as few between as
/// possible, of whom each writes what the next one reads:
/// - `WRITER -> READER` where the one writes what the other reads;
/// - else, in whole, `WRITER -> MIDDLE -> MIDDLE -> READER`;
/// - else, in brief, `WRITER -> MIDDLE .. READER, 3 steps`, with the first one between and the number of steps.
///
/// Who calls a method that reads or writes counts as one who reads or writes. With a check it fails where there is a
/// line.
///
/// A line shows what may become known, not what does: an entity between need not write what it reads. Where pools are
/// given, a target counts only if it is of one of them, with exactly its tags. Without pools, each possible target
/// counts.
///
/// A grant counts at the addresses of its network. One writes what another reads if they do from some address of each.
///
/// An entity whose text has no rights is left out. Names are written by [`verdict_text::push_name`].
/// The only error is `OutOfMemory`, which leaves nothing.
///
/// Time grows with:
/// - the pairs of entities that name a common pool, or of which one has a grant without a pool, and for each such pair
///   with the pairs of their grants;
/// - for each entity, those whom it reaches, and the pairs of these of which one writes what the other reads;
/// - what is printed.
///
/// The lines are this project's profile.
pub fn flow_entities(
    alloc: Global,
    entities: &[Holder<'_>],
    pools: Option<&[Pool]>,
    detail: Detail,
    check: bool,
) -> Result<Printed, OutOfMemory>
    ensures { IfOk result (λ printed. AreFlowsTold detail (option_copied pools.entry) check entities.now (string_bytes printed.text) printed.fails) }
{
    let lives = lives_of(alloc, entities)?;
    let tenants = tenants_of(alloc, lives.as_slice())?;
    let steps = steps_of(alloc, tenants.as_slice(), pools)?;
    told_writers(alloc, tenants.as_slice(), steps.as_slice(), detail, check)
}
