//! What the entities of a file share.

ghost use Rattle.std.specs.Prelude.{◌≡◌, ◌++◌, ◌&&◌, ◌||◌, [], false, None, Some, codes, drop, map, string_bytes, true, All, option_copied, IfOk, OnOk, ◌↔◌, IsTrue};
ghost use Rattle.serde_json.specs.View.{view};
ghost use Rattle.verdict_text.specs.Documents.{piece};
ghost use Rattle.compare_text.specs.Request.{target_words};
ghost use Rattle.share_core.specs.Near.{AreNear};
ghost use Rattle.share_core.specs.Sharing.{IsExampleIn, ShareIn};
ghost use Rattle.share_text.specs.Behind.{grants_of};
ghost use Rattle.rights_core.specs.Rights.{live_grants};
ghost use Rattle.share_text.specs.Everywhere.{ReadsAndWritesAll};
ghost use Rattle.share_text.specs.Live.{IsLive, IsLiveOf};
ghost use Rattle.share_text.specs.Kinds.{ShareSo, ShareWithin, is_written, one_touch, other_touch};
ghost use Rattle.share_text.specs.Tenants as spec;
ghost use Rattle.share_text.specs.Tenants.{AreTenants, AreTenantsTold, InTurn, IsPairTold, IsPairToldBy, IsStrongest, IsTenantOrNone, IsToldBy, IsToldUnless, IsToldWith, pair_document};

use crate::detail::Detail;
use crate::everywhere::reads_and_writes_all;
use crate::holder::Holder;
use crate::kind::Kind;
use crate::live::{live_ticket, ticket_in};
use crate::texts::examples_of;
use common_types::OutOfMemory;
use compare_core::OwnedTarget;
use compare_text::{push_target, target_example};
use rights_core::Rights;
use serde_json::{Value, json};
use share_core::{Pool, PoolIndex, example_in, share, share_in};
use std::alloc::Global;
use verdict_core::Ticket;
use verdict_text::{Format, Printed, list_by, piece_of, push_name};

/// How much of what entities share is reported, what fails, and in which format it is printed.
#[derive(Clone, Copy, Debug)]
pub struct Strictness {
    /// Whether two that read one object are reported too, where neither writes what the other may touch.
    pub reads: bool,
    /// Whether it fails where one writes what another reads or writes.
    pub check: bool,
    /// As lines, or as one document.
    pub format: Format,
}

/// An entity whose capability text has rights, and a ticket of the grants that some address has.
#[derive(Clone, Copy)]
pub(crate) struct Tenant<'a> {
    pub(crate) name: &'a str,
    pub(crate) ticket: &'a Ticket,
    /// Whether it counts as one that reads and writes every object of every pool.
    pub(crate) everywhere: bool,
}

/// An entity, the ticket that is made of its rights where they have networks, and whether these reach every object.
#[derive(Drop)]
pub(crate) struct Live<'a> {
    entity: Holder<'a>,
    ticket: Option<Ticket>,
    everywhere: bool,
}

/// The ticket that is made of rights where they have networks, and whether they reach every object.
fn seen_of(alloc: Global, rights: &Rights) -> Result<(Option<Ticket>, bool), OutOfMemory>
    ensures live { IfOk result (λ seen. IsLive rights.now.grants seen.0) }
    ensures everywhere { IfOk result (λ seen. IsTrue seen.1 ↔ ReadsAndWritesAll (live_grants rights.now.grants)) }
{
    let ticket = live_ticket(alloc, rights)?;
    let everywhere = reads_and_writes_all(alloc, ticket_in(rights, &ticket))?;
    Ok((ticket, everywhere))
}

/// An entity with what is seen of its rights.
#[tactic(auto, using(crate::proofs::Lives::live_read, crate::proofs::Lives::live_unread))]
fn live_of<'a>(alloc: Global, entity: Holder<'a>) -> Result<Live<'a>, OutOfMemory>
    ensures entity { IfOk result (λ live. live.entity ≡ entity.entry) }
    ensures live { IfOk result (λ live. IsLiveOf live.entity live.ticket live.everywhere) }
{
    match entity.read {
        Ok(rights) => {
            let (ticket, everywhere) = seen_of(alloc, rights)?;
            Ok(Live {
                entity,
                ticket,
                everywhere,
            })
        }
        Err(_) => Ok(Live {
            entity,
            ticket: None,
            everywhere: false,
        }),
    }
}

/// The entities with what is seen of their rights.
pub(crate) fn lives_of<'a>(
    alloc: Global,
    entities: &[Holder<'a>],
) -> Result<Vec<Live<'a>>, OutOfMemory>
    ensures entities { IfOk result (λ lives. map (λ live. live.entity) lives.items ≡ entities.now) }
    ensures live { IfOk result (λ lives. All (λ live. IsLiveOf live.entity live.ticket live.everywhere) lives.items) }
{
    let mut lives = Vec::new(alloc);
    for entity in entities {
        let live = live_of(alloc, *entity)?;
        lives.push(live)?;
    }
    Ok(lives)
}

/// The tenant that an entity is, or nothing if its text has no rights.
fn tenant_of<'a>(live: &'a Live<'_>) -> Option<Tenant<'a>>
    requires { IsLiveOf live.now.entity live.now.ticket live.now.everywhere }
    ensures { IsTenantOrNone live.now.entity result }
{
    match live.entity.read {
        Ok(rights) => Some(Tenant {
            name: live.entity.name,
            ticket: ticket_in(rights, &live.ticket),
            everywhere: live.everywhere,
        }),
        Err(_) => None,
    }
}

/// The entities whose texts have rights, in order.
pub(crate) fn tenants_of<'a>(
    alloc: Global,
    lives: &'a [Live<'_>],
) -> Result<Vec<Tenant<'a>>, OutOfMemory>
    requires { All (λ live. IsLiveOf live.entity live.ticket live.everywhere) lives.now }
    ensures { IfOk result (λ tenants. AreTenants (map (λ live. live.entity) lives.now) tenants.items) }
{
    let mut tenants = Vec::new(alloc);
    for live in lives {
        if let Some(tenant) = tenant_of(live) {
            tenants.push(tenant)?;
        }
    }
    Ok(tenants)
}

/// Whether two tickets share something of a kind. It takes no memory.
fn share_so(kind: Kind, ones: &Ticket, others: &Ticket) -> bool
    ensures { IsTrue result ↔ ShareSo kind ones.now.grants others.now.grants }
{
    let one = kind.one();
    let other = kind.other();
    share(ones, &one, others, &other)
}

/// Whether two tickets share something of a kind in some of the pools. It takes no memory.
fn share_so_in(kind: Kind, ones: &Ticket, others: &Ticket, pools: &[Pool]) -> bool
    ensures { IsTrue result ↔ ShareIn pools.now ones.now.grants (one_touch kind) others.now.grants (other_touch kind) }
{
    let one = kind.one();
    let other = kind.other();
    share_in(ones, &one, others, &other, pools)
}

/// Whether two tickets share something of a kind, in some of the pools where they are given. It takes no memory.
pub(crate) fn share_within(
    kind: Kind,
    ones: &Ticket,
    others: &Ticket,
    pools: Option<&[Pool]>,
) -> bool
    ensures { IsTrue result ↔ ShareWithin (option_copied pools.entry) kind ones.now.grants others.now.grants }
{
    match pools {
        None => share_so(kind, ones, others),
        Some(pools) => share_so_in(kind, ones, others, pools),
    }
}

/// The strongest kind in which two tickets share something. It takes no memory.
pub(crate) fn strongest(
    reads: bool,
    ones: &Ticket,
    others: &Ticket,
    pools: Option<&[Pool]>,
) -> Option<Kind>
    ensures { IsStrongest (option_copied pools.entry) reads ones.now.grants others.now.grants result }
{
    if share_within(Kind::WritesWrites, ones, others, pools) {
        Some(Kind::WritesWrites)
    } else if share_within(Kind::WritesReads, ones, others, pools) {
        Some(Kind::WritesReads)
    } else if share_within(Kind::ReadsWrites, ones, others, pools) {
        Some(Kind::ReadsWrites)
    } else if reads && share_within(Kind::ReadsReads, ones, others, pools) {
        Some(Kind::ReadsReads)
    } else {
        None
    }
}

/// A line with two names, words between and behind them, and a target.
fn names_line(
    alloc: Global,
    first: &str,
    between: &str,
    second: &str,
    behind: &str,
    target: &OwnedTarget,
) -> Result<String, OutOfMemory>
    ensures { IfOk result (λ text. string_bytes text ≡ spec.names_line first.now between.now second.now behind.now target.now) }
{
    let mut text = String::new(alloc);
    push_name(&mut text, first)?;
    text.push_str(between)?;
    push_name(&mut text, second)?;
    text.push_str(behind)?;
    push_target(&mut text, target)?;
    text.push_str("\n")?;
    Ok(text)
}

/// The line of two names that share a target so.
fn pair_line(
    alloc: Global,
    kind: Kind,
    one: &str,
    other: &str,
    target: &OwnedTarget,
) -> Result<String, OutOfMemory>
    ensures { IfOk result (λ text. string_bytes text ≡ spec.pair_line kind one.now other.now target.now) }
{
    match kind {
        Kind::WritesWrites => names_line(alloc, one, " and ", other, " write ", target),
        Kind::WritesReads => names_line(alloc, one, " writes what ", other, " reads ", target),
        Kind::ReadsWrites => names_line(alloc, other, " writes what ", one, " reads ", target),
        Kind::ReadsReads => names_line(alloc, one, " and ", other, " read ", target),
    }
}

/// The document of two names that share a target so.
fn pair_value(
    alloc: Global,
    kind: Kind,
    first: &str,
    second: &str,
    target: &OwnedTarget,
) -> Result<Value, OutOfMemory>
    ensures { IfOk result (λ value. view value ≡ pair_document kind first.now second.now target.now) }
{
    let example = target_example(alloc, target)?;
    json!(in alloc; {"example": example, "first": first, "kind": kind.words(), "second": second})
}

/// The piece of two names that share a target so.
fn pair_piece(
    alloc: Global,
    kind: Kind,
    first: &str,
    second: &str,
    target: &OwnedTarget,
) -> Result<String, OutOfMemory>
    ensures { IfOk result (λ text. string_bytes text ≡ piece (pair_document kind first.now second.now target.now)) }
{
    let document = pair_value(alloc, kind, first, second, target)?;
    piece_of(alloc, &document)
}

/// Two names that share a target so, as a line or as a piece of a list.
fn pair_by(
    alloc: Global,
    format: Format,
    kind: Kind,
    one: &str,
    other: &str,
    target: &OwnedTarget,
) -> Result<String, OutOfMemory>
    ensures { IfOk result (λ text. string_bytes text ≡ spec.pair_by format kind one.now other.now target.now) }
{
    match format {
        Format::Text => pair_line(alloc, kind, one, other, target),
        Format::Json => pair_piece(alloc, kind, one, other, target),
    }
}

/// An empty report, which does not fail.
pub(crate) fn nothing(alloc: Global) -> Printed
    ensures text { string_bytes result.text ≡ [] }
    ensures fails { result.fails ≡ false }
{
    Printed {
        text: String::new(alloc),
        fails: false,
    }
}

/// What is reported of two tenants that share this target by a kind. A check fails where one of them writes.
fn told_at(
    alloc: Global,
    kind: Kind,
    one: &Tenant<'_>,
    other: &Tenant<'_>,
    target: &OwnedTarget,
    strictness: Strictness,
) -> Result<Printed, OutOfMemory>
    ensures { IfOk result (λ printed. (string_bytes printed.text ≡ spec.pair_by strictness.format kind (one.now.name.now) (other.now.name.now) target.now) × (printed.fails ≡ (strictness.check && is_written kind))) }
{
    let text = pair_by(alloc, strictness.format, kind, one.name, other.name, target)?;
    let is_written = kind.is_written();
    Ok(Printed {
        text,
        fails: strictness.check && is_written,
    })
}

/// What is reported of two tenants that share something of a kind.
fn told_so(
    alloc: Global,
    kind: Kind,
    one: &Tenant<'_>,
    other: &Tenant<'_>,
    strictness: Strictness,
) -> Result<Printed, OutOfMemory>
    requires { ShareSo kind one.now.ticket.now.grants other.now.ticket.now.grants }
    ensures { IfOk result (λ printed. IsToldBy None strictness (Some kind) one.now other.now (string_bytes printed.text) printed.fails) }
{
    let examples = examples_of(alloc, kind, one.ticket, other.ticket)?;
    match examples.first() {
        None => Ok(nothing(alloc)),
        Some(shared) => told_at(alloc, kind, one, other, &shared.target, strictness),
    }
}

/// An example of a kind in the first of the pools that has one.
fn example_so(
    alloc: Global,
    kind: Kind,
    ones: &Ticket,
    others: &Ticket,
    pools: &[Pool],
) -> Result<Option<OwnedTarget>, OutOfMemory>
    ensures { IfOk result (λ found. IsExampleIn pools.now ones.now.grants (one_touch kind) others.now.grants (other_touch kind) found) }
{
    let one = kind.one();
    let other = kind.other();
    example_in(alloc, ones, &one, others, &other, pools)
}

/// What is reported of two tenants that share something of a kind in some of the pools.
fn told_so_in(
    alloc: Global,
    kind: Kind,
    one: &Tenant<'_>,
    other: &Tenant<'_>,
    strictness: Strictness,
    pools: &[Pool],
) -> Result<Printed, OutOfMemory>
    requires { ShareIn pools.now one.now.ticket.now.grants (one_touch kind) other.now.ticket.now.grants (other_touch kind) }
    ensures { IfOk result (λ printed. IsToldBy (Some pools.now) strictness (Some kind) one.now other.now (string_bytes printed.text) printed.fails) }
{
    match example_so(alloc, kind, one.ticket, other.ticket, pools)? {
        None => Ok(nothing(alloc)),
        Some(target) => told_at(alloc, kind, one, other, &target, strictness),
    }
}

/// What is reported of two tenants that share something of a kind: in some of the pools, where pools are given.
pub(crate) fn told_within(
    alloc: Global,
    kind: Kind,
    one: &Tenant<'_>,
    other: &Tenant<'_>,
    strictness: Strictness,
    pools: Option<&[Pool]>,
) -> Result<Printed, OutOfMemory>
    requires { ShareWithin (option_copied pools) kind one.now.ticket.now.grants other.now.ticket.now.grants }
    ensures { IfOk result (λ printed. IsToldBy (option_copied pools.entry) strictness (Some kind) one.now other.now (string_bytes printed.text) printed.fails) }
{
    match pools {
        None => told_so(alloc, kind, one, other, strictness),
        Some(pools) => told_so_in(alloc, kind, one, other, strictness, pools),
    }
}

/// What is reported of two tenants.
pub(crate) fn told_pair(
    alloc: Global,
    strictness: Strictness,
    pools: Option<&[Pool]>,
    one: &Tenant<'_>,
    other: &Tenant<'_>,
) -> Result<Printed, OutOfMemory>
    ensures { IfOk result (λ printed. IsPairTold (option_copied pools.entry) strictness one.now other.now (string_bytes printed.text) printed.fails) }
{
    match strongest(strictness.reads, one.ticket, other.ticket, pools) {
        None => Ok(nothing(alloc)),
        Some(kind) => told_within(alloc, kind, one, other, strictness, pools),
    }
}

/// Whether a pair with a kind makes a check fail.
fn is_some_written(kind: Option<Kind>) -> bool
    ensures { result ≡ spec.is_some_written kind }
{
    match kind {
        None => false,
        Some(kind) => kind.is_written(),
    }
}

/// What is reported of two tenants of whom one reaches every object: nothing, and it fails as it does else.
fn told_silently(
    alloc: Global,
    strictness: Strictness,
    pools: Option<&[Pool]>,
    one: &Tenant<'_>,
    other: &Tenant<'_>,
) -> Printed
    ensures { IsToldUnless true (option_copied pools.entry) strictness one.now other.now (string_bytes result.text) result.fails }
{
    let kind = strongest(strictness.reads, one.ticket, other.ticket, pools);
    let is_written = is_some_written(kind);
    Printed {
        text: String::new(alloc),
        fails: strictness.check && is_written,
    }
}

/// What is reported of two tenants, of which some pairs may be left out.
fn told_pair_by(
    alloc: Global,
    detail: Detail,
    strictness: Strictness,
    pools: Option<&[Pool]>,
    one: &Tenant<'_>,
    other: &Tenant<'_>,
) -> Result<Printed, OutOfMemory>
    ensures { IfOk result (λ printed. IsPairToldBy detail (option_copied pools.entry) strictness one.now other.now (string_bytes printed.text) printed.fails) }
{
    if detail.is_brief() && (one.everywhere || other.everywhere) {
        Ok(told_silently(alloc, strictness, pools, one, other))
    } else {
        told_pair(alloc, strictness, pools, one, other)
    }
}

/// Appends a report to what is printed. The whole fails where one of them does.
pub(crate) fn push_told(printed: &mut Printed, told: &Printed) -> Result<(), OutOfMemory>
    ensures text { OnOk result (string_bytes printed.new.text ≡ string_bytes printed.old.text ++ string_bytes told.now.text) }
    ensures fails { OnOk result (printed.new.fails ≡ (printed.old.fails || told.now.fails)) }
{
    printed.text.push_str(told.text.as_str())?;
    printed.fails = printed.fails || told.fails;
    Ok(())
}

/// What is reported of a tenant with each of those from a place on. The near ones of these are given. The others share
/// nothing with it, so nothing is reported of them.
fn told_with(
    alloc: Global,
    detail: Detail,
    strictness: Strictness,
    pools: Option<&[Pool]>,
    one: &Tenant<'_>,
    tenants: &[Tenant<'_>],
    from: usize,
    near: &[usize],
) -> Result<Printed, OutOfMemory>
    requires { AreNear one.now.ticket.now.grants (grants_of tenants.now) from near.now }
    ensures { IfOk result (λ printed. IsToldWith detail (option_copied pools.entry) strictness one.now (drop from tenants.now) (string_bytes printed.text) printed.fails) }
{
    let mut printed = nothing(alloc);
    for place in near {
        let told = told_pair_by(alloc, detail, strictness, pools, one, &tenants[*place])?;
        push_told(&mut printed, &told)?;
    }
    Ok(printed)
}

/// The tenants' tickets, found by the pools that they name.
pub(crate) fn index_of<'a>(
    alloc: Global,
    tenants: &[Tenant<'a>],
) -> Result<PoolIndex<'a>, OutOfMemory>
    ensures { IfOk result (λ index. index ≡ grants_of tenants.now) }
{
    let mut index = PoolIndex::new(alloc);
    for tenant in tenants {
        index.add(tenant.ticket)?;
    }
    Ok(index)
}

/// What is reported of each two tenants.
fn told_each(
    alloc: Global,
    detail: Detail,
    strictness: Strictness,
    pools: Option<&[Pool]>,
    tenants: &[Tenant<'_>],
) -> Result<Printed, OutOfMemory>
    ensures { IfOk result (λ printed. InTurn (IsToldWith detail (option_copied pools.entry) strictness) tenants.now (string_bytes printed.text) printed.fails) }
{
    let index = index_of(alloc, tenants)?;
    let mut printed = nothing(alloc);
    for place in 0..tenants.len() {
        let one = &tenants[place];
        let from = place + 1;
        let near = index.near(one.ticket, from)?;
        let told = told_with(
            alloc,
            detail,
            strictness,
            pools,
            one,
            tenants,
            from,
            near.as_slice(),
        )?;
        push_told(&mut printed, &told)?;
    }
    Ok(printed)
}

/// What the program prints of what the entities of a file share.
///
/// Each two entities that share something have one line, in the file's order, by the strongest kind:
/// - `ONE and OTHER write TARGET`;
/// - else `WRITER writes what READER reads TARGET`;
/// - else, where that is requested, `ONE and OTHER read TARGET`.
///
/// `TARGET` is one target that `osdgate verdict` takes, quoted for a shell. Who calls a method that reads or writes
/// counts as one who reads or writes. With a check it fails where one writes what the other reads or writes.
///
/// Where pools are given, a target counts only if it is of one of them, with exactly its tags. A line then has a target
/// of the first pool in which the two share by that kind. Without pools, each possible target counts.
///
/// In brief, no line is printed of two entities of whom one reads and writes every object of every pool. They fail as in whole.
/// [`crate::everybody_entities`] prints who these are.
///
/// A grant counts at the addresses of its network. Two entities share something if they do from some address of each.
///
/// An entity whose text has no rights is left out. Names are written by [`verdict_text::push_name`].
/// As a document it has the member `pairs`. Each item has `first`, `second`, `kind` and `example`.
/// `kind` is what the first one does, then what the second one does. `example` is the target.
///
/// The only error is `OutOfMemory`, which leaves nothing. Time grows with the pairs of entities that name a common
/// pool, or of which one has a grant without a pool, and for each such pair with the pairs of their grants. The pools
/// are looked at where two grants meet. The lines are this project's profile.
pub fn share_entities(
    alloc: Global,
    entities: &[Holder<'_>],
    strictness: Strictness,
    pools: Option<&[Pool]>,
    detail: Detail,
) -> Result<Printed, OutOfMemory>
    ensures { IfOk result (λ printed. AreTenantsTold detail (option_copied pools.entry) strictness entities.now (string_bytes printed.text) printed.fails) }
{
    let lives = lives_of(alloc, entities)?;
    let tenants = tenants_of(alloc, lives.as_slice())?;
    let told = told_each(alloc, detail, strictness, pools, tenants.as_slice())?;
    Ok(Printed {
        text: list_by(alloc, "pairs", told.text, strictness.format)?,
        fails: told.fails,
    })
}
