//! What the entities of a file share once a pool is tagged anew.

ghost use Rattle.std.specs.Prelude.{◌≡◌, None, drop, map, string_bytes, option_copied, IfOk};
ghost use Rattle.share_core.specs.Near.{AreNear};
ghost use Rattle.share_text.specs.Retags as spec;
ghost use Rattle.share_text.specs.Retags.{AreRetagsTold, IsRetagOfTexts, IsRetagTold, IsRetagToldAfter, IsRetagToldWith};
ghost use Rattle.share_text.specs.Untagged.{marked, plain_of};
ghost use Rattle.share_text.specs.Tenants.{InTurn};

use crate::holder::Holder;
use crate::live::{live_ticket, ticket_in};
use crate::tenants::{
    Strictness, Tenant, lives_of, nothing, push_told, strongest, tenants_of, told_pair,
};
use cap_grants::{AllowGrant, copy_namespace};
use common_types::{OutOfMemory, copy_name};
use grant_core::Path;
use rights_core::Rights;
use share_core::{Pool, PoolIndex};
use std::alloc::Global;
use verdict_core::Ticket;
use verdict_text::{Format, Printed, list_by};

/// A grant for pools of any tags.
fn untagged_grant(grant: &AllowGrant) -> Result<AllowGrant, OutOfMemory>
    ensures { IfOk result (λ untagged. untagged ≡ spec.untagged_grant grant.now) }
{
    Ok(AllowGrant {
        access: grant.access.copy()?,
        pool: copy_name(&grant.pool)?,
        namespace: copy_namespace(&grant.namespace)?,
        prefix: copy_name(&grant.prefix)?,
        tag: None,
    })
}

/// A grant with its path, for pools of any tags.
fn untagged_entry(entry: &(Path, AllowGrant)) -> Result<(Path, AllowGrant), OutOfMemory>
    ensures { IfOk result (λ untagged. untagged ≡ spec.untagged_entry entry.now) }
{
    Ok((entry.0.copy()?, untagged_grant(&entry.1)?))
}

/// A ticket's grants for pools of any tags.
fn untagged(alloc: Global, ticket: &Ticket) -> Result<Ticket, OutOfMemory>
    ensures { IfOk result (λ untagged. untagged.grants ≡ spec.untagged ticket.now.grants) }
{
    let given = ticket.grants();
    let mut grants = Vec::new(alloc);
    for grant in given {
        grants.push(untagged_entry(grant)?)?;
    }
    Ok(Ticket::from_grants(grants, None))
}

/// A line behind its mark, if there is one. An item of a document stays as it is.
fn marked(alloc: Global, format: Format, told: Printed) -> Result<Printed, OutOfMemory>
    ensures text { IfOk result (λ printed. string_bytes printed.text ≡ marked format told.fails (string_bytes told.text)) }
    ensures fails { IfOk result (λ printed. printed.fails ≡ told.fails) }
{
    match format {
        Format::Text if told.fails => {
            let mut text = String::from_str(alloc, "retag ")?;
            text.push_str(told.text.as_str())?;
            Ok(Printed {
                text,
                fails: told.fails,
            })
        }
        Format::Text | Format::Json => Ok(told),
    }
}

/// What is reported of two tenants that share nothing yet, by which one writes.
fn retag_after(
    alloc: Global,
    format: Format,
    pools: Option<&[Pool]>,
    one: &Tenant<'_>,
    other: &Tenant<'_>,
) -> Result<Printed, OutOfMemory>
    ensures { IfOk result (λ printed. IsRetagToldAfter None (option_copied pools.entry) format one.now.ticket.now.grants other.now.ticket.now.grants one.now.name.now other.now.name.now (string_bytes printed.text) printed.fails) }
{
    let ones = untagged(alloc, one.ticket)?;
    let others = untagged(alloc, other.ticket)?;
    let mine = Tenant {
        name: one.name,
        ticket: &ones,
        everywhere: one.everywhere,
    };
    let theirs = Tenant {
        name: other.name,
        ticket: &others,
        everywhere: other.everywhere,
    };
    let how = Strictness {
        reads: false,
        check: true,
        format,
    };
    let told = told_pair(alloc, how, pools, &mine, &theirs)?;
    marked(alloc, format, told)
}

/// What is reported of two tenants.
fn retag_of_pair(
    alloc: Global,
    format: Format,
    pools: Option<&[Pool]>,
    one: &Tenant<'_>,
    other: &Tenant<'_>,
) -> Result<Printed, OutOfMemory>
    ensures { IfOk result (λ printed. IsRetagTold (option_copied pools.entry) format one.now other.now (string_bytes printed.text) printed.fails) }
{
    match strongest(false, one.ticket, other.ticket, pools) {
        Some(_) => Ok(nothing(alloc)),
        None => retag_after(alloc, format, pools, one, other),
    }
}

/// What is reported of a tenant with each of those from a place on. The near ones of these are given. The others share
/// nothing with it, whatever the tags of a pool.
fn retags_with(
    alloc: Global,
    format: Format,
    pools: Option<&[Pool]>,
    one: &Tenant<'_>,
    tenants: &[Tenant<'_>],
    from: usize,
    near: &[usize],
) -> Result<Printed, OutOfMemory>
    requires { AreNear (spec.untagged one.now.ticket.now.grants) (plain_of tenants.now) from near.now }
    ensures { IfOk result (λ printed. IsRetagToldWith (option_copied pools.entry) format one.now (drop from tenants.now) (string_bytes printed.text) printed.fails) }
{
    let mut printed = nothing(alloc);
    for place in near {
        let told = retag_of_pair(alloc, format, pools, one, &tenants[*place])?;
        push_told(&mut printed, &told)?;
    }
    Ok(printed)
}

/// The tenants' tickets for pools of any tags.
fn plain_tickets(alloc: Global, tenants: &[Tenant<'_>]) -> Result<Vec<Ticket>, OutOfMemory>
    ensures { IfOk result (λ tickets. map (λ ticket. ticket.grants) tickets.items ≡ plain_of tenants.now) }
{
    let mut tickets = Vec::new(alloc);
    for tenant in tenants {
        tickets.push(untagged(alloc, tenant.ticket)?)?;
    }
    Ok(tickets)
}

/// Tickets, found by the pools that they name.
fn index_of_tickets<'a>(alloc: Global, tickets: &'a [Ticket]) -> Result<PoolIndex<'a>, OutOfMemory>
    ensures { IfOk result (λ index. index ≡ map (λ ticket. ticket.grants) tickets.now) }
{
    let mut index = PoolIndex::new(alloc);
    for ticket in tickets {
        index.add(ticket)?;
    }
    Ok(index)
}

/// What is reported of each two tenants, whose tickets for pools of any tags are indexed. It fails where there is a line.
fn retags_of_all(
    alloc: Global,
    format: Format,
    pools: Option<&[Pool]>,
    tenants: &[Tenant<'_>],
    index: &PoolIndex<'_>,
) -> Result<Printed, OutOfMemory>
    requires { index.now ≡ plain_of tenants.now }
    ensures { IfOk result (λ printed. InTurn (IsRetagToldWith (option_copied pools.entry) format) tenants.now (string_bytes printed.text) printed.fails) }
{
    let mut printed = nothing(alloc);
    for place in 0..tenants.len() {
        let one = &tenants[place];
        let from = place + 1;
        let plain = untagged(alloc, one.ticket)?;
        let near = index.near(&plain, from)?;
        let told = retags_with(alloc, format, pools, one, tenants, from, near.as_slice())?;
        push_told(&mut printed, &told)?;
    }
    Ok(printed)
}

/// What is reported of each two tenants. It fails where there is a line.
fn retags_of_each(
    alloc: Global,
    format: Format,
    pools: Option<&[Pool]>,
    tenants: &[Tenant<'_>],
) -> Result<Printed, OutOfMemory>
    ensures { IfOk result (λ printed. InTurn (IsRetagToldWith (option_copied pools.entry) format) tenants.now (string_bytes printed.text) printed.fails) }
{
    let tickets = plain_tickets(alloc, tenants)?;
    let index = index_of_tickets(alloc, tickets.as_slice())?;
    retags_of_all(alloc, format, pools, tenants, &index)
}

/// What the program prints of entities that share more once a pool is tagged anew: its tags change, and its objects stay.
///
/// Each two entities that share nothing by which one writes have one line if they share something so by their grants for pools
/// of any tags. It is the line of [`crate::share_entities`] behind the word `retag`. At its target, the one may touch the object
/// with some tags of the pool, and the other with the same or other tags. `fails` is set if some line is printed.
///
/// Where pools are given, a target counts only if its pool has the name of one of them, whatever its tags. As a document it has
/// the member `retags`, with items as in `pairs`. All else is as in [`crate::share_entities`].
///
/// The only error is `OutOfMemory`, which leaves nothing. Time grows as that of [`crate::share_entities`]. The lines are this
/// project's profile.
pub fn retag_entities(
    alloc: Global,
    entities: &[Holder<'_>],
    format: Format,
    pools: Option<&[Pool]>,
) -> Result<Printed, OutOfMemory>
    ensures { IfOk result (λ printed. AreRetagsTold (option_copied pools.entry) format entities.now (string_bytes printed.text) printed.fails) }
{
    let lives = lives_of(alloc, entities)?;
    let tenants = tenants_of(alloc, lives.as_slice())?;
    let told = retags_of_each(alloc, format, pools, tenants.as_slice())?;
    Ok(Printed {
        text: list_by(alloc, "retags", told.text, format)?,
        fails: told.fails,
    })
}

/// What the program prints of the rights of two texts that share more once a pool is tagged anew, as [`retag_entities`] says of
/// entities that are named `first` and `second`. The only error is `OutOfMemory`, which leaves nothing.
pub fn retag_rights(
    alloc: Global,
    ones: &Rights,
    others: &Rights,
    format: Format,
) -> Result<Printed, OutOfMemory>
    ensures { IfOk result (λ printed. IsRetagOfTexts format ones.now.grants others.now.grants (string_bytes printed.text) printed.fails) }
{
    let live_ones = live_ticket(alloc, ones)?;
    let live_others = live_ticket(alloc, others)?;
    let one = Tenant {
        name: "first",
        ticket: ticket_in(ones, &live_ones),
        everywhere: false,
    };
    let other = Tenant {
        name: "second",
        ticket: ticket_in(others, &live_others),
        everywhere: false,
    };
    let told = retag_of_pair(alloc, format, None, &one, &other)?;
    Ok(Printed {
        text: list_by(alloc, "retags", told.text, format)?,
        fails: told.fails,
    })
}
