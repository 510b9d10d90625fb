//! What one ticket allows that another denies.

ghost use Rattle.std.specs.Prelude.{◌≡◌, ◌≢◌, ◌≤◌, ◌++◌, [], None, string_bytes, IfOk, MatchOption, OnOk};
ghost use Rattle.compare_text.specs.Request.{addressed_words, from_words};
ghost use Rattle.rights_core.specs.Rights.{with_networks};
ghost use Rattle.gate_calls.specs.Codes as codes;
ghost use Rattle.gate_calls.specs.Grants.{rights_in};
ghost use Rattle.gate_calls.specs.Lent.{lent_rights};
ghost use Rattle.gate_calls.specs.Widening as spec;

use crate::buffers::copy_in;
use crate::caps::{Caps, Grants};
use crate::codes::{EMPTY, NO_MEMORY, NOT_WIDER, WIDER};
use crate::handle::SigTicket;
use common_types::OutOfMemory;
use compare_core::Registry;
use compare_text::{AddressedExample, push_request, widening_from};
use network_core::Address;
use rights_core::Rights;
use std::alloc::Global;
use std::fmt::Write;
use verdict_core::{IndexedTicket, Ticket};

/// The rights of a ticket: made of it, or borrowed.
#[derive(Drop)]
pub(crate) enum Lent<'a> {
    Made(Rights),
    Borrowed(&'a Rights),
}

/// A ticket with the same grants.
fn plain_ticket(alloc: Global, ticket: &IndexedTicket) -> Result<Ticket, OutOfMemory>
    ensures { IfOk result (λ plain. plain ≡ ticket.now) }
{
    let entries = ticket.grants();
    let mut grants = Vec::with_capacity(alloc, entries.len())?;
    for entry in entries {
        grants.push((entry.0.copy()?, entry.1.copy()?))?;
    }
    Ok(Ticket::from_grants(grants, ticket.until()))
}

fn rights_of(alloc: Global, caps: &Caps) -> Result<Lent<'_>, OutOfMemory>
    ensures { IfOk result (λ lent. lent_rights lent ≡ caps.now.rights) }
{
    match caps.grants() {
        Grants::Plain(ticket) => {
            let plain = plain_ticket(alloc, ticket)?;
            Ok(Lent::Made(Rights::from_ticket(alloc, plain)))
        }
        Grants::Limited(limited) => Ok(Lent::Borrowed(limited.as_rights())),
    }
}

impl<'a> Lent<'a> {
    fn as_rights(&self) -> &Rights
        ensures { result.now ≡ lent_rights self.now }
    {
        match self {
            Lent::Made(rights) => rights,
            Lent::Borrowed(rights) => rights,
        }
    }
}

/// Adds the option of an address, if there is one.
fn push_from(text: &mut String, from: &Option<Address>) -> Result<(), OutOfMemory>
    ensures { OnOk result (string_bytes text.new ≡ string_bytes text.old ++ from_words from.now) }
{
    match from {
        Some(address) => write!(text, " --from {address}"),
        None => Ok(()),
    }
}

fn printed(alloc: Global, found: &AddressedExample) -> Result<String, OutOfMemory>
    ensures { IfOk result (λ text. string_bytes text ≡ addressed_words found.now) }
{
    let mut text = String::new(alloc);
    push_request(&mut text, &found.example)?;
    push_from(&mut text, &found.from)?;
    Ok(text)
}

/// A request that `new` allows and `old` denies, in words of a shell; `None` if no such request exists.
fn first_gain(alloc: Global, old: &Caps, new: &Caps) -> Result<Option<String>, OutOfMemory>
    ensures { IfOk result (λ found. MatchOption found (¬ spec.IsWider old.now new.now) (λ text. spec.IsGainText old.now new.now (string_bytes text))) }
{
    let old = rights_of(alloc, old)?;
    let new = rights_of(alloc, new)?;
    let examples = widening_from(alloc, Registry::Every, old.as_rights(), new.as_rights())?;
    match examples.as_slice() {
        [] => Ok(None),
        [example, ..] => Ok(Some(printed(alloc, example)?)),
    }
}

/// Whether `new` allows a request from some address that `old` denies there, of all targets, needs and class registries: `WIDER`, as
/// much of one such request as fits into `out`, in the words that `osdgate verdict` takes, and its whole length in `needed`; else
/// `NOT_WIDER`, `EMPTY` or `NO_MEMORY`, and nothing is written. When the tickets end is not looked at.
pub fn widens(
    alloc: Global,
    old: &mut SigTicket,
    new: &mut SigTicket,
    out: &mut [u8],
    needed: &mut usize,
) -> u32
    ensures wider { result ≡ codes.wider → spec.BothHold (λ before after. spec.IsGainIn before after needed.new out.old out.new) old.old.ticket new.old.ticket }
    ensures not_wider { result ≡ codes.not_wider → spec.BothHold (λ before after. ¬ spec.IsWider before after) old.old.ticket new.old.ticket }
    ensures empty { result ≡ codes.empty → (old.old.ticket ≢ None → new.old.ticket ≡ None) }
    ensures nothing { result ≢ codes.wider → out.new ≡ out.old }
    ensures code { result ≤ codes.no_memory }
    ensures old_kept { old.new.ticket ≡ old.old.ticket }
    ensures new_kept { new.new.ticket ≡ new.old.ticket }
{
    let Some(before) = old.take(alloc) else {
        return EMPTY;
    };
    let Some(after) = new.take(alloc) else {
        old.put(before);
        return EMPTY;
    };
    let found = first_gain(alloc, before.as_caps(), after.as_caps());
    old.put(before);
    new.put(after);
    match found {
        Ok(None) => NOT_WIDER,
        Ok(Some(text)) => {
            *needed = copy_in(out, text.as_str().as_bytes());
            WIDER
        }
        Err(_) => NO_MEMORY,
    }
}
