//! Tickets of capability texts.

use cap_text::parse;
use grant_core::{ProfileTable, expand};
use std::alloc::Global;
use std::process::Abort;
use verdict_core::{SharedTicket, Ticket};

// The ticket of a text, which never ends.
pub(crate) fn ticket_of<R: Abort>(rt: &R, alloc: Global, text: &str) -> SharedTicket {
    let list = parse(alloc, text).expect(rt, "a capability text");
    let table = ProfileTable::builtin(alloc).expect(rt, "profiles");
    let tree = expand(alloc, &table, &list).expect(rt, "grants");
    SharedTicket::of(Ticket::of(tree, None)).expect(rt, "memory")
}
