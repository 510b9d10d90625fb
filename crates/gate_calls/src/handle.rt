//! The handle by which C owns a ticket.

ghost use Rattle.std.specs.Prelude.{◌≡◌, Option, None, Some};
ghost use Rattle.std.specs.Option.{option_map};
ghost use Rattle.gate_calls.specs.Caps.{Caps};

use crate::loose::Loose;
use crate::shared::SharedCaps;
use std::alloc::Global;
use std::marker::Model;

/// A ticket, or none: C's `sig_ticket`, a struct of one pointer, which is null if there is no ticket.
#[repr(C)]
pub struct SigTicket {
    at: *mut u8,
    alloc: Global,
    pub ghost ticket: { Option Caps },
}

impl Model for SigTicket {
    ghost use Rattle.gate_calls.specs.contracts.shared.SharedCaps.{the_row};
    ghost use Rattle.gate_calls.specs.Held.{held};

    ghost also_owns = { λ h. held the_row h.alloc h.at h.ticket };
}

// The ticket behind the pointer may move to another thread, so the handle may.
unsafe impl Send for SigTicket {}

impl SigTicket {
    /// The handle of no ticket.
    pub fn empty(alloc: Global) -> SigTicket
        ensures { result.ticket ≡ None }
    {
        SigTicket {
            at: std::ptr::null_mut(),
            alloc,
        }
    }

    fn of_loose(ticket: Loose<SharedCaps, Global>) -> SigTicket
        ensures { result.ticket ≡ Some ticket.value }
    {
        let Loose { at, alloc } = ticket;
        SigTicket {
            at: at as *mut u8,
            alloc,
        }
    }

    fn into_loose(self) -> Option<Loose<SharedCaps, Global>>
        ensures { option_map (λ l. l.value) result ≡ self.ticket }
    {
        let SigTicket { at, alloc } = self;
        if at.is_null() {
            None
        } else {
            Some(Loose {
                at: at as *mut SharedCaps,
                alloc,
            })
        }
    }

    pub(crate) fn into_box(self) -> Option<Box<SharedCaps>>
        ensures { option_map (λ b. b.value) result ≡ self.ticket }
    {
        match self.into_loose() {
            None => None,
            Some(loose) => Some(loose.into_box()),
        }
    }

    /// Takes the ticket out.
    pub(crate) fn take(&mut self, alloc: Global) -> Option<Box<SharedCaps>>
        ensures taken { option_map (λ b. b.value) result ≡ self.old.ticket }
        ensures left { self.new.ticket ≡ None }
    {
        std::mem::replace(self, SigTicket::empty(alloc)).into_box()
    }

    /// Puts a ticket in, and drops the old one.
    pub(crate) fn put(&mut self, ticket: Box<SharedCaps>)
        ensures { self.new.ticket ≡ Some ticket.value }
    {
        let new = SigTicket::of_loose(Loose::of(ticket));
        drop(std::mem::replace(self, new).into_box());
    }
}

/// Shows that the proof that a handle may go to another thread is there.
fn is_sent<T: Send>(value: T) -> T {
    value
}

pub(crate) fn sent(ticket: SigTicket) -> SigTicket {
    is_sent(ticket)
}
