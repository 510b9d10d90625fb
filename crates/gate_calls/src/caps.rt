//! A capability text, read and ready to judge requests.

ghost use Rattle.std.specs.Prelude.{◌≡◌, length, string_bytes};
ghost use Rattle.gate_calls.specs.Grants.{rights_in};

use crate::limited::LimitedRights;
use std::marker::Model;
use verdict_core::IndexedTicket;

/// What a capability text grants.
#[derive(Debug, Drop)]
pub(crate) enum Grants {
    /// No grant has a network: the ticket is that of every address.
    Plain(IndexedTicket),
    /// Some grant has a network.
    Limited(LimitedRights),
}

/// A capability text that was read, and what it grants.
///
/// Contracts see it as its text and its rights, by the record `Caps`.
#[derive(Debug, Drop)]
pub(crate) struct Caps {
    text: String,
    grants: Grants,
}

impl Model for Caps {
    ghost use Rattle.std.specs.Prelude.{string_bytes};
    ghost use Rattle.gate_calls.specs.Caps as seen;
    ghost use Rattle.gate_calls.specs.Grants.{rights_in};

    ghost Value = { seen.Caps };

    ghost view = { λ c. record { text = string_bytes c.text; rights = rights_in c.grants } };
}

impl Caps {
    pub(crate) fn new(text: String, grants: Grants) -> Caps
        ensures { result ≡ record { text = string_bytes text; rights = rights_in grants } }
    {
        Caps { text, grants }
    }

    /// Its text: by this project's rules the canonical one.
    pub(crate) fn text(&self) -> &str
        ensures { result.now ≡ self.now.text }
    {
        self.text.as_str()
    }

    /// The grants by which requests are judged.
    pub(crate) fn grants(&self) -> &Grants
        ensures { rights_in result.now ≡ self.now.rights }
    {
        &self.grants
    }

    /// The number of grants, profiles expanded.
    #[tactic(auto, using(rights_core::proofs::Given::length_with))]
    pub(crate) fn grant_count(&self) -> usize
        ensures { result ≡ length self.now.rights.grants }
    {
        match &self.grants {
            Grants::Plain(ticket) => ticket.grants().len(),
            Grants::Limited(limited) => limited.as_rights().len(),
        }
    }
}
