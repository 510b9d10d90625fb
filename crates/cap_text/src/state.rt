//! What was read of a text.

ghost use Rattle.std.specs.Prelude.{◌≡◌, length, IfOk};
ghost use Rattle.cap_grants.specs.Gives.{Gives, GivesIn};
ghost use Rattle.cap_text.specs.Machine.{advance, finish};
ghost use Rattle.cap_text.specs.Kept.{nothing_read};

use crate::draft::GrantBuilder;
use crate::machine::{close, step};
use crate::stage::Next;
use crate::token::Token;
use cap_grants::{FaultKind, Grants};
use common_types::OutOfMemory;
use std::alloc::Global;
use std::marker::Model;

/// The grants that are whole, what was read of the next one, and what may come next.
#[derive(Drop)]
pub struct Reading {
    done: Grants,
    sheet: GrantBuilder,
    next: Next,
}

impl Model for Reading {
    ghost use Rattle.cap_text.specs.Stage.{State};
    ghost use Rattle.cap_text.specs.Kept.{state_of};

    ghost Value = { State };

    ghost view = { λ r. state_of r.done r.sheet r.next };
}

impl Reading {
    /// A reading that has read nothing, with room for `count` grants.
    pub fn new(alloc: Global, count: usize) -> Result<Reading, OutOfMemory>
        ensures { IfOk result (λ reading. reading ≡ nothing_read) }
    {
        Ok(Reading {
            done: Grants::with_room(alloc, count)?,
            sheet: GrantBuilder::new(alloc),
            next: Next::Start,
        })
    }

    /// How many grants are whole.
    pub fn len(&self) -> usize
        ensures { result ≡ length self.now.done }
    {
        self.done.len()
    }

    /// Reads a token.
    pub fn advance(&mut self, alloc: Global, token: &Token<'_>) -> Result<(), FaultKind>
        ensures { GivesIn result self.new (advance self.old token.now) }
    {
        match token {
            Token::Comma | Token::Semicolon => {
                close(alloc, self.next, &mut self.sheet, &mut self.done)?;
                self.next = Next::Separator;
            }
            token => self.next = step(alloc, self.next, &mut self.sheet, token)?,
        }
        Ok(())
    }

    /// The grants of a text that ends here.
    #[inline(never)]
    pub fn finish(self, alloc: Global) -> Result<Grants, FaultKind>
        ensures { Gives result (finish self) }
    {
        let Reading {
            mut done,
            mut sheet,
            next,
        } = self;
        match next {
            Next::Start => Ok(done),
            next => {
                close(alloc, next, &mut sheet, &mut done)?;
                Ok(done)
            }
        }
    }
}
