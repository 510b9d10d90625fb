//! What an interval begins with, made before it begins.

ghost use Rattle.std.specs.Prelude.{◌≡◌, ◌≤◌, ◌++◌, ◌∷◌, [], IfOk, OnOk, vec_len};
ghost use Rattle.group_model.specs.Group.{announced, resent};

use crate::ledger::Ledger;
use crate::sending::{announced, resent};
use crate::wire::Wire;
use common_types::OutOfMemory;
use group_messages::IntervalSets;
use peer_core::Sent;
use place_core::ActingSet;
use std::alloc::Global;

/// The sets with the new one, and the messages that tell of it.
#[derive(Drop)]
pub struct Opening {
    pub sets: IntervalSets,
    pub sent: Vec<Sent>,
}

/// Makes what an interval of this set begins with, and room for its messages. The only error is out of memory, and it
/// leaves the messages that are on their way.
pub fn prepare(
    alloc: Global,
    wire: &mut Wire,
    sets: &IntervalSets,
    acting: ActingSet,
    ledger: &Ledger,
) -> Result<Opening, OutOfMemory>
    ensures sets { IfOk result (λ o. o.sets ≡ sets.now ++ acting ∷ []) }
    ensures sent { IfOk result (λ o. o.sent.items ≡ announced (sets.now ++ acting ∷ []) ++ resent (sets.now ++ acting ∷ []) ledger.now.requests ledger.now.answers) }
    ensures room { IfOk result (λ o. vec_len o.sent ≤ wire.new.room) }
    ensures same { wire.new.sent ≡ wire.old.sent }
{
    let next = sets.followed_by(alloc, acting)?;
    let mut sent = announced(alloc, &next)?;
    let mut again = resent(alloc, &next, ledger)?;
    sent.append(&mut again)?;
    wire.reserve(sent.len())?;
    Ok(Opening { sets: next, sent })
}

/// Begins the interval, where there is room for its messages. It takes no memory.
pub fn open(wire: &mut Wire, sets: &mut IntervalSets, opening: Opening)
    requires { vec_len opening.sent ≤ wire.old.room }
    ensures sets { sets.new ≡ opening.sets }
    ensures wire { wire.new.sent ≡ wire.old.sent ++ opening.sent.items }
{
    wire.append(opening.sent);
    *sets = opening.sets;
}
