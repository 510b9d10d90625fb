//! What a store of objects decides on a request.

ghost use Rattle.std.specs.Prelude.{◌≡◌, IfOk, option_copied};
ghost use Rattle.std.specs.Option.{option_map};
ghost use Rattle.std.specs.Arc.{arc_value};
ghost use Rattle.std.specs.FinMap.{get};
ghost use Rattle.object_core.specs.Effect.{effect};
ghost use Rattle.object_core.specs.ToldEffects.{after};
ghost use Rattle.store_core.specs.Deciding.{answered, decision_on, name_of, ran, with_answer};

use crate::decided::{Decided, ObjectChange};
use crate::entry::Entry;
use crate::objects::Objects;
use crate::reply::Reply;
use crate::sealed::Sealed;
use common_types::{OutOfMemory, TryClone};
use object_core::{Change, Object, Op, Outcome, run_vector};
use std::alloc::Global;
use std::sync::Arc;

/// The object behind a shared one.
fn look<'a>(stored: Option<&'a Arc<Object>>) -> Option<&'a Object>
    ensures { option_copied result ≡ option_map (λ a. arc_value a.now) stored.entry }
{
    match stored {
        None => None,
        Some(object) => Some(&**object),
    }
}

/// The object after a change, which is shared where it was kept.
fn left(
    alloc: Global,
    stored: Option<&Arc<Object>>,
    change: Change,
) -> Result<Option<Arc<Object>>, OutOfMemory>
    ensures { IfOk result (λ o. option_map arc_value o ≡ after (option_map (λ a. arc_value a.now) stored.entry) change) }
{
    match change {
        Change::Became(None) => Ok(None),
        Change::Became(Some(object)) => Ok(Some(Arc::new(alloc, object)?)),
        Change::Kept => match stored {
            None => Ok(None),
            Some(object) => Ok(Some(Arc::try_clone(object)?)),
        },
    }
}

/// An answer that leaves the objects as they were.
fn answer(sealed: &Sealed, reply: Reply) -> Result<Decided, OutOfMemory>
    ensures { IfOk result (λ d. d ≡ with_answer sealed.now (answered reply)) }
{
    let entry = Entry {
        sealed: sealed.copy()?,
        reply,
    };
    Ok(Decided::new(entry, ObjectChange::Kept))
}

/// What operations result in on the object that a request names.
fn run(
    alloc: Global,
    objects: &Objects,
    sealed: &Sealed,
    ops: &[Op],
) -> Result<Decided, OutOfMemory>
    ensures { IfOk result (λ d. d ≡ with_answer sealed.now (ran (effect (get objects.now (name_of sealed.now)) ops.now))) }
{
    let stored = objects.get(sealed.name());
    match run_vector(alloc, look(stored), ops)? {
        Outcome::Failed { place, number } => answer(sealed, Reply::Failed { place, number }),
        Outcome::Done { outputs, object } => {
            let object = left(alloc, stored, object)?;
            let entry = Entry {
                sealed: sealed.copy()?,
                reply: Reply::Done(outputs),
            };
            Ok(Decided::new(entry, ObjectChange::Became(object)))
        }
    }
}

/// What becomes of a request where these objects are there. A denied one looks at no object.
#[tactic(auto, unfolding(crate::specs::Deciding::answer_on))]
pub fn decide(alloc: Global, objects: &Objects, sealed: &Sealed) -> Result<Decided, OutOfMemory>
    ensures { IfOk result (λ d. d ≡ decision_on objects.now sealed.now) }
{
    if !sealed.is_allowed() {
        return answer(sealed, Reply::Denied(sealed.report(alloc)?));
    }
    match sealed.ops() {
        Some(ops) => run(alloc, objects, sealed, ops),
        None => answer(sealed, Reply::Names(objects.names(alloc, sealed)?)),
    }
}
