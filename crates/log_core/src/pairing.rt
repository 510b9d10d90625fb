//! Which lines make one operation.

ghost use Rattle.std.specs.Prelude.{◌≡◌, ◌∷◌, [], List, ℕ, None, Some, IfOk, OnOk, if◌then◌else◌};
ghost use Rattle.std.specs.HashMap.{get_by_text};
ghost use Rattle.std.specs.Str.{bytes_eq};
ghost use Rattle.log_core.specs.declared.line.Line.{Line};
ghost use Rattle.log_core.specs.Log.{Remembers, pair_of};
ghost use Rattle.log_core.specs.Ledger.{request_from};

use crate::line::Line;
use crate::request::Request;
use common_types::{Name, OutOfMemory};
use std::alloc::Global;
use std::collections::HashMap;

/// What belongs to a decision.
#[derive(Debug, Drop)]
pub(crate) struct Pair {
    /// The entity of its session, if the log has the session's beginning.
    pub(crate) entity: Option<Name>,
    /// The object of its operation, if the log has the line before.
    pub(crate) object: Option<Name>,
}

impl Pair {
    /// The request of a decision with this text, if the entity and the object are known.
    pub(crate) fn into_request(self, text: &Name) -> Result<Option<Request>, OutOfMemory>
        ensures { IfOk result (λ request. request ≡ request_from self.entity self.object text.now) }
    {
        let Pair { entity, object } = self;
        let Some(entity) = entity else {
            return Ok(None);
        };
        let Some(object) = object else {
            return Ok(None);
        };
        Ok(Some(Request {
            entity,
            object,
            text: text.copy()?,
        }))
    }
}

/// What is remembered of the lines so far.
pub(crate) struct Pairing {
    entities: HashMap<String, Name>,
    objects: HashMap<String, Name>,
}

impl Drop for Pairing {
    fn drop(self) {
        let Pairing {
            entities: _,
            objects: _,
        } = self;
    }
}

/// Puts a name at a key, in place of the one that is there.
fn put(
    map: &mut HashMap<String, Name>,
    alloc: Global,
    key: &Name,
    value: &Name,
) -> Result<(), OutOfMemory>
    ensures { OnOk result ((q : List ℕ) → get_by_text map.new q ≡ (if bytes_eq key.now q then Some value.now else get_by_text map.old q)) }
{
    let text = String::from_str(alloc, key.as_str())?;
    map.insert(text, value.copy()?)?;
    Ok(())
}

/// Takes the name out that is at a key, if there is one.
fn take(map: &mut HashMap<String, Name>, key: &Name) -> Option<Name>
    ensures value { result ≡ get_by_text map.old key.now }
    ensures others { (q : List ℕ) → get_by_text map.new q ≡ (if bytes_eq key.now q then None else get_by_text map.old q) }
{
    map.remove(key.as_str())
}

/// An equal name to that at a key, if there is one.
fn found(map: &HashMap<String, Name>, key: &Name) -> Result<Option<Name>, OutOfMemory>
    ensures { IfOk result (λ found. found ≡ get_by_text map.now key.now) }
{
    match map.get(key.as_str()) {
        None => Ok(None),
        Some(name) => Ok(Some(name.copy()?)),
    }
}

impl Pairing {
    /// Nothing is remembered. It takes no memory.
    pub(crate) fn new(alloc: Global) -> Pairing
        ensures { Remembers [] result }
    {
        Pairing {
            entities: HashMap::new(alloc),
            objects: HashMap::new(alloc),
        }
    }

    /// Remembers the next line. Where it is a decision, returns what belongs to it, and forgets the thread's operation. An `Err`
    /// is out of memory alone, and leaves all as it was.
    pub(crate) fn read(&mut self, alloc: Global, line: &Line) -> Result<Option<Pair>, OutOfMemory>
        ensures remembers { OnOk result ((before : List Line) → Remembers before self.old → Remembers (line.now ∷ before) self.new) }
        ensures pair { IfOk result (λ pair. (before : List Line) → Remembers before self.old → pair ≡ pair_of before line.now) }
    {
        match line {
            Line::Session { session, entity } => {
                put(&mut self.entities, alloc, session, entity)?;
                Ok(None)
            }
            Line::Operation { thread, object } => {
                put(&mut self.objects, alloc, thread, object)?;
                Ok(None)
            }
            Line::Decision {
                thread,
                session,
                ..
            } => {
                let entity = found(&self.entities, session)?;
                let object = take(&mut self.objects, thread);
                Ok(Some(Pair { entity, object }))
            }
            Line::Cut => Ok(None),
        }
    }
}
