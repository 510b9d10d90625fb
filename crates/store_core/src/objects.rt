//! The objects that the entries of a log make.

ghost use Rattle.std.specs.Prelude.{◌≡◌, ◌+◌, ◌<◌, ◌≤◌, IfOk, OnOk, OnErr, vec_len};
ghost use Rattle.std.specs.Option.{option_map};
ghost use Rattle.std.specs.Arc.{arc_value};
ghost use Rattle.std.specs.FinMap.{empty, get, insert, remove};
ghost use Rattle.std.specs.HashMap.{spare};
ghost use Rattle.store_core.specs.Deciding.{names_in};
ghost use Rattle.store_core.specs.Objects.{changed, AlikeFor, all_changed, change_of, objects_of};

use crate::decided::{NamedChange, ObjectChange};
use crate::object_name::ObjectName;
use crate::sealed::Sealed;
use crate::texts::Texts;
use common_types::{Items, Name, OutOfMemory};
use object_core::Object;
use std::alloc::{AllocError, Global};
use std::collections::HashMap;
use std::marker::Model;
use std::mem;
use std::sync::Arc;

/// Objects by their names, which contracts see as the map. Names are found by their hash.
#[derive(Drop)]
pub struct Objects {
    map: HashMap<ObjectName, Arc<Object>>,
}

impl Model for Objects {
    ghost use Rattle.store_core.specs.Store.{Store, store_code};

    ghost Value = { Store };

    ghost coded = { store_code };

    ghost use Rattle.store_core.specs.Objects.{objects_of};

    ghost view = { λ o. objects_of o.map.entries };
}

impl Objects {
    /// No objects. It takes no memory.
    pub fn new(alloc: Global) -> Objects
        ensures { result ≡ empty }
    {
        Objects {
            map: HashMap::new(alloc),
        }
    }

    /// The object of a name.
    pub(crate) fn get(&self, name: &ObjectName) -> Option<&Arc<Object>>
        ensures { option_map (λ a. arc_value a.now) result ≡ get self.now name.now }
    {
        self.map.get(name)
    }

    /// Puts the object of a name, and gives the one that was there. The name is copied where it is new.
    pub(crate) fn put(
        &mut self,
        name: &ObjectName,
        object: Arc<Object>,
    ) -> Result<Option<Arc<Object>>, OutOfMemory>
        ensures ok { OnOk result (self.new ≡ insert self.old name.now (arc_value object)) }
        ensures before { IfOk result (λ before. option_map arc_value before ≡ get self.old name.now) }
        ensures err { OnErr result (self.new ≡ self.old) }
    {
        if let Some(kept) = self.map.get_mut(name) {
            return Ok(Some(mem::replace(kept, object)));
        }
        self.map.insert(name.clone()?, object)?;
        Ok(None)
    }

    /// Takes the object of a name out.
    pub(crate) fn take_out(&mut self, name: &ObjectName) -> Option<Arc<Object>>
        ensures out { self.new ≡ remove self.old name.now }
        ensures before { option_map arc_value result ≡ get self.old name.now }
    {
        self.map.remove(name)
    }

    /// Applies a decided change to the object of a name, and returns what undoes it. Out of memory changes nothing.
    pub fn change(
        &mut self,
        name: &ObjectName,
        left: ObjectChange,
    ) -> Result<ObjectChange, OutOfMemory>
        ensures ok { OnOk result (self.new ≡ changed self.old name.now (change_of left)) }
        ensures back { IfOk result (λ back. changed self.new name.now (change_of back) ≡ self.old) }
        ensures err { OnErr result (self.new ≡ self.old) }
    {
        match left {
            ObjectChange::Kept => Ok(ObjectChange::Kept),
            ObjectChange::Became(Some(object)) => {
                let before = self.put(name, object)?;
                Ok(ObjectChange::Became(before))
            }
            ObjectChange::Became(None) => Ok(ObjectChange::Became(self.take_out(name))),
        }
    }

    /// Applies changes, one after another. Out of memory changes nothing.
    pub fn change_all(&mut self, changes: Vec<NamedChange>) -> Result<(), OutOfMemory>
        ensures ok { OnOk result (self.new ≡ all_changed self.old changes.items) }
        ensures err { OnErr result (self.new ≡ self.old) }
    {
        self.map.reserve(changes.len())?;
        change_each(&mut self.map, changes);
        Ok(())
    }

    /// The object of a name, shared.
    pub fn shared(&self, name: &ObjectName) -> Result<Option<Arc<Object>>, OutOfMemory>
        ensures { IfOk result (λ o. option_map arc_value o ≡ get self.now name.now) }
    {
        match self.get(name) {
            None => Ok(None),
            Some(object) => Ok(Some(Arc::try_clone(object)?)),
        }
    }

    /// The objects that requests look at, shared: those that vectors name, or all where one of the requests lists names.
    pub fn needed_by(&self, alloc: Global, part: &[Sealed]) -> Result<Objects, OutOfMemory>
        ensures { IfOk result (λ few. AlikeFor few self.now part.now) }
    {
        let mut few = Objects::new(alloc);
        for sealed in part {
            if sealed.ops().is_none() {
                return self.copy();
            }
            let object = self.shared(sealed.name())?;
            let _ = few.change(sealed.name(), ObjectChange::Became(object))?;
        }
        Ok(few)
    }

    /// The names of a listing piece, in the order of their bytes.
    pub(crate) fn names(&self, alloc: Global, sealed: &Sealed) -> Result<Items<Name>, OutOfMemory>
        ensures { IfOk result (λ names. names ≡ names_in self.now sealed.now) }
    {
        let mut texts = Texts::new(alloc);
        for name in self.map.keys() {
            if sealed.lists(name) {
                texts.add(alloc, &name.name)?;
            }
        }
        texts.names(alloc)
    }

    /// An equal map, which shares the objects.
    pub fn copy(&self) -> Result<Objects, OutOfMemory>
        ensures { IfOk result (λ objects. objects ≡ self.now) }
    {
        Ok(Objects {
            map: self.map.clone()?,
        })
    }
}

/// Does a change. There is room for one more object.
fn change_one(map: &mut HashMap<ObjectName, Arc<Object>>, change: NamedChange)
    requires { 0 < spare map.old }
    ensures store { objects_of map.new.entries ≡ changed (objects_of map.old.entries) change.name (change_of change.left) }
    ensures spare { spare map.old ≤ spare map.new + 1 }
{
    let NamedChange { name, left } = change;
    match left {
        ObjectChange::Kept => {}
        ObjectChange::Became(None) => {
            let _ = map.remove(&name);
        }
        ObjectChange::Became(Some(object)) => {
            let _ = map.insert(name, object);
        }
    }
}

/// Does changes, one after another. There is room for as many objects.
fn change_each(map: &mut HashMap<ObjectName, Arc<Object>>, changes: Vec<NamedChange>)
    requires { vec_len changes ≤ spare map.old }
    ensures { objects_of map.new.entries ≡ all_changed (objects_of map.old.entries) changes.items }
{
    for change in changes {
        change_one(map, change);
    }
}
