//! What a fit does to a log, made before the log is changed.

ghost use Rattle.std.specs.Prelude.{◌≡◌, [], ◌∷◌, ◌++◌, None, IfOk, OnOk};
ghost use Rattle.store_core.specs.Deciding.{decision_on, name_of};
ghost use Rattle.store_core.specs.Objects.{changed, all_changed, change_of};
ghost use Rattle.store_core.specs.Store.{Store};
ghost use Rattle.entry_core.specs.Drafts.{Undoes};

use common_types::OutOfMemory;
use std::alloc::Global;
use store_core::{Entry, NamedChange, ObjectChange, ObjectName, Objects, Sealed, decide};

/// Entries that are to come behind the first ones of a log, and what becomes of the log's objects.
///
/// They are decided on some of the objects, which are changed with each. What undoes the last entry is kept beside them.
pub(crate) struct Draft {
    objects: Objects,
    changes: Vec<NamedChange>,
    entries: Vec<Entry>,
    back: Option<ObjectChange>,
}

impl Drop for Draft {
    fn drop(self) {
        let Draft {
            objects: _,
            changes: _,
            entries: _,
            back: _,
        } = self;
    }
}

impl Draft {
    /// Nothing is to come yet. It takes no memory.
    pub(crate) fn new(alloc: Global, objects: Objects) -> Draft
        ensures objects { result.objects ≡ objects }
        ensures changes { result.changes.items ≡ [] }
        ensures entries { result.entries.items ≡ [] }
        ensures back { result.back ≡ None }
    {
        Draft {
            objects,
            changes: Vec::new(alloc),
            entries: Vec::new(alloc),
            back: None,
        }
    }

    /// Changes an object, and gives what undoes it.
    pub(crate) fn change(
        &mut self,
        name: &ObjectName,
        left: ObjectChange,
    ) -> Result<ObjectChange, OutOfMemory>
        ensures objects { OnOk result (self.new.objects ≡ changed self.old.objects name.now (change_of left)) }
        ensures changes { OnOk result ((store : Store) → all_changed store self.new.changes.items ≡ changed (all_changed store self.old.changes.items) name.now (change_of left)) }
        ensures undo { IfOk result (λ undo. changed self.new.objects name.now (change_of undo) ≡ self.old.objects) }
        ensures entries { self.new.entries ≡ self.old.entries }
        ensures back { self.new.back ≡ self.old.back }
    {
        let change = NamedChange {
            name: name.clone()?,
            left: left.share()?,
        };
        self.changes.push(change)?;
        self.objects.change(name, left)
    }

    /// Decides a request, which comes behind the others.
    pub(crate) fn decide(&mut self, alloc: Global, sealed: &Sealed) -> Result<(), OutOfMemory>
        ensures entries { OnOk result (self.new.entries.items ≡ self.old.entries.items ++ (decision_on self.old.objects sealed.now).entry ∷ []) }
        ensures objects { OnOk result (self.new.objects ≡ changed self.old.objects (name_of sealed.now) (decision_on self.old.objects sealed.now).change) }
        ensures changes { OnOk result ((store : Store) → all_changed store self.new.changes.items
            ≡ changed (all_changed store self.old.changes.items) (name_of sealed.now) (decision_on self.old.objects sealed.now).change) }
        ensures back { OnOk result (Undoes self.new.objects self.old.objects (name_of sealed.now) self.new.back) }
    {
        let (entry, left) = decide(alloc, &self.objects, sealed)?.into_parts();
        let undo = self.change(sealed.name(), left)?;
        self.entries.push(entry)?;
        self.back = Some(undo);
        Ok(())
    }
    /// The changes of objects, the entries, and what undoes the last one.
    pub(crate) fn into_parts(self) -> (Vec<NamedChange>, Vec<Entry>, Option<ObjectChange>)
        ensures changes { result.0 ≡ self.changes }
        ensures entries { result.1 ≡ self.entries }
        ensures back { result.2 ≡ self.back }
    {
        let Draft {
            objects: _,
            changes,
            entries,
            back,
        } = self;
        (changes, entries, back)
    }
}
