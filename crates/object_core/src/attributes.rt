//! Attributes: named values that an object has beside its bytes.

ghost use Rattle.std.specs.Prelude.{◌≡◌, true, [], is_some, IfOk, OnOk, option_copied};
ghost use Rattle.object_core.specs.Content.{AreAttributes, IsAttribute, place_of, value_of, has_room, with_attribute, without_attribute};

use crate::bytes::Bytes;
use common_types::{Name, OutOfMemory, TryClone};
use std::alloc::Global;
use std::marker::Model;

/// How many attributes an object has at most.
const MAX_ATTRIBUTES: usize = 16;

/// At most 16 names of 1 to 64 bytes with their values of at most 1,024, in the order of their setting, which
/// contracts see as the list of these pairs.
#[derive(Debug, Drop)]
pub struct Attributes {
    attributes: Vec<(Name, Bytes)>,
}

impl Model for Attributes {
    ghost use Rattle.std.specs.Prelude.{List, ℕ};
    ghost use Rattle.object_core.specs.Content.{AreAttributes};

    ghost Value = { List (List ℕ × List ℕ) };

    ghost view = { λ a. a.attributes.items };

    ghost invariant = { λ a. AreAttributes a.attributes.items };
}

impl Attributes {
    /// No attributes. It takes no memory.
    pub fn new(alloc: Global) -> Attributes
        ensures { result ≡ [] }
    {
        Attributes {
            attributes: Vec::new(alloc),
        }
    }

    /// The pairs in order.
    pub fn as_slice(&self) -> &[(Name, Bytes)]
        ensures value { result.now ≡ self.now }
        ensures limits { AreAttributes self.now }
    {
        self.attributes.as_slice()
    }

    /// Equal attributes.
    pub fn copy(&self) -> Result<Attributes, OutOfMemory>
        ensures { IfOk result (λ attributes. attributes ≡ self.now) }
    {
        let mut attributes = Vec::with_capacity(
            *self.attributes.allocator(),
            self.attributes.len(),
        )?;
        for attribute in self.as_slice() {
            attributes.push((attribute.0.copy()?, attribute.1.copy()?))?;
        }
        Ok(Attributes { attributes })
    }

    /// The value of a name, if it has one.
    pub fn get(&self, name: &Name) -> Option<&Bytes>
        ensures { option_copied result ≡ value_of name.now self.now }
    {
        match self.as_slice().iter().find(|a| a.0.equals(name)) {
            None => None,
            Some(attribute) => Some(&attribute.1),
        }
    }

    /// Where the attribute of a name is.
    fn place(&self, name: &Name) -> Option<usize>
        ensures { result ≡ place_of name.now self.now }
    {
        self.as_slice().iter().position(|a| a.0.equals(name))
    }

    /// Whether there is an attribute of a name.
    pub(crate) fn has(&self, name: &Name) -> bool
        ensures { result ≡ is_some (place_of name.now self.now) }
    {
        self.place(name).is_some()
    }

    /// Whether a name can be set without going over the number of attributes.
    pub(crate) fn has_room(&self, name: &Name) -> bool
        ensures { result ≡ has_room name.now self.now }
    {
        self.has(name) || self.as_slice().len() < MAX_ATTRIBUTES
    }

    /// Sets a name to a value, in its place or at the end.
    pub(crate) fn set(&mut self, name: Name, value: Bytes) -> Result<(), OutOfMemory>
        requires within { IsAttribute (name, value) }
        requires room { has_room name self.old ≡ true }
        ensures { OnOk result (self.new ≡ with_attribute name value self.old) }
    {
        match self.place(&name) {
            Some(place) => self.attributes[place] = (name, value),
            None => self.attributes.push((name, value))?,
        }
        Ok(())
    }

    /// Removes the attribute of a name, if there is one.
    pub(crate) fn remove(&mut self, name: &Name)
        ensures { self.new ≡ without_attribute name.now self.old }
    {
        if let Some(place) = self.place(name) {
            let _ = self.attributes.remove(place);
        }
    }
}
