//! Lists of values that can be copied.

ghost use Rattle.std.specs.Prelude.{◌≡◌, ◌++◌, [], ◌∷◌, length, take, IfOk, OnOk, OnErr};

use crate::name::Name;
use std::alloc::{AllocError, Global};
use std::marker::Model;

/// Values that can be copied where there is memory.
pub trait TryClone {
    /// An equal value. The only error is out of memory.
    fn copy(&self) -> Result<Self, AllocError>
    where
        Self: Sized,
        ensures { IfOk result (λ it. it ≡ self.now) };
}

impl TryClone for u8 {
    fn copy(&self) -> Result<u8, AllocError> {
        Ok(*self)
    }
}

impl TryClone for u64 {
    fn copy(&self) -> Result<u64, AllocError> {
        Ok(*self)
    }
}

impl TryClone for Name {
    fn copy(&self) -> Result<Name, AllocError> {
        Name::copy(self)
    }
}

impl TryClone for (Name, Name) {
    fn copy(&self) -> Result<(Name, Name), AllocError> {
        Ok((self.0.copy()?, self.1.copy()?))
    }
}

/// A growing list, which contracts see as the list of its items.
#[derive(Debug, Drop)]
pub struct Items<T> {
    items: Vec<T>,
}

impl<T> Model for Items<T> {
    ghost use Rattle.std.specs.Prelude.{List};

    ghost Value = { List T };

    ghost view = { λ a. a.items.items };
}

impl<T> Items<T> {
    /// No items. It takes no memory.
    pub fn new(alloc: Global) -> Self
        ensures { result ≡ [] }
    {
        Items {
            items: Vec::new(alloc),
        }
    }

    /// These items. It takes no memory.
    pub fn from_vec(items: Vec<T>) -> Self
        ensures { result ≡ items.items }
    {
        Items { items }
    }

    /// What it takes its memory from.
    pub fn allocator(&self) -> Global {
        *self.items.allocator()
    }

    /// The items, in a vector. It takes no memory.
    pub fn into_vec(self) -> Vec<T>
        ensures { result.items ≡ self }
    {
        self.items
    }

    /// How many items there are.
    pub fn len(&self) -> usize
        ensures { result ≡ length self.now }
    {
        self.items.len()
    }

    /// The items in order.
    pub fn as_slice(&self) -> &[T]
        ensures { result.now ≡ self.now }
    {
        self.items.as_slice()
    }

    /// Adds an item at the end. Out of memory leaves the items unchanged.
    pub fn push(&mut self, x: T) -> Result<(), AllocError>
    where
        T: Drop,
        ensures ok { OnOk result (self.new ≡ self.old ++ x ∷ []) }
        ensures err { OnErr result (self.new ≡ self.old) }
    {
        self.items.push(x)?;
        Ok(())
    }
}

impl<T: Drop> Items<T> {
    /// Keeps the first n, or all where there are fewer.
    pub fn truncate(&mut self, n: usize)
        ensures { self.new ≡ take n self.old }
    {
        self.items.truncate(n);
    }
}

impl<T: TryClone + Drop> TryClone for Items<T> {
    fn copy(&self) -> Result<Items<T>, AllocError> {
        let mut all = Vec::with_capacity(*self.items.allocator(), self.items.len())?;
        for x in self.items.as_slice() {
            all.push(x.copy()?)?;
        }
        Ok(Items { items: all })
    }
}
