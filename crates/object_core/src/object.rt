//! Objects.

ghost use Rattle.std.specs.Prelude.{◌≡◌, ◌≤◌, IfOk, length};
ghost use Rattle.object_core.specs.Content.{Content, empty};

use crate::attributes::Attributes;
use crate::bytes::Bytes;
use common_types::{OutOfMemory, TryClone};
use std::alloc::Global;
use std::marker::Model;

/// How many bytes an object has at most.
pub(crate) const MAX_BYTES: usize = 65536;

/// An object: at most 65,536 bytes, and its attributes.
#[derive(Debug)]
pub struct Object {
    bytes: Bytes,
    attributes: Attributes,
}

impl Drop for Object {
    fn drop(self) {
        let Object {
            bytes: _,
            attributes: _,
        } = self;
    }
}

impl Model for Object {
    ghost use Rattle.std.specs.Prelude.{◌≤◌, length};
    ghost use Rattle.object_core.specs.Content.{Content};

    ghost Value = { Content };

    ghost view = { λ o. record { bytes = o.bytes; attributes = o.attributes } };

    ghost invariant = { λ o. length o.bytes ≤ 65536 };
}

impl Object {
    /// An object without bytes and attributes. It takes no memory.
    pub fn empty(alloc: Global) -> Object
        ensures { result ≡ empty }
    {
        Object {
            bytes: Bytes::new(alloc),
            attributes: Attributes::new(alloc),
        }
    }

    /// The object of these bytes and attributes. It takes no memory.
    pub fn new(bytes: Bytes, attributes: Attributes) -> Object
        requires { length bytes ≤ 65536 }
        ensures { result ≡ record { bytes = bytes; attributes = attributes } }
    {
        Object { bytes, attributes }
    }

    /// Its bytes.
    pub fn bytes(&self) -> &Bytes
        ensures value { result.now ≡ self.now.bytes }
        ensures limit { length self.now.bytes ≤ 65536 }
    {
        &self.bytes
    }

    /// Its attributes.
    pub fn attributes(&self) -> &Attributes
        ensures { result.now ≡ self.now.attributes }
    {
        &self.attributes
    }

    /// Its bytes and attributes, for good. It takes no memory.
    pub fn into_parts(self) -> (Bytes, Attributes)
        ensures bytes { result.0 ≡ self.bytes }
        ensures attributes { result.1 ≡ self.attributes }
        ensures limit { length self.bytes ≤ 65536 }
    {
        let Object { bytes, attributes } = self;
        (bytes, attributes)
    }

    /// An equal object.
    pub fn copy(&self) -> Result<Object, OutOfMemory>
        ensures { IfOk result (λ object. object ≡ self.now) }
    {
        Ok(Object {
            bytes: self.bytes.copy()?,
            attributes: self.attributes.copy()?,
        })
    }
}
