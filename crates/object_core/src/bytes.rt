//! Contents: bytes of any value, which need not be text.

ghost use Rattle.std.specs.Prelude.{◌≡◌, ◌+◌, ◌≤◌, ◌++◌, [], IfOk, OnOk, length, take, drop};
ghost use Rattle.object_core.specs.Bytes.{part_of, resized, overwritten};

use common_types::{OutOfMemory, TryClone};
use std::alloc::Global;
use std::marker::Model;

/// The bytes of an object, an attribute, an input or an output, which contracts see as the list of them.
#[derive(Debug, Drop)]
pub struct Bytes {
    bytes: Vec<u8>,
}

impl Model for Bytes {
    ghost use Rattle.std.specs.Prelude.{List, ℕ};

    ghost Value = { List ℕ };

    ghost view = { λ b. b.bytes.items };
}

impl Bytes {
    /// No bytes. It takes no memory.
    pub fn new(alloc: Global) -> Bytes
        ensures { result ≡ [] }
    {
        Bytes {
            bytes: Vec::new(alloc),
        }
    }

    /// These bytes. It takes no memory.
    pub fn from_vec(bytes: Vec<u8>) -> Bytes
        ensures { result ≡ bytes.items }
    {
        Bytes { bytes }
    }

    /// A copy of these bytes.
    pub fn from_slice(alloc: Global, bytes: &[u8]) -> Result<Bytes, OutOfMemory>
        ensures { IfOk result (λ copy. copy ≡ bytes.now) }
    {
        Ok(Bytes {
            bytes: Vec::from_slice(alloc, bytes)?,
        })
    }

    /// The bytes, in a vector. It takes no memory.
    pub fn into_vec(self) -> Vec<u8>
        ensures { result.items ≡ self }
    {
        let Bytes { bytes } = self;
        bytes
    }

    /// The bytes.
    pub fn as_slice(&self) -> &[u8]
        ensures { result.now ≡ self.now }
    {
        self.bytes.as_slice()
    }

    /// How many there are.
    pub(crate) fn len(&self) -> usize
        ensures { result ≡ length self.now }
    {
        self.as_slice().len()
    }

    /// A copy of the bytes from `offset` on, at most `count`; of all of them where `count` is 0.
    pub(crate) fn part(
        &self,
        alloc: Global,
        offset: usize,
        count: usize,
    ) -> Result<Bytes, OutOfMemory>
        ensures { IfOk result (λ part. part ≡ part_of self.now offset count) }
    {
        let bytes = self.as_slice();
        let start = offset.min(bytes.len());
        let rest = &bytes[start..];
        if count == 0 {
            return Bytes::from_slice(alloc, rest);
        }
        let end = count.min(rest.len());
        Bytes::from_slice(alloc, &rest[..end])
    }

    /// Adds bytes at the end.
    pub(crate) fn append(&mut self, more: &Bytes) -> Result<(), OutOfMemory>
        ensures { OnOk result (self.new ≡ self.old ++ more.now) }
    {
        self.bytes.extend_from_slice(more.as_slice())
    }

    /// Cuts the bytes to `size`, or extends them to it by zeros.
    pub(crate) fn resize(&mut self, size: usize) -> Result<(), OutOfMemory>
        ensures { OnOk result (self.new ≡ resized size self.old) }
    {
        self.bytes.resize(size, 0)
    }

    /// Lays bytes over the old ones from a place on, after zeros where there were too few.
    pub(crate) fn overwrite(&mut self, offset: usize, more: &Bytes) -> Result<(), OutOfMemory>
        requires { offset + length more.now ≤ 65536 }
        ensures { OnOk result (self.new ≡ overwritten self.old offset more.now) }
    {
        let size = self.bytes.len().max(offset + more.len());
        self.bytes.resize(size, 0)?;
        lay(&mut self.bytes, offset, more.as_slice());
        Ok(())
    }
}

/// Lays bytes over a part of others.
fn lay(bytes: &mut [u8], offset: usize, more: &[u8])
    requires { offset + length more.now ≤ length bytes.old }
    ensures { bytes.new ≡ take offset bytes.old ++ more.now ++ drop (offset + length more.now) bytes.old }
{
    let end = offset + more.len();
    bytes[offset..end].copy_from_slice(more);
}

impl TryClone for Bytes {
    fn copy(&self) -> Result<Bytes, OutOfMemory> {
        Bytes::from_slice(*self.bytes.allocator(), self.as_slice())
    }
}
