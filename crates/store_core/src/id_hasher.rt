//! How ids are hashed.

ghost use Rattle.std.specs.Prelude.{◌≡◌, ◌+◌, ◌≤◌, length};
ghost use Rattle.store_core.specs.IdHash as spec;

use std::hash::{BuildHasherDefault, Hasher};

/// Hashes ids for tables that are looked up by id: `HashMap::with_hasher(alloc, IdHash::new())`.
pub type IdHash = BuildHasherDefault<IdHasher>;

/// Hashes an id so that requests with consecutive numbers stand side by side in a table.
///
/// A client numbers its requests in order, so a table that grows by them is written and read in order, as a list is, and
/// not all over its memory. Sessions are moved apart by a product. Whoever chose sessions or numbers could make ids
/// collide: here both are counted by the gate itself, from 1. It hashes ids alone, which are written as eight bytes;
/// whatever else is written is hashed alike.
#[derive(Clone, Copy, Debug)]
pub struct IdHasher {
    hash: u32,
}

impl Default for IdHasher {
    ghost is_default = { λ h. h.hash ≡ 0 };

    fn default() -> IdHasher {
        IdHasher { hash: 0 }
    }
}

/// Four bytes as one number, the lowest first.
fn read_u32(bytes: &[u8], at: usize) -> u32
    requires { at + 4 ≤ length bytes.now }
    ensures { result ≡ spec.read_u32 bytes.now at }
{
    u32::from_le_bytes([bytes[at], bytes[at + 1], bytes[at + 2], bytes[at + 3]])
}

/// The hash of a session's request. A table finds the group of an entry by the low bits, and tells the entries of a group
/// apart by the top eight, which hang on all bits of the number.
fn hash_of(session: u32, number: u32) -> u32
    ensures { result ≡ spec.hash_of session number }
{
    let moved = number.wrapping_add(session.wrapping_mul(0x9E37_79B1));
    let mixed = moved.wrapping_mul(0x85EB_CA6B);
    (moved & 0x00FF_FFFF) | (mixed & 0xFF00_0000)
}

impl Hasher for IdHasher {
    ghost write = { spec.write };

    ghost finish = { λ h. h.hash };

    fn finish(&self) -> u64 {
        u64::from(self.hash)
    }

    fn write(&mut self, bytes: &[u8]) {
        if bytes.len() == 8 {
            self.hash = hash_of(read_u32(bytes, 4), read_u32(bytes, 0));
        }
    }
}
