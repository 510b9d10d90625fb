//! The hash FNV-1a of 32 bits, and what it ranks by.
//!
//! Source of the hash: Fowler, Noll and Vo, "The FNV Non-Cryptographic Hash Algorithm".

ghost use Rattle.std.specs.Prelude.{◌≡◌, ◌≤◌, ◌<◌, ℕ, fold, length, slice_index};
ghost use Rattle.std.specs.Fmt.{decimal};
ghost use Rattle.place_core.specs.Placement as spec;
ghost use Rattle.place_core.specs.Placement.{fnv, fnv_step, rank_of};

const START: u32 = 2166136261;

const PRIME: u32 = 16777619;

// The hash goes on over these bytes.
fn hash_on(start: u32, bytes: &[u8]) -> u32
    ensures { result ≡ fold fnv_step start bytes.now }
{
    let mut hash = start;
    for byte in bytes {
        hash = (hash ^ u32::from(*byte)).wrapping_mul(PRIME);
    }
    hash
}

// The hash goes on over a number's decimal digits.
fn hash_decimal(start: u32, number: u32) -> u32
    ensures { result ≡ fold fnv_step start (decimal number) }
{
    if number < 10 {
        return hash_on(start, &[b'0' + number as u8]);
    }
    let front = hash_decimal(start, number / 10);
    hash_on(front, &[b'0' + (number % 10) as u8])
}

/// FNV-1a of 32 bits over some bytes. It takes no memory.
pub fn hash(bytes: &[u8]) -> u32
    ensures { result ≡ fnv bytes.now }
{
    hash_on(START, bytes)
}

/// The group of an object in a pool of `pg_num` groups, which are numbered from 0. It takes no memory.
///
/// It is FNV-1a over the namespace, byte 31 and the name, modulo `pg_num`.
pub fn group_of(namespace: &str, name: &str, pg_num: u32) -> u32
    requires { 1 ≤ pg_num }
    ensures { result ≡ spec.group_of namespace.now name.now pg_num }
{
    let front = hash_on(START, namespace.as_bytes());
    let front = hash_on(front, &[31]);
    hash_on(front, name.as_bytes()) % pg_num
}

// The values by which a group ranks the daemons 0 to 15, each at its number.
pub(crate) fn rank_values(pool: &str, group: u32) -> [u32; 16]
    ensures long { length result ≡ 16 }
    ensures values { (d : ℕ) → d < 16 → slice_index result d ≡ rank_of pool.now group d }
{
    let named = hash_on(START, pool.as_bytes());
    let grouped = hash_decimal(hash_on(named, b"."), group);
    let front = hash_on(grouped, b".");
    let mut values = [0; 16];
    for daemon in 0..16 {
        values[daemon] = hash_decimal(front, daemon as u32);
    }
    values
}
