//! Numbers that are the same for equal texts.

ghost use Rattle.std.specs.Prelude.{◌≡◌, ◌<◌, ◌≤◌, length};
ghost use Rattle.std.specs.Int.{w32, w64, from_le_bytes};
ghost use Rattle.verdict_core.specs.Hash as spec;

/// An odd number with many bits, by which words are multiplied.
const FACTOR: u64 = 11400714819323198485;

/// Its square, by which of names that are much alike fewer share a chain.
const SQUARE: u64 = 16088033396387240377;

/// A number made of two.
#[tactic(auto, unfolding(crate::specs::Hash::mix))]
#[inline(always)]
pub(crate) fn mix(first: u64, second: u64) -> u64
    ensures { result ≡ spec.mix first second }
{
    first.wrapping_mul(FACTOR).wrapping_add(second)
}

/// A number below 256 that is made of two.
#[tactic(auto, unfolding(crate::specs::Hash::folded, crate::specs::Hash::mix))]
#[inline(always)]
pub fn folded(first: u64, second: u64) -> usize
    ensures value { result ≡ spec.folded first second }
    ensures small { result < 256 }
{
    (mix(first, second).wrapping_mul(SQUARE) / 72057594037927936) as usize
}

/// The first byte of a text, the one in its middle and the last one.
#[tactic(auto, unfolding(crate::specs::Hash::few_bytes))]
#[inline(always)]
fn few_bytes(text: &[u8]) -> u64
    requires { 0 < length text.now }
    ensures { result ≡ spec.few_bytes text.now }
{
    let length = text.len();
    let front = u64::from(text[0]) * 65536 + u64::from(text[length / 2]) * 256;
    front + u64::from(text[length - 1])
}

/// Four bytes as a number.
#[inline(always)]
fn half_word(bytes: &[u8]) -> u64
    requires { length bytes.now ≡ 4 }
    ensures { result ≡ from_le_bytes w32 bytes.now }
{
    match <[u8; 4]>::try_from(bytes) {
        Ok(word) => u64::from(u32::from_le_bytes(word)),
        Err(_) => 0,
    }
}

/// Eight bytes as a number.
#[inline(always)]
fn word(bytes: &[u8]) -> u64
    requires { length bytes.now ≡ 8 }
    ensures { result ≡ from_le_bytes w64 bytes.now }
{
    match <[u8; 8]>::try_from(bytes) {
        Ok(word) => u64::from_le_bytes(word),
        Err(_) => 0,
    }
}

/// A text's first and last four bytes.
#[tactic(auto, unfolding(crate::specs::Hash::half_words))]
#[inline(always)]
fn half_words(text: &[u8]) -> u64
    requires { 4 ≤ length text.now }
    ensures { result ≡ spec.half_words text.now }
{
    let length = text.len();
    mix(half_word(&text[0..4]), half_word(&text[length - 4..length]))
}

/// A text's first and last eight bytes.
#[tactic(auto, unfolding(crate::specs::Hash::words))]
#[inline(always)]
fn words(text: &[u8]) -> u64
    requires { 8 ≤ length text.now }
    ensures { result ≡ spec.words text.now }
{
    let length = text.len();
    mix(word(&text[0..8]), word(&text[length - 8..length]))
}

/// A longer text's first and last eight bytes, and the eight in its middle.
#[tactic(auto, unfolding(crate::specs::Hash::with_middle))]
#[inline(always)]
fn with_middle(text: &[u8]) -> u64
    requires { 16 ≤ length text.now }
    ensures { result ≡ spec.with_middle text.now }
{
    let middle = text.len() / 2;
    mix(words(text), word(&text[middle - 4..middle + 4]))
}

/// A number of a text that is not very short: of most names it takes two words.
#[tactic(auto, unfolding(crate::specs::Hash::long_hash))]
#[inline(always)]
fn long_hash(text: &[u8]) -> u64
    requires { 4 ≤ length text.now }
    ensures { result ≡ spec.long_hash text.now }
{
    let length = text.len();
    if length < 8 {
        half_words(text)
    } else if length <= 16 {
        words(text)
    } else {
        with_middle(text)
    }
}

/// A number that is the same for equal texts. It calls nothing.
#[tactic(auto, unfolding(crate::specs::Hash::hash))]
#[inline(always)]
pub fn hash(text: &[u8]) -> u64
    ensures { result ≡ spec.hash text.now }
{
    let length = text.len();
    if length >= 4 {
        long_hash(text)
    } else if length == 0 {
        0
    } else {
        few_bytes(text)
    }
}
