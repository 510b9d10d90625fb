//! Whether texts are the same, in few instructions.

ghost use Rattle.std.specs.Prelude.{◌≡◌, ◌*◌, ◌≤◌, nat_eq, length, true, false};
ghost use Rattle.std.specs.List.{starts_with};
ghost use Rattle.std.specs.Option.{ForSome};
ghost use Rattle.std.specs.Str.{bytes_eq};

use common_types::Name;

/// Whether two texts of N bytes are the same: a comparison of words, since their length is known to the compiler.
#[inline(always)]
fn are_same_words<const N: usize>(left: &[u8], right: &[u8]) -> bool
    requires { N ≤ 8 }
    ensures { result ≡ bytes_eq left.now right.now }
{
    let Ok(left_word) = <[u8; N]>::try_from(left) else {
        return left == right;
    };
    let Ok(right_word) = <[u8; N]>::try_from(right) else {
        return left == right;
    };
    left_word == right_word
}

/// Whether two texts of the same length are the same. They have at least N bytes and at most twice as many, so that the
/// last N and the first N are all of them: two comparisons of words.
#[inline(always)]
fn are_same_at_both_ends<const N: usize>(left: &[u8], right: &[u8]) -> bool
    requires same_length { length left.now ≡ length right.now }
    requires word { N ≤ 8 }
    requires covered { (N ≤ length right.now) × (length right.now ≤ 2 * N) }
    ensures { result ≡ bytes_eq left.now right.now }
{
    let rest = right.len() - N;
    are_same_words::<N>(&left[rest..], &right[rest..])
        && are_same_words::<N>(&left[..N], &right[..N])
}

/// Whether two long or very short texts are the same. It is a call of its own, so that its callers stay small.
#[inline(never)]
fn full_are_same(left: &[u8], right: &[u8]) -> bool
    ensures { result ≡ bytes_eq left.now right.now }
{
    left == right
}

/// Whether two texts are the same, if two comparisons of words tell: they do where the texts differ in length, or have 2
/// to 16 bytes, as most names have.
#[inline(always)]
fn quick_are_same(left: &[u8], right: &[u8]) -> Option<bool>
    ensures { ForSome result (λ same. same ≡ bytes_eq left.now right.now) }
{
    let length = left.len();
    if length != right.len() {
        return Some(false);
    }
    if 4 <= length && length <= 8 {
        return Some(are_same_at_both_ends::<4>(left, right));
    }
    if 8 < length && length <= 16 {
        return Some(are_same_at_both_ends::<8>(left, right));
    }
    if 2 <= length && length < 4 {
        return Some(are_same_at_both_ends::<2>(left, right));
    }
    None
}

/// Whether two texts are the same.
#[inline(always)]
fn are_same(left: &[u8], right: &[u8]) -> bool
    ensures { result ≡ bytes_eq left.now right.now }
{
    match quick_are_same(left, right) {
        Some(same) => same,
        None => full_are_same(left, right),
    }
}

/// Whether a name is this text.
#[inline(always)]
pub fn is_text(name: &Name, text: &[u8]) -> bool
    ensures { result ≡ bytes_eq name.now text.now }
{
    are_same(name.as_str().as_bytes(), text)
}

/// Whether a name is this text, if two comparisons of words decide it.
#[inline(always)]
pub fn quick_is_text(name: &Name, text: &[u8]) -> Option<bool>
    ensures { ForSome result (λ same. same ≡ bytes_eq name.now text.now) }
{
    quick_are_same(name.as_str().as_bytes(), text)
}

/// Whether two texts differ in their length or in their last byte, as most names do that differ.
#[inline(always)]
fn end_differently(left: &[u8], right: &[u8]) -> bool
    ensures { result ≡ true → bytes_eq left.now right.now ≡ false }
{
    let length = left.len();
    length != right.len() || (length > 0 && left[length - 1] != right[length - 1])
}

/// Whether a name is this text, if its end or two comparisons of words decide it.
#[inline(always)]
pub fn quick_is_name(name: &Name, text: &[u8]) -> Option<bool>
    ensures { ForSome result (λ same. same ≡ bytes_eq name.now text.now) }
{
    let name = name.as_str().as_bytes();
    if end_differently(name, text) {
        return Some(false);
    }
    quick_are_same(name, text)
}

/// Whether a text begins with a prefix.
#[inline(always)]
pub fn begins_with(text: &[u8], prefix: &Name) -> bool
    ensures { result ≡ starts_with nat_eq text.now prefix.now }
{
    let prefix = prefix.as_str().as_bytes();
    prefix.len() <= text.len() && are_same(prefix, &text[..prefix.len()])
}

/// Whether a text begins with a prefix, if two comparisons of words decide it.
#[inline(always)]
pub fn quick_begins_with(text: &[u8], prefix: &Name) -> Option<bool>
    ensures { ForSome result (λ begins. begins ≡ starts_with nat_eq text.now prefix.now) }
{
    let prefix = prefix.as_str().as_bytes();
    if prefix.len() > text.len() {
        return Some(false);
    }
    quick_are_same(prefix, &text[..prefix.len()])
}
