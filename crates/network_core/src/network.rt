//! Networks.

ghost use Rattle.std.specs.Prelude.{◌≡◌, ℕ, ◌<◌, ◌≤◌, ◌+◌, ◌*◌, ◌-◌, ◌/◌, ◌^◌, MatchOption, length, slice_index, min};
ghost use Rattle.std.specs.Char.{digit_value};
ghost use Rattle.std.specs.Str.Parse.{IsNumeral, digits_value};
ghost use Rattle.network_core.specs.Network as spec;

use crate::address::Address;

/// The addresses that a grant is for.
#[derive(Clone, Copy, Debug, PartialEq, Eq)]
pub enum Network {
    /// No address at all.
    Never,
    /// The addresses of this one's family that have the same first bits as it, as many as the number says.
    Range(Address, u8),
}

/// The place of the last slash of a text.
fn last_slash(text: &[u8]) -> Option<usize>
    ensures { MatchOption result ((k : ℕ) → k < length text.now → slice_index text.now k ≡ 47 → ⊥) (λ i. (i < length text.now) × (slice_index text.now i ≡ 47) × ((k : ℕ) → i < k → k < length text.now → slice_index text.now k ≡ 47 → ⊥)) }
{
    let mut behind = text.len();
    while behind > 0 {
        if text[behind - 1] == b'/' {
            return Some(behind - 1);
        }
        behind -= 1;
    }
    None
}

/// The value of a decimal digit.
fn read_digit(byte: u8) -> Option<u8>
    ensures { MatchOption result (10 ≤ digit_value byte) (λ d. (digit_value byte < 10) × (d ≡ digit_value byte)) }
{
    let digit = char::from(byte).to_digit(10)?;
    Some(digit as u8)
}

/// The number that decimal digits write, or 2^63 - 1 where it is more. `None` for what is no number.
fn read_number(digits: &[u8]) -> Option<u64>
    ensures { MatchOption result (¬ (IsNumeral 10 digits.now)) (λ n. IsNumeral 10 digits.now × (n ≡ min 9223372036854775807 (digits_value 10 digits.now))) }
{
    if digits.is_empty() {
        return None;
    }
    let mut number: u64 = 0;
    for byte in digits {
        let Some(digit) = read_digit(*byte) else {
            return None;
        };
        let more = u128::from(number) * 10 + u128::from(digit);
        number = more.min(9_223_372_036_854_775_807) as u64;
    }
    Some(number)
}

/// The length that decimal digits write, or 128 where it is more: Ceph keeps 32 bits of the number. `None` for what is no number.
fn read_length(digits: &[u8]) -> Option<u8>
    ensures { MatchOption result (¬ (IsNumeral 10 digits.now)) (λ n. IsNumeral 10 digits.now × (n ≡ min 128 (spec.length_value digits.now))) }
{
    let number = read_number(digits)?;
    Some((number % 4_294_967_296).min(128) as u8)
}

/// The first bits of an address, as a number.
fn first_bits(length: u8, address: &Address) -> u128
    ensures { result ≡ spec.first_bits length address.now }
{
    let number = address.number();
    let behind = address.width().saturating_sub(length);
    if behind == 128 {
        return 0;
    }
    number >> behind
}

fn is_same_family(a: &Address, b: &Address) -> bool
    ensures { result ≡ spec.is_same_family a.now b.now }
{
    match (a, b) {
        (Address::V4(_), Address::V4(_)) => true,
        (Address::V6(_), Address::V6(_)) => true,
        _ => false,
    }
}

impl Network {
    /// Reads `ADDRESS/LENGTH` as Ceph does. The address may have bits behind the length, which count for nothing. A length
    /// above the width of the family (32 or 128) is the width. Ceph keeps the last 32 bits of a length, so that 4,294,967,304 is
    /// 8, and takes a length above 2^63 - 1 as that. Every other text is a network that never matches.
    pub fn parse(text: &[u8]) -> Network
        ensures { spec.IsReading text.now result }
    {
        let Some(slash) = last_slash(text) else {
            return Network::Never;
        };
        let Some(length) = read_length(&text[slash + 1..]) else {
            return Network::Never;
        };
        let Some(address) = Address::parse(&text[..slash]) else {
            return Network::Never;
        };
        Network::Range(address, length.min(address.width()))
    }

    /// Whether it matches an address: both are of one family, and have the same first bits.
    pub fn matches(&self, address: &Address) -> bool
        ensures { result ≡ spec.matches self.now address.now }
    {
        match self {
            Network::Never => false,
            Network::Range(base, length) => {
                is_same_family(base, address)
                    && first_bits(*length, base) == first_bits(*length, address)
            }
        }
    }

    /// Whether its text is that of no network, so that it never matches.
    pub fn is_never(&self) -> bool
        ensures { result ≡ spec.is_never self.now }
    {
        matches!(self, Network::Never)
    }
}
