//! Counts without a limit.

ghost use Rattle.std.specs.Prelude.{◌≡◌, ◌+◌, ◌<◌, ◌++◌, ◌∷◌, [], OnOk, OnErr, string_bytes};
ghost use Rattle.std.specs.List.{list_all};
ghost use Rattle.script_text.specs.Text.{numeral};
ghost use Rattle.script_text.specs.Inside.{is_nine, with_room, one_more, digits_text, AreDigits};

use std::alloc::{AllocError, Global};
use std::marker::Model;

/// How often something happened, without a limit (this project's profile).
///
/// Contracts see the number. It takes memory where it gets one more decimal digit, and nowhere else.
#[derive(Drop)]
pub struct Count {
    /// Its decimal digits, the lowest first, without zeros behind the highest. 0 has none.
    digits: Vec<u8>,
}

impl Model for Count {
    ghost use Rattle.std.specs.Prelude.{ℕ};
    ghost use Rattle.script_text.specs.Inside.{count_of, IsCount};

    ghost Value = { ℕ };

    ghost view = { λ c. count_of c.digits.items };

    ghost invariant = { λ c. IsCount c.digits.items };
}

fn are_nines(digits: &[u8]) -> bool
    ensures { result ≡ list_all is_nine digits.now }
{
    digits.iter().all(|digit| *digit == 9)
}

/// Adds a digit where all are nines.
fn make_room(digits: &mut Vec<u8>) -> Result<(), AllocError>
    ensures room { OnOk result (digits.new.items ≡ with_room digits.old.items) }
    ensures unchanged { OnErr result (digits.new.items ≡ digits.old.items) }
{
    if are_nines(digits.as_slice()) {
        digits.push(0)?;
    }
    Ok(())
}

/// Adds one to digits, the lowest first: the nines in front become zeros, and the next digit is one more.
fn carry(digits: &mut [u8])
    ensures { digits.new ≡ one_more digits.old }
{
    for digit in digits.iter_mut() {
        if *digit < 9 {
            *digit += 1;
            return;
        }
        *digit = 0;
    }
}

fn raise(digits: &mut Vec<u8>)
    ensures { digits.new.items ≡ one_more digits.old.items }
{
    carry(digits);
}

impl Count {
    /// Zero.
    pub fn new(alloc: Global) -> Count
        ensures { result ≡ 0 }
    {
        Count {
            digits: Vec::new(alloc),
        }
    }

    /// Adds one.
    ///
    /// Only where all digits are nines it takes memory, for one digit more. Where memory runs out it is as it was.
    pub fn add_one(&mut self) -> Result<(), AllocError>
        ensures added { OnOk result (self.new ≡ self.old + 1) }
        ensures unchanged { OnErr result (self.new ≡ self.old) }
    {
        make_room(&mut self.digits)?;
        raise(&mut self.digits);
        Ok(())
    }
}

/// Adds a digit to a text.
fn push_digit(text: &mut String, digit: u8) -> Result<(), AllocError>
    requires { digit < 10 }
    ensures { OnOk result (string_bytes text.new ≡ string_bytes text.old ++ (48 + digit) ∷ []) }
{
    text.push(char::from(b'0' + digit))
}

/// Adds digits to a text, the last first.
fn push_digits(text: &mut String, digits: &[u8]) -> Result<(), AllocError>
    requires { AreDigits digits.now }
    ensures { OnOk result (string_bytes text.new ≡ string_bytes text.old ++ digits_text digits.now) }
{
    let mut left = digits.len();
    while left > 0 {
        left -= 1;
        push_digit(text, digits[left])?;
    }
    Ok(())
}

/// Adds a count in decimal digits.
///
/// Where memory runs out, a beginning of it may have been added.
pub fn push_count(text: &mut String, count: &Count) -> Result<(), AllocError>
    ensures { OnOk result (string_bytes text.new ≡ string_bytes text.old ++ numeral count.now) }
{
    if count.digits.is_empty() {
        return text.push_str("0");
    }
    push_digits(text, count.digits.as_slice())
}
