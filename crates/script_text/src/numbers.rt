//! Numbers as words.

ghost use Rattle.std.specs.Prelude.{◌≡◌};
ghost use Rattle.std.specs.Str.{all_ascii_digits};
ghost use Rattle.script_text.specs.Numbers as spec;

/// The most digits that a number may have.
const MAX_DIGITS: usize = 10;

fn are_digits(word: &[u8]) -> bool
    ensures { result ≡ all_ascii_digits word.now }
{
    for byte in word {
        if !byte.is_ascii_digit() {
            return false;
        }
    }
    true
}

/// The number that a word is: 1 to 10 decimal digits, at most 4,294,967,295. Leading zeros are allowed.
pub fn number_of(word: &str) -> Option<u32>
    ensures { result ≡ spec.number_of word.now }
{
    if word.len() > MAX_DIGITS || !are_digits(word.as_bytes()) {
        return None;
    }
    word.parse::<u32>().ok()
}

/// The two numbers that a word is with a dot between them, as a session and a number in it.
pub fn pair_of(word: &str) -> Option<(u32, u32)>
    ensures { result ≡ spec.pair_of word.now }
{
    let (first, second) = word.split_once('.')?;
    let first = number_of(first)?;
    let second = number_of(second)?;
    Some((first, second))
}
