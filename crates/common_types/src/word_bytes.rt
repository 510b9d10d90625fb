//! The bytes that words are made of.

ghost use Rattle.std.specs.Prelude.{◌≡◌};
ghost use Rattle.std.specs.List.{list_all};
ghost use Rattle.common_types.specs.WordBytes.{is_word_byte};

/// Whether this is a byte of words: a letter, a digit, `-`, `.`, `/` or `_`.
pub fn is_word_byte(byte: u8) -> bool
    ensures { result ≡ is_word_byte byte }
{
    (b'a' <= byte && byte <= b'z')
        || (b'A' <= byte && byte <= b'Z')
        || (b'-' <= byte && byte <= b'9')
        || byte == b'_'
}

/// Whether these are bytes of words: letters, digits, `-`, `.`, `/` and `_`.
pub fn are_word_bytes(bytes: &[u8]) -> bool
    ensures { result ≡ list_all is_word_byte bytes.now }
{
    bytes.iter().all(|byte| is_word_byte(*byte))
}
