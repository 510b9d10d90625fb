//! Runs of bytes and words at the front of a text.

ghost use Rattle.std.specs.Prelude.{◌≡◌, ◌<◌, ◌∷◌, [], Some, take, drop};
ghost use Rattle.std.specs.Str.{IsCharBoundary};
ghost use Rattle.std.specs.List.{prefix_len};
ghost use Rattle.ceph_text.specs.Readers.{word, many, some};
ghost use Rattle.ceph_text.specs.Grammar.{is_space, is_blank, is_inside, is_network_byte, space};
ghost use Rattle.common_types.specs.WordBytes.{is_word_byte};
ghost use Rattle.ceph_text.specs.Pieces.{Reads};

use common_types::is_word_byte;

fn is_space(byte: u8) -> bool
    ensures { result ≡ is_space byte }
{
    (9 <= byte && byte <= 13) || byte == b' '
}

fn is_blank(byte: u8) -> bool
    ensures { result ≡ is_blank byte }
{
    byte == b'\t' || byte == b' '
}

fn is_inside(quote: u8, byte: u8) -> bool
    ensures { result ≡ is_inside quote byte }
{
    !(byte == quote || byte == 0)
}

fn is_network_byte(byte: u8) -> bool
    ensures { result ≡ is_network_byte byte }
{
    (b'.' <= byte && byte <= b':')
        || (b'A' <= byte && byte <= b'F')
        || (b'a' <= byte && byte <= b'f')
        || byte == b'['
        || byte == b']'
}

fn spaces_len(bytes: &[u8]) -> usize
    ensures { result ≡ prefix_len is_space bytes.now }
{
    bytes.iter().take_while(|b| is_space(**b)).count()
}

fn blanks_len(bytes: &[u8]) -> usize
    ensures { result ≡ prefix_len is_blank bytes.now }
{
    bytes.iter().take_while(|b| is_blank(**b)).count()
}

fn word_len(bytes: &[u8]) -> usize
    ensures { result ≡ prefix_len is_word_byte bytes.now }
{
    bytes.iter().take_while(|b| is_word_byte(**b)).count()
}

fn network_len(bytes: &[u8]) -> usize
    ensures { result ≡ prefix_len is_network_byte bytes.now }
{
    bytes.iter().take_while(|b| is_network_byte(**b)).count()
}

fn inside_len(quote: u8, bytes: &[u8]) -> usize
    ensures { result ≡ prefix_len (is_inside quote) bytes.now }
{
    bytes.iter().take_while(|b| is_inside(quote, **b)).count()
}

/// `S*`
pub(crate) fn spaces(text: &str) -> &str
    ensures { result.now ≡ drop (prefix_len is_space text.now) text.now }
{
    text.split_at(spaces_len(text.as_bytes())).1
}

/// `S+`
pub(crate) fn space(text: &str) -> Option<&str>
    ensures { Reads (λ rest. (take (prefix_len is_space text.now) text.now, rest.now)) result (space text.now) }
{
    let len = spaces_len(text.as_bytes());
    if len == 0 {
        return None;
    }
    Some(text.split_at(len).1)
}

/// `B*`
pub(crate) fn blanks(text: &str) -> &str
    ensures { result.now ≡ drop (prefix_len is_blank text.now) text.now }
{
    text.split_at(blanks_len(text.as_bytes())).1
}

/// These bytes.
pub(crate) fn word<'a>(text: &'a str, bytes: &str) -> Option<&'a str>
    ensures { Reads (λ rest. (tt, rest.now)) result (word bytes.now text.now) }
{
    if text.starts_with(bytes) {
        Some(text.split_at(bytes.len()).1)
    } else {
        None
    }
}

/// As many bytes of a network as there are, at least one.
pub(crate) fn network_bytes(text: &str) -> Option<(&str, &str)>
    ensures { Reads (λ r. (r.0.now, r.1.now)) result (some is_network_byte text.now) }
{
    let len = network_len(text.as_bytes());
    if len == 0 {
        return None;
    }
    Some(text.split_at(len))
}

pub(crate) fn bare(text: &str) -> Option<(&str, &str)>
    ensures { Reads (λ r. (r.0.now, r.1.now)) result (some is_word_byte text.now) }
{
    let len = word_len(text.as_bytes());
    if len == 0 {
        return None;
    }
    Some(text.split_at(len))
}

pub(crate) fn inside(text: &str, quote: u8) -> (&str, &str)
    requires { quote < 128 }
    ensures { many (is_inside quote) text.now ≡ Some (result.0.now, result.1.now) }
{
    text.split_at(inside_len(quote, text.as_bytes()))
}
