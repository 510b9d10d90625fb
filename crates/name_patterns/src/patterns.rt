//! Patterns of names, in which `*` stands for any bytes.

ghost use Rattle.std.specs.Prelude.{◌≡◌, ◌∷◌};
ghost use Rattle.std.specs.List.{list_any};
ghost use Rattle.name_patterns.specs.Patterns as spec;

/// Whether some end of a name, which may be all of it, matches a pattern.
///
/// It keeps the newest star alone: if the name fits the pattern behind a star, it also does so from the first position where the
/// part up to the next star fits. So time grows with the product of the two lengths.
fn has_end(pattern: &[u8], name: &[u8]) -> bool
    ensures { result ≡ spec.fits (42 ∷ pattern.now) name.now }
{
    let mut behind_star = pattern;
    let mut tried = name;
    let mut rest = pattern;
    let mut text = name;
    loop {
        if let Some((first, behind)) = rest.split_first() {
            if *first == b'*' {
                behind_star = behind;
                tried = text;
                rest = behind;
                continue;
            }
            if let Some((byte, others)) = text.split_first() {
                if *first == *byte {
                    rest = behind;
                    text = others;
                    continue;
                }
            }
        } else if text.is_empty() {
            return true;
        }
        let Some((_, later)) = tried.split_first() else {
            return false;
        };
        tried = later;
        text = later;
        rest = behind_star;
    }
}

/// Whether a name matches a pattern: as a whole, where each `*` stands for any bytes, also none.
pub fn matches(pattern: &str, name: &str) -> bool
    ensures { result ≡ spec.fits pattern.now name.now }
{
    let mut rest = pattern.as_bytes();
    let mut text = name.as_bytes();
    while let Some((first, behind)) = rest.split_first() {
        if *first == b'*' {
            return has_end(behind, text);
        }
        let Some((byte, others)) = text.split_first() else {
            return false;
        };
        if *first != *byte {
            return false;
        }
        rest = behind;
        text = others;
    }
    text.is_empty()
}

/// Whether a name matches one of some patterns.
pub fn matches_any(patterns: &[&str], name: &str) -> bool
    ensures { result ≡ list_any (λ pattern. spec.fits pattern.now name.now) patterns.now }
{
    patterns.iter().any(|pattern| matches(pattern, name))
}
