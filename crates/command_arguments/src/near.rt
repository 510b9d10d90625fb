//! Words that were meant in place of others.

/// How many bytes two texts begin with alike, in any case.
fn common_front(first: &[u8], second: &[u8]) -> usize {
    first
        .iter()
        .zip(second)
        .take_while(|(one, other)| one.eq_ignore_ascii_case(*other))
        .count()
}

/// How many bytes two texts end with alike, in any case.
fn common_end(first: &[u8], second: &[u8]) -> usize {
    first
        .iter()
        .rev()
        .zip(second.iter().rev())
        .take_while(|(one, other)| one.eq_ignore_ascii_case(*other))
        .count()
}

/// What is left of a text without its first `front` bytes and its last `end` bytes.
fn middle(text: &[u8], front: usize, end: usize) -> &[u8] {
    let rest = text.get(front..).unwrap_or(&[]);
    rest.get(..rest.len().saturating_sub(end)).unwrap_or(&[])
}

/// Whether one word is the other except for its case and at most one slip: a letter too many, too few or another one,
/// or two letters swapped.
fn is_near(first: &str, second: &str) -> bool {
    let (first, second) = (first.as_bytes(), second.as_bytes());
    let front = common_front(first, second);
    let end = common_end(middle(first, front, 0), middle(second, front, 0));
    match (middle(first, front, end), middle(second, front, end)) {
        ([] | [_], [] | [_]) => true,
        ([one, two], [other_one, other_two]) => one == other_two && two == other_one,
        _ => false,
    }
}

/// The word of these that another one was meant to be, if one is near it. A single letter is near nothing.
pub fn nearest(word: &str, known: &[&'static str]) -> Option<&'static str> {
    if word.len() < 2 {
        return None;
    }
    for other in known {
        if is_near(word, other) {
            return Some(*other);
        }
    }
    None
}
