//! Lines, words, numbers and printed texts.

use crate::expecting::{expect_so, expect_text};
use script_text::{
    Lines, ScriptFault, Words, number_of, pair_of, push_item, push_number, push_quoted,
};
use std::alloc::{AllocError, Global};

/// The lines of a script with their numbers, and `-` behind the number of a blank one.
fn numbered(alloc: Global, script: &[u8]) -> Result<String, AllocError> {
    let mut shown = String::new(alloc);
    let mut lines = Lines::new(script);
    for _ in 0..=script.len() {
        let Some(line) = lines.next_line() else {
            return Ok(shown);
        };
        push_number(&mut shown, line.number as u64)?;
        if line.is_blank() {
            shown.push_str("-")?;
        }
        push_quoted(&mut shown, line.text)?;
    }
    Ok(shown)
}

const LINES: &[(&[u8], &str); 10] = &[
    (b"", ""),
    (b"a", "1\"a\""),
    (b"a\n", "1\"a\""),
    (b"\n\n", "1-\"\"2-\"\""),
    (b"a\n\nb", "1\"a\"2-\"\"3\"b\""),
    (b"a\r\nb\r", "1\"a\"2\"b\""),
    (b"a\r\r\n", "1\"a\\x0d\""),
    (b"\r\n\r", "1-\"\"2-\"\""),
    (b"a\rb\n", "1\"a\\x0db\""),
    (b"# \xff '\n #\n", "1-\"# \\xff '\"2\" #\""),
];

#[test]
fn lines_end_at_a_line_feed_or_at_the_end(rt: HostRuntime) {
    for (script, wanted) in LINES {
        let shown = numbered(rt.alloc(), script).expect(&rt, "memory");
        expect_text(&rt, shown.as_str(), wanted);
    }
}

/// The words of a line between brackets, or `bad`.
fn words_shown(alloc: Global, line: &[u8]) -> Result<String, AllocError> {
    let mut shown = String::new(alloc);
    let Some(mut words) = Words::of(line) else {
        shown.push_str("bad")?;
        return Ok(shown);
    };
    for _ in 0..=line.len() {
        match words.next_word() {
            None => return Ok(shown),
            Some(word) => {
                shown.push_str("[")?;
                shown.push_str(word)?;
                shown.push_str("]")?;
            }
        }
    }
    Ok(shown)
}

const WORDS: &[(&[u8], &str); 20] = &[
    (b"", ""),
    (b"   ", ""),
    (b"osds 3", "[osds][3]"),
    (b"  a   b  ", "[a][b]"),
    (b"osd map data '' x", "[osd][map][data][][x]"),
    (b"\"\"", "[]"),
    (
        b"auth add c.a osd 'allow rw pool=data'",
        "[auth][add][c.a][osd][allow rw pool=data]",
    ),
    (b"\"it's\" 'a\"b'", "[it's][a\"b]"),
    (b"a# \\ ~!", "[a#][\\][~!]"),
    (b"'a", "bad"),
    (b"a 'b c", "bad"),
    (b"'", "bad"),
    (b"a'b", "bad"),
    (b"a'", "bad"),
    (b"'a'b", "bad"),
    (b"'a''b'", "bad"),
    (b"a\tb", "bad"),
    (b"a \x1f", "bad"),
    (b"'\x7f'", "bad"),
    (b"a\xc3\xa9", "bad"),
];

#[test]
fn words_are_bare_or_quoted_whole(rt: HostRuntime) {
    for (line, wanted) in WORDS {
        let shown = words_shown(rt.alloc(), line).expect(&rt, "memory");
        expect_text(&rt, shown.as_str(), wanted);
    }
}

/// Whether a line has just the first one, two, three and four of the words `a`, `b`, the empty one and `d`.
fn counted(line: &[u8]) -> (bool, bool, bool, bool) {
    (
        Words::of(line).is_some_and(|words| words.exactly_one() == Some("a")),
        Words::of(line).is_some_and(|words| words.exactly_two() == Some(("a", "b"))),
        Words::of(line).is_some_and(|words| words.exactly_three() == Some(("a", "b", ""))),
        Words::of(line).is_some_and(|words| words.exactly_four() == Some(("a", "b", "", "d"))),
    )
}

/// Lines, and which of the four they have.
const COUNTED: &[(&str, (bool, bool, bool, bool)); 6] = &[
    ("", (false, false, false, false)),
    (" a ", (true, false, false, false)),
    ("a b", (false, true, false, false)),
    ("a b ''", (false, false, true, false)),
    ("a b '' d", (false, false, false, true)),
    ("a b '' d e", (false, false, false, false)),
];

#[test]
fn so_many_words_and_no_more(rt: HostRuntime) {
    for (line, wanted) in COUNTED {
        expect_so(&rt, counted(line.as_bytes()) == *wanted, line);
    }
}

/// Lines, and whether what was read of their first word is whole.
const WHOLE: &[(&str, bool); 5] = &[
    ("", true),
    ("a", true),
    ("a  ", true),
    ("a b", false),
    ("a ''", false),
];

/// Whether what was read of a line's first word stays, since no word is left behind it.
fn is_whole(line: &str) -> bool {
    let Some(mut words) = Words::of(line.as_bytes()) else {
        return false;
    };
    let first = words.next_word().is_some();
    words.whole(Some(first)).is_some() && words.whole::<bool>(None).is_none()
}

#[test]
fn what_was_read_is_whole_where_no_word_is_left(rt: HostRuntime) {
    for (line, wanted) in WHOLE {
        expect_so(&rt, is_whole(line) == *wanted, line);
    }
}

#[test]
fn a_line_has_8192_bytes_at_most(rt: HostRuntime) {
    let line = vec![in rt.alloc(); b'a'; 8_193].expect(&rt, "memory");
    let has_words = Words::of(&line[..8_192]).is_some();
    expect_so(&rt, has_words, "8192 bytes");
    let has_words = Words::of(line.as_slice()).is_some();
    expect_so(&rt, !has_words, "8193 bytes");
}

const NUMBERS: &[(&str, Option<u32>); 12] = &[
    ("0", Some(0)),
    ("7", Some(7)),
    ("0000000007", Some(7)),
    ("4294967295", Some(4_294_967_295)),
    ("4294967296", None),
    ("9999999999", None),
    ("00000000007", None),
    ("", None),
    ("+7", None),
    ("-7", None),
    ("7 ", None),
    ("0x7", None),
];

#[test]
fn numbers_have_ten_digits_at_most(rt: HostRuntime) {
    for (word, wanted) in NUMBERS {
        expect_so(&rt, number_of(word) == *wanted, word);
    }
}

const PAIRS: &[(&str, Option<(u32, u32)>); 7] = &[
    ("1.2", Some((1, 2))),
    ("007.4294967295", Some((7, 4_294_967_295))),
    ("12", None),
    ("1.", None),
    (".2", None),
    ("1.2.3", None),
    ("1.4294967296", None),
];

#[test]
fn pairs_have_one_dot(rt: HostRuntime) {
    for (word, wanted) in PAIRS {
        expect_so(&rt, pair_of(word) == *wanted, word);
    }
}

/// A text, a line's item and a number, behind a byte.
fn printed(alloc: Global) -> Result<String, AllocError> {
    let mut text = String::from_str(alloc, "x")?;
    push_quoted(&mut text, b" a~\"\\\n\x00\x1f\x7f\xff'")?;
    push_item(&mut text, b"hello")?;
    push_number(&mut text, 18_446_744_073_709_551_615)?;
    Ok(text)
}

#[test]
fn other_bytes_are_printed_as_digits(rt: HostRuntime) {
    let text = printed(rt.alloc()).expect(&rt, "memory");
    let wanted = "x\" a~\\x22\\x5c\\x0a\\x00\\x1f\\x7f\\xff'\"- \"hello\"\n18446744073709551615";
    expect_text(&rt, text.as_str(), wanted);
}

const FAULTS: &[(ScriptFault, &str); 5] = &[
    (ScriptFault::Read, "S1 Read"),
    (ScriptFault::TooMuch, "S2 TooMuch"),
    (ScriptFault::BadLine(2), "S3 BadLine 2"),
    (ScriptFault::Write, "S4 Write"),
    (ScriptFault::OutOfMemory(0), "S5 OutOfMemory 0"),
];

#[test]
fn faults_print_their_line(rt: HostRuntime) {
    for (fault, wanted) in FAULTS {
        let shown = fault.to_string(rt.alloc()).expect(&rt, "memory");
        expect_text(&rt, shown.as_str(), wanted);
    }
}
