//! `osdgate run --picture`: a picture of a script that was run.

use crate::output_files::OutputFiles;
use clap::ArgMatches;
use command_steps::number_of;
use common_types::{Name, OutOfMemory};
use entry_core::{GroupId, Id};
use replay_picture::{Drawing, Format, Wanted, draw_part};
use std::alloc::{AllocError, Global};
use std::fmt::Write as _;
use std::io;
use std::io::{ErrorKind, Write};

/// A picture that is asked for.
#[derive(Drop)]
pub(crate) struct Asked<'a> {
    path: &'a str,
    format: Format,
    wanted: Wanted,
}

/// Why nothing is drawn of a script.
const NO_GROUP: &str = "osdgate: the script makes no group of that name\n";

const NO_REQUEST: &str = "osdgate: the script makes no such request\n";

const NO_LINE: &str = "osdgate: the script does not come to these lines\n";

/// The path that stands for standard output.
const STANDARD_OUTPUT: &str = "-";

/// Why no picture is asked for where words ask for one.
#[derive(Clone, Copy)]
pub(crate) enum NoPicture {
    /// A group's number is invalid.
    BadGroup,
    /// Lines are no two numbers, the first of which is the smaller one and at least 1.
    BadLines,
    /// A request is no session and number.
    BadRequest,
    /// The file's ending names no format.
    BadEnding,
    /// The file is the script.
    IsScript,
    /// The file is what standard output is written to.
    IsOutput,
    OutOfMemory,
}

impl NoPicture {
    /// The line that reports it.
    pub(crate) fn line(self) -> &'static str {
        match self {
            NoPicture::BadGroup => "osdgate: a group is a pool and a number below 2^32\n",
            NoPicture::BadLines => {
                "osdgate: lines are two numbers from 1 on, such as `3..9`, the smaller one first\n"
            }
            NoPicture::BadRequest => {
                "osdgate: a request is its session and its number there, such as `1.2`\n"
            }
            NoPicture::BadEnding => {
                "osdgate: the file of a picture ends in `.svg` or `.mmd`, or is `-` for standard output\n"
            }
            NoPicture::IsScript => "osdgate: the picture would replace the script\n",
            NoPicture::IsOutput => {
                "osdgate: the picture would replace the file that standard output goes to\n"
            }
            NoPicture::OutOfMemory => "osdgate: the picture cannot be drawn: OutOfMemory\n",
        }
    }
}

impl From<AllocError> for NoPicture {
    fn from(_error: AllocError) -> NoPicture {
        NoPicture::OutOfMemory
    }
}

/// What became of a picture.
#[derive(Drop)]
pub(crate) enum Drawn {
    /// It is written, and this is to be told.
    Written(String),
    /// The script has nothing to draw, for this reason.
    Nothing(&'static str),
    /// The file could not be written.
    Unwritten(io::Error),
    OutOfMemory,
}

/// The group that the words name, which are a pool's name and a number.
fn named_group(alloc: Global, words: &[&str]) -> Result<GroupId, NoPicture> {
    if let [pool, number] = words {
        if let Some(Ok(number)) = number_of(number).map(u32::try_from) {
            return Ok(GroupId {
                pool: Name::new(alloc, pool)?,
                number,
            });
        }
    }
    Err(NoPicture::BadGroup)
}

/// The format that a file's ending names.
fn format_of(path: &str) -> Option<Format> {
    if path.ends_with(".mmd") {
        Some(Format::Mermaid)
    } else if path.ends_with(".svg") || path == STANDARD_OUTPUT {
        Some(Format::Svg)
    } else {
        None
    }
}

/// Refuses a picture's path that leads to the script or to what standard output is written to.
fn refuse_used<F: OutputFiles>(files: &F, path: &str, script: &str) -> Result<(), NoPicture> {
    let script = if script == "-" { "/dev/stdin" } else { script };
    if path == script || files.is_same_file(path, script) {
        return Err(NoPicture::IsScript);
    }
    if files.is_same_file(path, "/dev/stdout") {
        return Err(NoPicture::IsOutput);
    }
    Ok(())
}

/// A number of a line, from 1 on.
fn line_number(text: &str) -> Option<usize> {
    let number = usize::try_from(number_of(text)?).ok()?;
    if number == 0 { None } else { Some(number) }
}

/// The first and the last line that a word names.
fn named_lines(word: &str) -> Option<(usize, usize)> {
    let (first, last) = word.split_once("..")?;
    let (first, last) = (line_number(first)?, line_number(last)?);
    if first > last {
        None
    } else {
        Some((first, last))
    }
}

/// The request that a word names.
fn named_request(word: &str) -> Option<Id> {
    let (session, number) = word.split_once(".")?;
    let session = u32::try_from(number_of(session)?).ok()?;
    let number = u32::try_from(number_of(number)?).ok()?;
    Some(Id::new(session, number))
}

/// What the words want the picture to show.
fn wanted(alloc: Global, matches: &ArgMatches<'_>) -> Result<Wanted, NoPicture> {
    let group = match matches.get_strs("group") {
        None => None,
        Some(words) => Some(named_group(alloc, words)?),
    };
    let lines = match matches.get_str("lines") {
        None => None,
        Some(word) => Some(named_lines(word).ok_or(NoPicture::BadLines)?),
    };
    let request = match matches.get_str("request") {
        None => None,
        Some(word) => Some(named_request(word).ok_or(NoPicture::BadRequest)?),
    };
    Ok(Wanted {
        group,
        lines,
        request,
    })
}

/// The picture that the words of `osdgate run` ask for, if they do. The path of the script is `-` for standard input.
pub(crate) fn asked_picture<'a, F: OutputFiles>(
    alloc: Global,
    files: &F,
    matches: &ArgMatches<'a>,
    script: &str,
) -> Result<Option<Asked<'a>>, NoPicture> {
    let Some(path) = matches.get_str("picture") else {
        return Ok(None);
    };
    let format = format_of(path).ok_or(NoPicture::BadEnding)?;
    if path != STANDARD_OUTPUT {
        refuse_used(files, path, script)?;
    }
    let wanted = wanted(alloc, matches)?;
    Ok(Some(Asked {
        path,
        format,
        wanted,
    }))
}

/// Whether a picture goes to standard output, where the script's lines would go.
pub(crate) fn is_printed(asked: &Option<Asked<'_>>) -> bool {
    match asked {
        Some(asked) => asked.path == STANDARD_OUTPUT,
        None => false,
    }
}

/// Which group was chosen where none was named.
fn choice(alloc: Global, group: &Option<GroupId>) -> Result<String, OutOfMemory> {
    let mut text = String::new(alloc);
    if let Some(group) = group {
        let pool = group.pool.as_str();
        let number = group.number;
        write!(text, "osdgate: the picture shows group {pool} {number}\n")?;
    }
    Ok(text)
}

/// Writes a picture's text to its file, or to `out`.
fn put<F: OutputFiles, O: Write>(files: &F, out: &mut O, path: &str, text: &str) -> io::Result<()> {
    if path != STANDARD_OUTPUT {
        return files.write_bytes(path, text.as_bytes());
    }
    out.write_all(text.as_bytes())?;
    out.flush()
}

/// Draws a script, and writes the picture.
fn write_picture<F: OutputFiles, O: Write>(
    alloc: Global,
    files: &F,
    script: &[u8],
    asked: Asked<'_>,
    out: &mut O,
) -> Result<Drawn, OutOfMemory> {
    let is_named = asked.wanted.group.is_some();
    let picture = match draw_part(alloc, script, asked.wanted, asked.format)? {
        Drawing::Drawn(picture) => picture,
        Drawing::NoGroup => return Ok(Drawn::Nothing(NO_GROUP)),
        Drawing::NoRequest => return Ok(Drawn::Nothing(NO_REQUEST)),
        Drawing::NoLine => return Ok(Drawn::Nothing(NO_LINE)),
    };
    let told = if is_named {
        String::new(alloc)
    } else {
        choice(alloc, &picture.group)?
    };
    match put(files, out, asked.path, picture.text.as_str()) {
        Ok(()) => Ok(Drawn::Written(told)),
        Err(error) if error.kind() == ErrorKind::OutOfMemory => Ok(Drawn::OutOfMemory),
        Err(error) => Ok(Drawn::Unwritten(error)),
    }
}

/// What became of the picture of a script, where one is asked for.
pub(crate) fn draw<F: OutputFiles, O: Write>(
    alloc: Global,
    files: &F,
    script: &[u8],
    asked: Option<Asked<'_>>,
    out: &mut O,
) -> Option<Drawn> {
    match asked {
        None => None,
        Some(asked) => Some(match write_picture(alloc, files, script, asked, out) {
            Ok(drawn) => drawn,
            Err(_) => Drawn::OutOfMemory,
        }),
    }
}
