//! Why a file cannot be used, and which file it is.

use common_types::OutOfMemory;
use std::alloc::AllocFailed;
use std::{fmt, io};

/// What a file is read for.
#[derive(Clone, Copy)]
pub enum Purpose {
    Entities,
    /// The entities as they are.
    OldEntities,
    /// The entities as they are to be.
    NewEntities,
    Pools,
    Requests,
}

/// The forms in which entities are read.
#[derive(Clone, Copy)]
pub enum Form {
    /// As `ceph auth ls --format json` and `ceph auth get NAME --format json` print them.
    Json,
    /// As `ceph auth export` and `ceph auth get NAME` print them, and as keyrings have them.
    Keyring,
    /// As `ceph auth ls` prints them.
    Listing,
}

/// What a text in none of these forms looks like.
#[derive(Clone, Copy)]
pub enum Likeness {
    Xml,
    Yaml,
    CapabilityText,
    CephError,
    Nothing,
}

/// A place of a text, lines and columns counted from 1.
#[derive(Clone, Copy)]
pub struct Place {
    pub line: usize,
    pub column: usize,
}

/// A key that an object has twice.
#[derive(Drop)]
pub struct DoubledKey {
    /// The key, as it is shown.
    pub key: String,
    /// The object, such as `auth_dump[3].caps`, empty at the top.
    pub path: String,
    /// The line of the second of the two, from 1.
    pub line: usize,
}

/// Why a text is not what it is read for. No value of the text is in it.
#[derive(Drop)]
pub enum FileFault {
    /// It cannot be read.
    Unread(io::Error),
    /// It has more than 67,108,864 bytes.
    TooLong,
    /// It is no UTF-8.
    NotUtf8,
    /// It has nothing but blanks and comments.
    Empty,
    /// It is no JSON from this place on. Lines and columns count from 1.
    NotJson(Place),
    /// An object of it has a key twice.
    DoubledKey(DoubledKey),
    /// It is in no form that is read, and looks like something else.
    Looks { like: Likeness, at: Place },
    /// A line breaks the form that the text is in.
    BadLine { form: Form, at: Place },
    /// It is neither an entry, nor a list of entries, nor an object with such a list under `auth_dump`.
    NoEntries,
    /// This entry, counted from 1, has no text under `entity`.
    NoEntity(usize),
    /// This entry has no object under `caps`.
    NoCaps(usize),
    /// What this entry has under `osd` in its `caps` is no text.
    NoText(usize),
    /// This entry has the name of an earlier one.
    Doubled(usize),
    /// It is neither a list of pools nor an object with such a list under `pools`.
    NoPools,
    /// This pool, counted from 1, has no text under `pool_name`.
    NoPoolName(usize),
    /// What this pool has under `application_metadata` is no object of objects of texts.
    NoApplications(usize),
    /// This pool has the name of an earlier one.
    DoubledPool(usize),
    /// This line, counted from 1, has a quote that is not closed, or a backslash at its end.
    OpenQuote(usize),
    /// This line is no request.
    NoRequest { line: usize, why: String },
    /// A growth was refused, which is no fault of the text.
    OutOfMemory,
}

impl Place {
    /// The first byte of a line that is no blank, by the line's number counted from 0.
    pub fn of_line(index: usize, line: &str) -> Place {
        let blanks = line.len().saturating_sub(line.trim_start().len());
        Place {
            line: index.saturating_add(1),
            column: blanks.saturating_add(1),
        }
    }
}

impl Purpose {
    /// What a file is called, in front of its path.
    pub fn name(self) -> &'static str {
        match self {
            Purpose::Entities => "the file",
            Purpose::OldEntities => "the old file",
            Purpose::NewEntities => "the new file",
            Purpose::Pools => "the pools file",
            Purpose::Requests => "the requests file",
        }
    }

    /// Which command prints what is read, if one does.
    pub fn command(self) -> Option<&'static str> {
        match self {
            Purpose::Requests => None,
            Purpose::Pools => Some("ceph osd dump --format json"),
            _ => Some("ceph auth ls --format json"),
        }
    }
}

impl FileFault {
    /// Whether the text is in another form than those that are read.
    pub fn is_of_form(&self) -> bool {
        matches!(
            self,
            FileFault::NotUtf8
                | FileFault::Empty
                | FileFault::NotJson(_)
                | FileFault::Looks { .. }
                | FileFault::NoEntries
                | FileFault::NoPools
        )
    }
}

impl From<OutOfMemory> for FileFault {
    fn from(_error: OutOfMemory) -> FileFault {
        FileFault::OutOfMemory
    }
}

impl<T: Drop> From<AllocFailed<T>> for FileFault {
    fn from(_error: AllocFailed<T>) -> FileFault {
        FileFault::OutOfMemory
    }
}

impl From<io::Error> for FileFault {
    fn from(error: io::Error) -> FileFault {
        if error.kind() == io::ErrorKind::OutOfMemory {
            return FileFault::OutOfMemory;
        }
        FileFault::Unread(error)
    }
}

impl fmt::Display for Place {
    fn fmt<W: fmt::Write>(&self, f: &mut fmt::Formatter<W>) -> fmt::Result {
        let line = self.line;
        let column = self.column;
        write!(f, "at line {line}, column {column}")
    }
}

impl fmt::Display for DoubledKey {
    fn fmt<W: fmt::Write>(&self, f: &mut fmt::Formatter<W>) -> fmt::Result {
        let key = self.key.as_str();
        let path = self.path.as_str();
        let line = self.line;
        if path.is_empty() {
            write!(f, "`{key}` twice, at line {line}")
        } else {
            write!(f, "`{key}` twice in `{path}`, at line {line}")
        }
    }
}

impl fmt::Display for Form {
    fn fmt<W: fmt::Write>(&self, f: &mut fmt::Formatter<W>) -> fmt::Result {
        f.write_str(match self {
            Form::Json => "JSON",
            Form::Keyring => "a keyring",
            Form::Listing => "what `ceph auth ls` prints",
        })
    }
}

impl fmt::Display for Likeness {
    fn fmt<W: fmt::Write>(&self, f: &mut fmt::Formatter<W>) -> fmt::Result {
        f.write_str(match self {
            Likeness::Xml => "looks like XML",
            Likeness::Yaml => "looks like YAML",
            Likeness::CapabilityText => "looks like a capability text",
            Likeness::CephError => "looks like an error of ceph's",
            Likeness::Nothing => "is in no form that is read",
        })
    }
}

impl FileFault {
    /// What is said first of it.
    fn words(&self) -> &'static str {
        match self {
            FileFault::Unread(_) => "cannot be read: ",
            FileFault::TooLong => "has more than 67108864 bytes",
            FileFault::NotUtf8 => "cannot be read: stream did not contain valid UTF-8",
            FileFault::Empty => "is empty",
            FileFault::NotJson(_) => "is no JSON ",
            FileFault::DoubledKey(_) => "has the key ",
            FileFault::Looks { .. } => "",
            FileFault::BadLine { .. } => "is not ",
            FileFault::NoEntries => "has no list of entries",
            FileFault::NoEntity(_) => "has no text `entity` in entry ",
            FileFault::NoCaps(_) => "has no object `caps` in entry ",
            FileFault::NoText(_) => "has an `osd` that is no text in entry ",
            FileFault::Doubled(_) => "has the name of an earlier entry in entry ",
            FileFault::NoPools => "has no list of pools",
            FileFault::NoPoolName(_) => "has no text `pool_name` in pool ",
            FileFault::NoApplications(_) => {
                "has no object of objects of texts `application_metadata` in pool "
            }
            FileFault::DoubledPool(_) => "has the name of an earlier pool in pool ",
            FileFault::OpenQuote(_) => "has an open quote in line ",
            FileFault::NoRequest { .. } => "has no request in line ",
            FileFault::OutOfMemory => "OutOfMemory",
        }
    }
}

impl fmt::Display for FileFault {
    fn fmt<W: fmt::Write>(&self, f: &mut fmt::Formatter<W>) -> fmt::Result {
        f.write_str(self.words())?;
        match self {
            FileFault::Unread(error) => write!(f, "{error}"),
            FileFault::NotJson(at) => write!(f, "{at}"),
            FileFault::DoubledKey(doubled) => write!(f, "{doubled}"),
            FileFault::Looks { like, at } => write!(f, "{like} {at}"),
            FileFault::BadLine { form, at } => write!(f, "{form} {at}"),
            FileFault::NoEntity(number)
            | FileFault::NoCaps(number)
            | FileFault::NoText(number)
            | FileFault::Doubled(number)
            | FileFault::NoPoolName(number)
            | FileFault::NoApplications(number)
            | FileFault::DoubledPool(number)
            | FileFault::OpenQuote(number) => write!(f, "{number}"),
            FileFault::NoRequest { line, why } => write!(f, "{line}: {why}"),
            FileFault::TooLong
            | FileFault::NotUtf8
            | FileFault::Empty
            | FileFault::NoEntries
            | FileFault::NoPools
            | FileFault::OutOfMemory => Ok(()),
        }
    }
}
