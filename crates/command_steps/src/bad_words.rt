//! Arguments that clap takes and that are no command line.

use common_types::OutOfMemory;
use std::alloc::{AllocError, AllocFailed, Global};

/// Why arguments that clap takes are no command line.
#[derive(Clone, Copy)]
pub enum BadWords {
    /// A tag with a `:` has no `=` behind it.
    Tag,
    /// A time is no decimal number below 2 to the power of 64.
    Time,
    /// A comparison of files has not two of them, or both are standard input.
    Files,
    /// What two texts share is asked of other than two of them.
    TwoTexts,
    /// A call of `--call` does not say what its method does, or lacks a class or a method.
    Call,
    /// Tags are given, and a file of pools too.
    PoolTags,
    /// Two files are standard input.
    OneInput,
    /// There is no such command.
    Command,
    /// A request neither reads, writes, lists nor calls anything.
    NothingRequested,
    /// The name of the pool is empty.
    EmptyPool,
    /// The name of the object is empty.
    EmptyObject,
    /// One key of an application has two values.
    TwoValues,
    /// The client's address is no IPv4 or IPv6 address.
    Address,
    /// A list of classes is given, by this project's rules.
    ListedByProject,
    /// The methods of Ceph's class table are asked about, by this project's rules.
    KnownByProject,
    /// What is asked of something in a pool is not one read, write, listing or call.
    OneAny,
}

impl BadWords {
    /// The line on it, behind the program's name.
    pub fn text(self) -> &'static str {
        match self {
            BadWords::Tag => "a tag with a `:` needs a `=` behind it",
            BadWords::Time => "a time is a decimal number below 2^64, without a sign",
            BadWords::Files => {
                "a comparison of files needs `--auth` twice, and standard input once at most"
            }
            BadWords::TwoTexts => "what two texts share needs `--caps` twice",
            BadWords::Call => {
                "a `--call` is CLASS.METHOD and `:r`, `:w` or `:rw`, and then `:listed` where the class is on the default list"
            }
            BadWords::PoolTags => "a pool of `--pools` has the tags of the file, and no `--tag`",
            BadWords::OneInput => "one file can be standard input, and not two",
            BadWords::Command => "there is no such command",
            BadWords::NothingRequested => {
                "the request requests nothing: give --read, --write, --list or a call"
            }
            BadWords::EmptyPool => "the name of a pool is not empty",
            BadWords::EmptyObject => {
                "the name of an object is not empty; a request for the names of objects is --list"
            }
            BadWords::TwoValues => "two `--tag` give one key two values",
            BadWords::Address => {
                "an address is IPv4 or IPv6, such as 10.0.0.1 or fe80::1, without a port"
            }
            BadWords::ListedByProject => "`--listed` is by Ceph's rules: give --rules ceph",
            BadWords::KnownByProject => "`--registry known` is by Ceph's rules: give --rules ceph",
            BadWords::OneAny => "`--any` takes one of --read, --write, --list and a call",
        }
    }
}

/// Why arguments are no request.
#[derive(Drop)]
pub enum NoRequest {
    Words(BadWords),
    /// The arguments are no request, and this text says why.
    Told(String),
    /// A growth was refused.
    OutOfMemory,
}

impl NoRequest {
    /// Why, without the program's name.
    pub fn why(self, alloc: Global) -> Result<String, OutOfMemory> {
        match self {
            NoRequest::Words(bad) => String::from_str(alloc, bad.text()),
            NoRequest::Told(line) => Ok(line),
            NoRequest::OutOfMemory => Err(AllocError),
        }
    }
}

impl From<BadWords> for NoRequest {
    fn from(bad: BadWords) -> NoRequest {
        NoRequest::Words(bad)
    }
}

impl From<AllocError> for NoRequest {
    fn from(_error: AllocError) -> NoRequest {
        NoRequest::OutOfMemory
    }
}

impl<T: Drop> From<AllocFailed<T>> for NoRequest {
    fn from(_error: AllocFailed<T>) -> NoRequest {
        NoRequest::OutOfMemory
    }
}
