//! The arguments of `osdgate audit` and `osdgate reach`.

use crate::arguments::{
    AUTH_HELP, FORMAT, ONLY, OptionRow, POOLS_HELP, RULES, Takes, WITHOUT, operand, with_options,
};
use clap::Command;
use std::alloc::{AllocError, Global};

const EXAMPLE: &str = "\
Example: ceph osd dump --format json > pools; ceph auth ls --format json | osdgate audit --auth - --pools pools
Example: osdgate audit --auth auth --pools pools | diff audit.expected -
Example: osdgate audit --auth auth --pools pools --format html --output audit.html";

const FORMAT_HELP: &str =
    "The form of the answer, `text` if none is given; `html` is a page that needs no other file";

const KNOWN_HELP: &str =
    "Exit with 0 beside entities that could not be checked, which stay listed; with `=GLOB` only beside those whose names match, and then it may be repeated";

const OUTPUT_HELP: &str =
    "Write the answer to this file in place of standard output; an older file stays if that fails";

const REACH_EXAMPLE: &str =
    "Example: ceph osd dump --format json > pools; ceph auth ls --format json | osdgate reach --auth - --pools pools client.web";

const REACH_POOLS_HELP: &str =
    "The pools and their tags, in place of those that the entity's text names: what `ceph osd dump --format json` or `ceph osd pool ls detail --format json` prints, `-` for standard input";

/// The options of `osdgate audit`.
const AUDIT: &[OptionRow; 8] = &[
    ("auth", Takes::Needed("FILE"), AUTH_HELP),
    ("pools", Takes::Needed("FILE"), POOLS_HELP),
    RULES,
    ONLY,
    WITHOUT,
    ("known", Takes::Patterns("GLOB"), KNOWN_HELP),
    (
        "format",
        Takes::Choice(&["text", "json", "csv", "html"]),
        FORMAT_HELP,
    ),
    ("output", Takes::Value("FILE"), OUTPUT_HELP),
];

pub(crate) fn audit_command<'a>(alloc: Global) -> Result<Command<'a>, AllocError> {
    let command = Command::new(alloc, "audit")
        .about("Show what each entity of a file reaches of each pool, as a matrix")
        .after_help(EXAMPLE);
    with_options(alloc, command, AUDIT)
}

/// The options of `osdgate reach`.
const REACH: &[OptionRow; 4] = &[
    ("auth", Takes::Needed("FILE"), AUTH_HELP),
    ("pools", Takes::Value("FILE"), REACH_POOLS_HELP),
    RULES,
    FORMAT,
];

pub(crate) fn reach_command<'a>(alloc: Global) -> Result<Command<'a>, AllocError> {
    let entity = operand(
        alloc,
        "entity",
        "ENTITY",
        "The entity, such as `client.web`",
    );
    let command = Command::new(alloc, "reach")
        .about("Show what one entity of a file reaches of each pool, and the grants that give it")
        .after_help(REACH_EXAMPLE);
    let command = with_options(alloc, command, REACH)?;
    command.arg(entity.required(true))
}
