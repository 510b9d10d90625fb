//! The arguments of the commands about logs.

use crate::arguments::{
    AUTH_HELP, FORMAT, ONLY, OptionRow, REQUESTS_HELP, Takes, in_place_of, operand, text_option,
    with_arg, with_options,
};
use clap::{Arg, ArgAction, Command};
use std::alloc::{AllocError, Global};

const LOG_EXAMPLE: &str = "\
Example: ceph auth ls --format json > auth.json; osdgate log --auth auth.json --denied osd.0.log
Example: zcat osd.0.log.1.gz | osdgate log --auth auth.json --check -";

const SUGGEST_EXAMPLE: &str =
    "Example: osdgate suggest --auth auth.json --log osd.0.log --entity client.app --commands";

const SUGGEST_USAGE: &str = "\
osdgate suggest --auth <FILE> --log <OSDLOG> [OPTIONS]
       osdgate suggest --auth <FILE> --requests <FILE> --entity <NAME> [OPTIONS]";

const LOGS_HELP: &str =
    "Logs of OSDs at `debug_osd 20`, the oldest of a daemon first; `-` for standard input";

const LOG_POOLS_HELP: &str =
    "Report pools whose tags are not those of the log: what `ceph osd dump --format json` or `ceph osd pool ls detail --format json` prints, `-` for standard input";

const BY_HELP: &str =
    "How finely the texts divide: a grant of flags for each `pool`, for each `namespace` of a pool, or for the common `prefix` of the names seen in a namespace; `namespace` if none is given";

/// The options of `osdgate log`.
const LOG: &[OptionRow; 6] = &[
    ("auth", Takes::Needed("FILE"), AUTH_HELP),
    ("pools", Takes::Value("FILE"), LOG_POOLS_HELP),
    ONLY,
    (
        "denied",
        Takes::Nothing,
        "Print only requests that were denied",
    ),
    (
        "check",
        Takes::Nothing,
        "Print only decisions that differ from the gate's or cannot be compared, and exit with 1 if there is one",
    ),
    FORMAT,
];

/// The logs.
fn logs_operand<'a>(alloc: Global) -> Arg<'a> {
    operand(alloc, "logs", "OSDLOG", LOGS_HELP)
        .action(ArgAction::Append)
        .required(true)
}

pub(crate) fn log_command<'a>(alloc: Global) -> Result<Command<'a>, AllocError> {
    let command = Command::new(alloc, "log")
        .about("Show the requests in logs of OSDs, and why they were denied")
        .after_help(LOG_EXAMPLE);
    let command = with_options(alloc, command, LOG)?;
    command.arg(logs_operand(alloc))
}

/// The options of `osdgate suggest` behind its files.
const SUGGEST: &[OptionRow; 3] = &[
    (
        "by",
        Takes::Choice(&["pool", "namespace", "prefix"]),
        BY_HELP,
    ),
    (
        "commands",
        Takes::Nothing,
        "Print a `ceph auth caps` command for each text, and all else as comments",
    ),
    (
        "allow-all",
        Takes::Nothing,
        "Suggest `*` for a region where only that allows a request",
    ),
];

/// The logs of a suggestion.
fn log_option<'a>(alloc: Global) -> Result<Arg<'a>, AllocError> {
    let help =
        "A log of an OSD at `debug_osd 20`; may be repeated, the oldest of a daemon first, `-` for standard input";
    text_option(alloc, "log", "OSDLOG", help)
        .action(ArgAction::Append)
        .required_unless_present("requests")
}

/// A file of requests, in the place of logs.
fn requests_option<'a>(alloc: Global) -> Result<Arg<'a>, AllocError> {
    let file = text_option(alloc, "requests", "FILE", REQUESTS_HELP).requires_arg("entity")?;
    in_place_of(file, &["log"])
}

/// The entities.
fn entity_option<'a>(alloc: Global) -> Arg<'a> {
    let help = "An entity, all of the log if none is given; may be repeated";
    text_option(alloc, "entity", "NAME", help).action(ArgAction::Append)
}

pub(crate) fn suggest_command<'a>(alloc: Global) -> Result<Command<'a>, AllocError> {
    let command = Command::new(alloc, "suggest")
        .about("Suggest the narrowest capability texts that allow the requests seen")
        .override_usage(SUGGEST_USAGE)
        .after_help(SUGGEST_EXAMPLE)
        .arg(text_option(alloc, "auth", "FILE", AUTH_HELP).required(true))?;
    let command = with_arg(command, log_option(alloc))?;
    let command = with_arg(command, requests_option(alloc))?;
    let command = command.arg(entity_option(alloc))?;
    with_options(alloc, command, SUGGEST)
}
