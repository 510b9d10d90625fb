//! The words that `osdgate check` takes.

use crate::arguments::{
    AUTH_HELP, FORMAT_HELP, OptionRow, RULES, SHARED_POOLS_HELP, Takes, operand, with_options,
};
use clap::Command;
use std::alloc::{AllocError, Global};

const CHECK_EXAMPLE: &str = "\
Example: osdgate check rules.txt --auth auth.json
Example: ceph auth ls --format json | osdgate check rules.txt --auth - --quiet";

const RULES_FILE_HELP: &str =
    "The file of rules: `never WHO 'TEXT'`, `always WHO 'TEXT'`, `apart A B`, `group NAME MEMBER..`";

const OPTIONS: &[OptionRow; 5] = &[
    ("auth", Takes::Needed("FILE"), AUTH_HELP),
    ("pools", Takes::Value("FILE"), SHARED_POOLS_HELP),
    (
        "format",
        Takes::Choice(&["text", "json", "junit"]),
        FORMAT_HELP,
    ),
    (
        "quiet",
        Takes::Nothing,
        "Print no line for a rule that holds",
    ),
    RULES,
];

pub(crate) fn check_command<'a>(alloc: Global) -> Result<Command<'a>, AllocError> {
    let command = Command::new(alloc, "check")
        .about("Check rules that the entities of a file must keep")
        .after_help(CHECK_EXAMPLE)
        .arg(operand(alloc, "rules_file", "RULES", RULES_FILE_HELP).required(true))?;
    with_options(alloc, command, OPTIONS)
}
