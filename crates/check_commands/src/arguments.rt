//! What the arguments of `osdgate check` say.

use clap::ArgMatches;
use command_steps::{BadWords, rules_of, value_of};
use verdict_text::Rules;

/// The form of an answer.
#[derive(Clone, Copy, PartialEq, Eq)]
pub(crate) enum CheckFormat {
    Text,
    Json,
    Junit,
}

/// What the arguments say, except the entities and the pools.
#[derive(Clone, Copy)]
pub(crate) struct CheckArguments<'m> {
    /// The file of rules.
    pub(crate) path: &'m str,
    /// By whose rules capability texts are read.
    pub(crate) by: Rules,
    pub(crate) format: CheckFormat,
    /// Rules that hold are not printed.
    pub(crate) quiet: bool,
}

fn format_of(matches: &ArgMatches<'_>) -> CheckFormat {
    match matches.get_str("format") {
        Some("json") => CheckFormat::Json,
        Some("junit") => CheckFormat::Junit,
        _ => CheckFormat::Text,
    }
}

impl<'m> CheckArguments<'m> {
    /// What the arguments say. At most one file is standard input.
    pub(crate) fn of(matches: &'m ArgMatches<'_>) -> Result<CheckArguments<'m>, BadWords> {
        let files = ["auth", "pools", "rules_file"];
        let inputs = files
            .iter()
            .filter(|name| matches.get_str(name) == Some("-"))
            .count();
        if inputs > 1 {
            return Err(BadWords::OneInput);
        }
        Ok(CheckArguments {
            path: value_of(matches, "rules_file"),
            by: rules_of(matches),
            format: format_of(matches),
            quiet: matches.get_flag("quiet"),
        })
    }
}
