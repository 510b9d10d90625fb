//! What the arguments of `osdgate audit` say.

use clap::ArgMatches;
use command_steps::{BadWords, choice_of, rules_of, value_of};
use gate_files::Choice;
use verdict_text::Rules;

/// The form of an answer.
#[derive(Clone, Copy, PartialEq, Eq)]
pub(crate) enum AuditFormat {
    Text,
    Json,
    Csv,
    Html,
}

/// What the arguments say, except where the answer is written.
#[derive(Clone, Copy)]
pub(crate) struct AuditArguments<'m> {
    pub(crate) auth: &'m str,
    pub(crate) pools: &'m str,
    pub(crate) rules: Rules,
    pub(crate) choice: Choice<'m>,
    pub(crate) format: AuditFormat,
}

fn format_of(matches: &ArgMatches<'_>) -> AuditFormat {
    match matches.get_str("format") {
        Some("json") => AuditFormat::Json,
        Some("csv") => AuditFormat::Csv,
        Some("html") => AuditFormat::Html,
        _ => AuditFormat::Text,
    }
}

impl<'m> AuditArguments<'m> {
    /// What the arguments say. At most one file is standard input.
    pub(crate) fn of(matches: &'m ArgMatches<'_>) -> Result<AuditArguments<'m>, BadWords> {
        let auth = value_of(matches, "auth");
        let pools = value_of(matches, "pools");
        if auth == "-" && pools == "-" {
            return Err(BadWords::OneInput);
        }
        Ok(AuditArguments {
            auth,
            pools,
            rules: rules_of(matches),
            choice: choice_of(matches),
            format: format_of(matches),
        })
    }
}

/// The file that the answer is written to, or nothing for standard output.
pub fn output_of<'a>(matches: &ArgMatches<'a>) -> Option<&'a str> {
    match matches.get_str("output") {
        Some("-") | None => None,
        Some(path) => Some(path),
    }
}
