//! What a capability text expands to.

ghost use Rattle.std.specs.Prelude.{◌≡◌, ◌++◌, true, None, is_some, IfOk, OnOk, string_bytes, flat_map};
ghost use Rattle.grant_core.specs.BuiltIn.{built_in};
ghost use Rattle.grant_core.specs.Refusal.{expand_refusal};
ghost use Rattle.verdict_text.specs.CephExplained.{IsCephExplainText};
ghost use Rattle.verdict_text.specs.Explain as spec;
ghost use Rattle.verdict_text.specs.Explain.{IsExplainText, explained_text, grant_line, list_by};
ghost use Rattle.verdict_text.specs.Explained.{IsExplainedBy};
ghost use Rattle.verdict_text.specs.Reading.{IsListReading, IsProjectReading, IsReading};

use crate::ceph_lines::explained_ceph;
use crate::document::{expansion_json, explained_json, spelling_json};
use crate::expanded::ticket_of;
use crate::format::Format;
use crate::printed::Printed;
use crate::reading::{ReadText, Reader, Reading, Rules, TextFault};
use cap_text::{AllowGrant, CapFault, CapList, FaultKind, parse, print, push_allow};
use common_types::OutOfMemory;
use grant_core::{ExpandFault, Path, ProfileTable};
use rights_core::Rights;
use std::alloc::{AllocError, Global};
use std::fmt::{Display, Write};

/// Adds the line of a grant: its path and its printed form.
fn push_grant(text: &mut String, entry: &(Path, AllowGrant)) -> Result<(), OutOfMemory>
    ensures { OnOk result (string_bytes text.new ≡ string_bytes text.old ++ grant_line entry.now) }
{
    let path = &entry.0;
    write!(text, "{path} ")?;
    push_allow(text, &entry.1)?;
    text.push_str("\n")
}

/// Adds the line of each grant.
fn push_grants(text: &mut String, grants: &[(Path, AllowGrant)]) -> Result<(), OutOfMemory>
    ensures { OnOk result (string_bytes text.new ≡ string_bytes text.old ++ flat_map grant_line grants.now) }
{
    for entry in grants {
        push_grant(text, entry)?;
    }
    Ok(())
}

/// The canonical form of a list on a line, and a line for each grant that it expands to.
fn text_of_grants(
    alloc: Global,
    list: &CapList,
    grants: &[(Path, AllowGrant)],
) -> Result<String, OutOfMemory>
    ensures { IfOk result (λ text. string_bytes text ≡ explained_text list.now grants.now) }
{
    let mut text = print(alloc, list)?;
    text.push_str("\n")?;
    push_grants(&mut text, grants)?;
    Ok(text)
}

/// The canonical form of a list and the grants that it expands to, as a text or as a document.
fn explained_by(
    alloc: Global,
    list: &CapList,
    grants: &[(Path, AllowGrant)],
    format: Format,
) -> Result<String, OutOfMemory>
    ensures { IfOk result (λ text. string_bytes text ≡ spec.explained_by format list.now grants.now) }
{
    match format {
        Format::Text => text_of_grants(alloc, list, grants),
        Format::Json => explained_json(alloc, list, grants),
    }
}

/// Why a list is not expanded.
fn expansion_by(alloc: Global, fault: ExpandFault, format: Format) -> Result<String, OutOfMemory>
    ensures { IfOk result (λ text. string_bytes text ≡ spec.expansion_by format fault) }
{
    match format {
        Format::Text => format!(in alloc; "refused {fault}\n"),
        Format::Json => expansion_json(alloc, fault),
    }
}

/// Why a text spells no list.
fn spelling_by(alloc: Global, fault: CapFault, format: Format) -> Result<String, OutOfMemory>
    ensures { IfOk result (λ text. string_bytes text ≡ spec.spelling_by format fault) }
{
    match format {
        Format::Text => format!(in alloc; "refused {fault}\n"),
        Format::Json => spelling_json(alloc, fault),
    }
}

/// What is printed of a list: its expansion with the built-in profiles, or why that is refused. With it the rights of the list,
/// or why it has none.
fn explained_list(
    alloc: Global,
    profiles: &ProfileTable,
    list: &CapList,
    format: Format,
) -> Result<(Printed, Reading), OutOfMemory>
    requires { profiles.now ≡ built_in }
    ensures text { IfOk result (λ found. string_bytes found.0.text ≡ list_by format (expand_refusal built_in list.now) list.now) }
    ensures fails { IfOk result (λ found. found.0.fails ≡ is_some (expand_refusal built_in list.now)) }
    ensures read { IfOk result (λ found. IsListReading list.now None found.1) }
{
    match ticket_of(alloc, profiles, list, None) {
        Ok(ticket) => {
            let text = explained_by(alloc, list, ticket.grants(), format)?;
            let printed = Printed { text, fails: false };
            Ok((printed, Ok(Rights::from_ticket(alloc, ticket))))
        }
        Err(ExpandFault::OutOfMemory) => Err(AllocError),
        Err(fault) => {
            let text = expansion_by(alloc, fault, format)?;
            let printed = Printed { text, fails: true };
            Ok((printed, Err(TextFault::Expansion(fault))))
        }
    }
}

/// What is printed of a text that spells no list.
fn refused_text_of(alloc: Global, fault: CapFault, format: Format) -> Result<Printed, OutOfMemory>
    ensures { IfOk result (λ printed. (string_bytes printed.text ≡ spec.spelling_by format fault) × (printed.fails ≡ true)) }
{
    Ok(Printed {
        text: spelling_by(alloc, fault, format)?,
        fails: true,
    })
}

/// What is printed of a text by this project's rules, and its rights or its first fault.
fn explain_project(
    alloc: Global,
    profiles: &ProfileTable,
    caps: &str,
    format: Format,
) -> Result<(Printed, Reading), OutOfMemory>
    requires { profiles.now ≡ built_in }
    ensures text { IfOk result (λ found. IsExplainText format caps.now (string_bytes found.0.text) found.0.fails) }
    ensures read { IfOk result (λ found. IsProjectReading caps.now None found.1) }
{
    match parse(alloc, caps) {
        Ok(list) => explained_list(alloc, profiles, &list, format),
        Err(
            CapFault {
                kind: FaultKind::OutOfMemory,
                ..
            },
        ) => Err(AllocError),
        Err(fault) => {
            let printed = refused_text_of(alloc, fault, format)?;
            Ok((printed, Err(TextFault::Spelling(fault))))
        }
    }
}

/// What is printed of a text by the rules of a reader, and its rights or its first fault.
fn explain_by(
    alloc: Global,
    reader: &Reader,
    caps: &str,
    format: Format,
) -> Result<(Printed, Reading), OutOfMemory>
    ensures text { IfOk result (λ found. IsExplainedBy reader.now format caps.now (string_bytes found.0.text) found.0.fails) }
    ensures read { IfOk result (λ found. IsReading reader.now caps.now None found.1) }
{
    match reader.rules() {
        Rules::Project => explain_project(alloc, reader.profiles(), caps, format),
        Rules::Ceph => explained_ceph(alloc, caps, format),
    }
}

/// What is printed to explain a capability text, and the text as it was read.
#[derive(Debug, Drop)]
pub struct Explained {
    pub printed: Printed,
    pub text: ReadText,
}

/// What the program prints to explain a capability text, as [`explain_text`] and [`explain_ceph`] say, and the text. It is read
/// once, by the rules of the reader. The only error is out of memory, which drops the text.
pub fn read_explained(
    alloc: Global,
    reader: &Reader,
    caps: String,
    format: Format,
) -> Result<Explained, OutOfMemory>
    ensures printed { IfOk result (λ explained. IsExplainedBy reader.now format (string_bytes caps) (string_bytes explained.printed.text) explained.printed.fails) }
    ensures rules { IfOk result (λ explained. explained.text.rules ≡ reader.now) }
    ensures text { IfOk result (λ explained. explained.text.text ≡ string_bytes caps) }
    ensures until { IfOk result (λ explained. explained.text.until ≡ None) }
{
    let (printed, read) = explain_by(alloc, reader, caps.as_str(), format)?;
    Ok(Explained {
        printed,
        text: ReadText::from_reading(reader.rules(), caps, read),
    })
}

/// What the program prints to explain a capability text by this project's rules. Every line ends with a line feed.
///
/// - The canonical form of the text on a line, which is empty where the text spells no grants.
/// - A line `PATH GRANT` for each grant that the text expands to with the built-in profiles.
/// - Or `refused FAULT` where the text spells no list or cannot be expanded. Then the command fails.
///
/// As a document it has the members `canonical` and `grants`, or `fault`, and `byte` where one is at fault.
pub fn explain_text(alloc: Global, caps: &str, format: Format) -> Result<Printed, OutOfMemory>
    ensures { IfOk result (λ printed. IsExplainText format caps.now (string_bytes printed.text) printed.fails) }
{
    let profiles = ProfileTable::builtin(alloc)?;
    let (printed, _) = explain_project(alloc, &profiles, caps, format)?;
    Ok(printed)
}

/// What the program prints to explain a capability text by Ceph's rules. Every line ends with a line feed.
///
/// - A line `PATH GRANT` for each grant that the text expands to, with the network to which the grant is limited.
/// - A line for each grant of the text that uses a profile unknown to Ceph, which grants nothing.
/// - Or `refused FAULT` where Ceph refuses the text. Then the command fails.
///
/// Bytes outside 32 to 126 are shown as `\x` and two hexadecimal digits. As a document it has the members `grants` and
/// `unknown_profiles`, or `fault`, and `byte` where one is at fault.
pub fn explain_ceph(alloc: Global, caps: &str, format: Format) -> Result<Printed, OutOfMemory>
    ensures { IfOk result (λ printed. IsCephExplainText format caps.now (string_bytes printed.text) printed.fails) }
{
    let (printed, _) = explained_ceph(alloc, caps, format)?;
    Ok(printed)
}
