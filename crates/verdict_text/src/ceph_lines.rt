//! What a capability text expands to by Ceph's rules.

ghost use Rattle.std.specs.Prelude.{◌≡◌, ◌++◌, true, None, IfOk, OnOk, string_bytes, flat_map};
ghost use Rattle.ceph_text.specs.Profiles.{ceph_flat};
ghost use Rattle.verdict_text.specs.CephExplained as spec;
ghost use Rattle.verdict_text.specs.CephExplained.{IsCephExplainText, IsListExplained, entry_line, entry_text, network_clause, unknown_line};
ghost use Rattle.verdict_text.specs.Reading.{IsCephListReading, IsCephReading, IsCephTextReading};

use crate::caret::push_shown_text;
use crate::document_ceph::{ceph_json, fault_json};
use crate::format::Format;
use crate::printed::Printed;
use crate::reading::{Reading, TextFault, rights_of_entries};
use ceph_text::{CephEntry, CephFault, CephList, expand_ceph, push_ceph_grant, unknown_profiles};
use common_types::{Name, OutOfMemory};
use rights_core::Rights;
use std::alloc::{AllocError, Global};
use std::fmt::Write;
use verdict_core::Ticket;

/// Adds the network clause of a grant, if it has one.
fn push_network(text: &mut String, network: &Option<Name>) -> Result<(), OutOfMemory>
    ensures { OnOk result (string_bytes text.new ≡ string_bytes text.old ++ network_clause network.now) }
{
    if let Some(network) = network {
        text.push_str(" network ")?;
        text.push_str(network.as_str())?;
    }
    Ok(())
}

/// A grant as Ceph reads it.
pub(crate) fn text_of_entry(alloc: Global, entry: &CephEntry) -> Result<String, OutOfMemory>
    ensures { IfOk result (λ text. string_bytes text ≡ entry_text entry.now) }
{
    let mut text = String::new(alloc);
    push_ceph_grant(&mut text, &entry.grant)?;
    push_network(&mut text, &entry.network)?;
    Ok(text)
}

/// Adds the line of a grant: its path, and itself.
fn push_entry(text: &mut String, alloc: Global, entry: &CephEntry) -> Result<(), OutOfMemory>
    ensures { OnOk result (string_bytes text.new ≡ string_bytes text.old ++ entry_line entry.now) }
{
    let grant = text_of_entry(alloc, entry)?;
    let path = &entry.path;
    write!(text, "{path} ")?;
    push_shown_text(text, grant.as_str())?;
    text.push_str("\n")
}

/// Adds the line of each grant.
fn push_entries(text: &mut String, alloc: Global, entries: &[CephEntry]) -> Result<(), OutOfMemory>
    ensures { OnOk result (string_bytes text.new ≡ string_bytes text.old ++ flat_map entry_line entries.now) }
{
    for entry in entries {
        push_entry(text, alloc, entry)?;
    }
    Ok(())
}

/// Adds the line of a grant that uses an unknown profile.
fn push_unknown_line(text: &mut String, number: usize) -> Result<(), OutOfMemory>
    ensures { OnOk result (string_bytes text.new ≡ string_bytes text.old ++ unknown_line number) }
{
    write!(text, "{number} unknown profile, grants nothing\n")
}

/// Adds a line for each grant that uses an unknown profile.
fn push_unknown(text: &mut String, numbers: &[usize]) -> Result<(), OutOfMemory>
    ensures { OnOk result (string_bytes text.new ≡ string_bytes text.old ++ flat_map unknown_line numbers.now) }
{
    for number in numbers {
        push_unknown_line(text, *number)?;
    }
    Ok(())
}

/// A line for each grant that a list expands to, and for each of its grants that expands to nothing.
fn ceph_lines(alloc: Global, list: &CephList, entries: &[CephEntry]) -> Result<String, OutOfMemory>
    requires { entries.now ≡ ceph_flat list.now }
    ensures { IfOk result (λ text. string_bytes text ≡ spec.ceph_text list.now) }
{
    let numbers = unknown_profiles(alloc, list)?;
    let mut text = String::new(alloc);
    push_entries(&mut text, alloc, entries)?;
    push_unknown(&mut text, numbers.as_slice())?;
    Ok(text)
}

/// The expansion of a list, as a text or as a document.
fn ceph_by(
    alloc: Global,
    list: &CephList,
    entries: &[CephEntry],
    format: Format,
) -> Result<String, OutOfMemory>
    requires { entries.now ≡ ceph_flat list.now }
    ensures { IfOk result (λ text. string_bytes text ≡ spec.ceph_by format list.now) }
{
    match format {
        Format::Text => ceph_lines(alloc, list, entries),
        Format::Json => ceph_json(alloc, list, entries),
    }
}

/// Why a text grants nothing.
fn fault_by(alloc: Global, fault: TextFault, format: Format) -> Result<String, OutOfMemory>
    ensures { IfOk result (λ text. string_bytes text ≡ spec.fault_by format fault) }
{
    match format {
        Format::Text => format!(in alloc; "refused {fault}\n"),
        Format::Json => fault_json(alloc, fault),
    }
}

/// What is printed of a text that grants nothing, which fails.
fn refused(alloc: Global, fault: TextFault, format: Format) -> Result<Printed, OutOfMemory>
    ensures { IfOk result (λ printed. (string_bytes printed.text ≡ spec.fault_by format fault) × (printed.fails ≡ true)) }
{
    Ok(Printed {
        text: fault_by(alloc, fault, format)?,
        fails: true,
    })
}

/// What is printed of a list that Ceph reads: its expansion, or that it has too many grants. With it the rights of the list, or
/// why it has none.
fn explained(
    alloc: Global,
    list: &CephList,
    format: Format,
) -> Result<(Printed, Reading), OutOfMemory>
    ensures text { IfOk result (λ found. IsListExplained format list.now (string_bytes found.0.text) found.0.fails) }
    ensures read { IfOk result (λ found. IsCephListReading list.now None found.1) }
{
    match expand_ceph(alloc, list) {
        Ok(entries) => {
            let text = ceph_by(alloc, list, entries.as_slice(), format)?;
            let printed = Printed { text, fails: false };
            Ok((printed, Ok(rights_of_entries(alloc, entries, None)?)))
        }
        Err(CephFault::OutOfMemory) => Err(AllocError),
        Err(_) => {
            let fault = TextFault::Unread(CephFault::TooLarge);
            Ok((refused(alloc, fault, format)?, Err(fault)))
        }
    }
}

/// What is printed of a text by Ceph's rules, and the rights that Ceph reads, or why it reads none.
fn explained_text(
    alloc: Global,
    caps: &str,
    format: Format,
) -> Result<(Printed, Reading), OutOfMemory>
    ensures text { IfOk result (λ found. IsCephExplainText format caps.now (string_bytes found.0.text) found.0.fails) }
    ensures read { IfOk result (λ found. IsCephTextReading caps.now None found.1) }
{
    match ceph_text::read(alloc, caps) {
        Ok(list) => explained(alloc, &list, format),
        Err(CephFault::OutOfMemory) => Err(AllocError),
        Err(fault) => {
            let fault = TextFault::Unread(fault);
            Ok((refused(alloc, fault, format)?, Err(fault)))
        }
    }
}

/// What is printed of a text by Ceph's rules, and its rights or its fault. Ceph refuses the empty text, but an entity without a
/// text has no fault.
pub(crate) fn explained_ceph(
    alloc: Global,
    caps: &str,
    format: Format,
) -> Result<(Printed, Reading), OutOfMemory>
    ensures text { IfOk result (λ found. IsCephExplainText format caps.now (string_bytes found.0.text) found.0.fails) }
    ensures read { IfOk result (λ found. IsCephReading caps.now None found.1) }
{
    let (printed, read) = explained_text(alloc, caps, format)?;
    if caps.is_empty() {
        let nothing = Rights::from_ticket(alloc, Ticket::empty(alloc, None));
        return Ok((printed, Ok(nothing)));
    }
    Ok((printed, read))
}
