//! Both sides of the condition that a request fails: what it asks for, and what the grant has.

ghost use Rattle.std.specs.Prelude.{◌≡◌, ◌++◌, OnOk, string_bytes};
ghost use Rattle.compare_text.specs.Words.{flag_words};
ghost use Rattle.log_text.specs.Sides as spec;

use crate::decided::Decided;
use crate::written::push_tags;
use cap_text::{AllowGrant, NsMatch};
use ceph_text::push_ceph_grant;
use common_types::{Name, OutOfMemory};
use network_core::Network;
use rights_core::Entry;
use std::alloc::Global;
use std::fmt::Write;
use verdict_core::{ClassCall, Condition, first_failure};
use verdict_text::push_name;

/// Whether a grant is for no address at all.
fn is_dead(network: &Option<Network>) -> bool
    ensures { result ≡ spec.is_dead network.now }
{
    match network {
        None => false,
        Some(network) => network.is_never(),
    }
}

/// A condition that failed, or that of the network if there is one.
fn or_network(network: &Option<Network>, condition: Option<Condition>) -> Option<Condition>
    ensures { result ≡ spec.or_network network.now condition }
{
    match condition {
        Some(condition) => Some(condition),
        None => match network {
            Some(_) => Some(Condition::Network),
            None => None,
        },
    }
}

/// The first condition of a grant that a request fails. A request that fails nothing else may fail by the address,
/// which logs do not have.
pub fn failed_condition(entry: &Entry<'_>, decided: &Decided) -> Option<Condition>
    ensures { result ≡ spec.failed_condition entry.now decided.now }
{
    if is_dead(&entry.network) {
        return Some(Condition::Network);
    }
    let target = decided.target.as_target();
    let condition = first_failure(false, entry.grant, &target, &decided.needs);
    or_network(&entry.network, condition)
}

/// Adds words where something holds.
fn push_if(text: &mut String, holds: bool, words: &str) -> Result<(), OutOfMemory>
    ensures { OnOk result (string_bytes text.new ≡ string_bytes text.old ++ flag_words holds words.now) }
{
    if holds { text.push_str(words) } else { Ok(()) }
}

/// Adds what a call's method does.
fn push_does(text: &mut String, call: &ClassCall) -> Result<(), OutOfMemory>
    ensures { OnOk result (string_bytes text.new ≡ string_bytes text.old ++ spec.does call.now) }
{
    push_if(text, call.class_reads, " that reads")?;
    push_if(text, call.class_writes, " that writes")?;
    push_if(text, !call.listed, ", unlisted")
}

fn push_call(text: &mut String, call: &ClassCall) -> Result<(), OutOfMemory>
    ensures { OnOk result (string_bytes text.new ≡ string_bytes text.old ++ spec.call_words call.now) }
{
    text.push_str("class ")?;
    push_name(text, call.class.as_str())?;
    text.push_str(" ")?;
    push_name(text, call.method.as_str())?;
    push_does(text, call)
}

/// Adds the call with a number, counted from 1.
fn push_call_at(text: &mut String, calls: &[ClassCall], number: usize) -> Result<(), OutOfMemory>
    ensures { OnOk result (string_bytes text.new ≡ string_bytes text.old ++ spec.call_at calls.now number) }
{
    match calls.get(number.saturating_sub(1)) {
        Some(call) => push_call(text, call),
        None => Ok(()),
    }
}

/// Adds what a request asks for where it fails a condition.
pub fn push_asked(
    text: &mut String,
    alloc: Global,
    condition: Condition,
    decided: &Decided,
) -> Result<(), OutOfMemory>
    ensures { OnOk result (string_bytes text.new ≡ string_bytes text.old ++ spec.asked condition decided.now) }
{
    let target = &decided.target;
    match condition {
        Condition::Expired => text.push_str("a tick"),
        Condition::Network => text.push_str("an address that the log does not have"),
        Condition::Pool => push_name(text, target.pool.as_str()),
        Condition::Namespace => push_name(text, target.namespace.as_str()),
        Condition::Tag => push_tags(text, alloc, target.tags.as_slice()),
        Condition::Prefix => push_name(text, target.object.as_str()),
        Condition::Read => text.push_str("r"),
        Condition::Write => text.push_str("w"),
        Condition::Call(number) => push_call_at(text, decided.needs.calls.as_slice(), number),
    }
}

fn push_network(text: &mut String, network: &Option<Network>) -> Result<(), OutOfMemory>
    ensures { OnOk result (string_bytes text.new ≡ string_bytes text.old ++ spec.network_words network.now) }
{
    match network {
        None => text.push_str("every address"),
        Some(Network::Never) => text.push_str("no address"),
        Some(Network::Range(address, length)) => write!(text, "{address}/{length}"),
    }
}

fn push_optional(text: &mut String, name: &Option<Name>) -> Result<(), OutOfMemory>
    ensures { OnOk result (string_bytes text.new ≡ string_bytes text.old ++ spec.optional name.now) }
{
    match name {
        None => Ok(()),
        Some(name) => push_name(text, name.as_str()),
    }
}

fn push_namespaces(text: &mut String, namespaces: &Option<NsMatch>) -> Result<(), OutOfMemory>
    ensures { OnOk result (string_bytes text.new ≡ string_bytes text.old ++ spec.namespaces namespaces.now) }
{
    match namespaces {
        None => Ok(()),
        Some(NsMatch::Exact(name)) => push_name(text, name.as_str()),
        Some(NsMatch::Prefix(front)) => {
            push_name(text, front.as_str())?;
            text.push_str("*")
        }
    }
}

/// Adds what a grant has where a request fails a condition of it: the value of that condition, or the whole grant.
pub fn push_held(
    text: &mut String,
    condition: Condition,
    network: &Option<Network>,
    grant: &AllowGrant,
) -> Result<(), OutOfMemory>
    ensures { OnOk result (string_bytes text.new ≡ string_bytes text.old ++ spec.held condition network.now grant.now) }
{
    match condition {
        Condition::Network => push_network(text, network),
        Condition::Pool => push_optional(text, &grant.pool),
        Condition::Namespace => push_namespaces(text, &grant.namespace),
        Condition::Prefix => push_optional(text, &grant.prefix),
        Condition::Expired
        | Condition::Tag
        | Condition::Read
        | Condition::Write
        | Condition::Call(_) => push_ceph_grant(text, grant),
    }
}

/// Adds a line on a grant, such as `  1 namespace: asks tenant-b, has tenant-a`.
fn push_failure(
    text: &mut String,
    alloc: Global,
    entry: &Entry<'_>,
    condition: Condition,
    decided: &Decided,
) -> Result<(), OutOfMemory>
    ensures { OnOk result (string_bytes text.new ≡ string_bytes text.old ++ spec.failure_line entry.now condition decided.now) }
{
    let path = entry.path;
    write!(text, "  {path} {condition}: asks ")?;
    push_asked(text, alloc, condition, decided)?;
    text.push_str(", has ")?;
    push_held(text, condition, &entry.network, entry.grant)?;
    text.push_str("\n")
}

/// Adds a line on a grant of which a request fails a condition, or nothing for any other grant.
pub fn push_entry_failure(
    text: &mut String,
    alloc: Global,
    entry: &Entry<'_>,
    decided: &Decided,
) -> Result<(), OutOfMemory>
    ensures { OnOk result (string_bytes text.new ≡ string_bytes text.old ++ spec.entry_failure entry.now decided.now) }
{
    match failed_condition(entry, decided) {
        Some(condition) => push_failure(text, alloc, entry, condition, decided),
        None => Ok(()),
    }
}
