//! The methods of Ceph's class table as calls, and what grants give where requests call no others.

ghost use Rattle.std.specs.Prelude.{◌≡◌, ◌&&◌, true, false};
ghost use Rattle.std.specs.List.{list_any};
ghost use Rattle.request_types.specs.declared.request.ClassCall.{ClassCall};
ghost use Rattle.verdict_core.specs.Verdict as spec;

use crate::tag_words::{StatedWords, call_by};
use cap_text::{Access, AllowGrant, Flags};
use class_table::{ClassMethod, default_list, is_listed, methods};
use common_types::{OutOfMemory, TryClone};
use grant_core::Path;
use network_core::Network;
use rights_core::{MAX_GRANTS, Rights};
use std::alloc::{AllocError, Global};
use verdict_core::{ClassCall, can_read, can_write, covers};

/// The call of a method of the table.
fn known_call(alloc: Global, method: &ClassMethod) -> Result<ClassCall, OutOfMemory> {
    let flags = method.flags();
    let words = StatedWords {
        class: method.class(),
        method: method.method(),
        reads: flags.reads,
        writes: flags.writes,
        listed: is_listed(method.class().as_bytes(), default_list()),
    };
    call_by(alloc, words)
}

/// A call of each method of Ceph's class table, on the default list as its class is.
pub fn known_calls(alloc: Global) -> Result<Vec<ClassCall>, OutOfMemory> {
    let mut calls = Vec::new(alloc);
    for method in methods(alloc)?.as_slice() {
        calls.push(known_call(alloc, method)?)?;
    }
    Ok(calls)
}

/// Whether an access covers one of these calls whose method reads.
fn covers_reading(access: &Access, calls: &[ClassCall]) -> bool
    ensures { result ≡ list_any (λ call. call.class_reads && spec.covers access.now call) calls.now }
{
    calls
        .iter()
        .any(|call| call.class_reads && covers(access, call))
}

/// Whether an access covers one of these calls whose method writes.
fn covers_writing(access: &Access, calls: &[ClassCall]) -> bool
    ensures { result ≡ list_any (λ call. call.class_writes && spec.covers access.now call) calls.now }
{
    calls
        .iter()
        .any(|call| call.class_writes && covers(access, call))
}

/// Flags by which methods are called for reading, or for writing, just where an access covers one of these calls that does so. Who
/// shares what, over every registry, is by these flags what it is by the access over these calls.
fn limited(access: &Access, calls: &[ClassCall]) -> Access
    ensures reads { spec.can_read result ≡ spec.can_read access.now }
    ensures writes { spec.can_write result ≡ spec.can_write access.now }
    ensures calls_reading { (x : ClassCall) → x.listed ≡ true → x.class_reads ≡ true → x.class_writes ≡ false → spec.covers result x ≡ list_any (λ call. call.class_reads && spec.covers access.now call) calls.now }
    ensures calls_writing { (x : ClassCall) → x.listed ≡ true → x.class_reads ≡ false → x.class_writes ≡ true → spec.covers result x ≡ list_any (λ call. call.class_writes && spec.covers access.now call) calls.now }
{
    Access::Flags(Flags {
        read: can_read(access),
        write: can_write(access),
        class_read: covers_reading(access, calls),
        class_write: covers_writing(access, calls),
    })
}

/// A grant with another access.
pub(crate) fn with_access(grant: &AllowGrant, access: Access) -> Result<AllowGrant, OutOfMemory> {
    let mut changed = grant.copy()?;
    changed.access = access;
    Ok(changed)
}

/// The rights of these grants, of which there are no more than rights have.
pub(crate) fn rights_of(
    grants: Vec<(Path, AllowGrant)>,
    networks: Vec<Option<Network>>,
) -> Result<Rights, OutOfMemory> {
    if grants.len() > MAX_GRANTS {
        return Err(AllocError);
    }
    Ok(Rights::from_grants(grants, networks, None))
}

/// The rights whose grants give what these do where requests call these methods alone. They serve the question of what two share,
/// and no other.
pub fn limited_rights(
    alloc: Global,
    rights: &Rights,
    calls: &[ClassCall],
) -> Result<Rights, OutOfMemory> {
    let mut grants = Vec::new(alloc);
    let mut networks = Vec::new(alloc);
    for index in 0..rights.len() {
        if let Some((path, network, grant)) = rights.entry(index) {
            let grant = with_access(grant, limited(&grant.access, calls))?;
            grants.push((path.copy()?, grant))?;
            networks.push(network)?;
        }
    }
    rights_of(grants, networks)
}

/// Whether an access covers some call whose method reads, of any class registry.
fn covers_some_reading(access: &Access) -> bool {
    match access {
        Access::Flags(flags) => flags.class_read,
        Access::All | Access::Class { .. } => true,
    }
}

/// Whether an access covers some call whose method writes, of any class registry.
fn covers_some_writing(access: &Access) -> bool {
    match access {
        Access::Flags(flags) => flags.class_write,
        Access::All | Access::Class { .. } => true,
    }
}

/// Whether an access gives less where requests call these methods alone.
fn gives_less(access: &Access, calls: &[ClassCall]) -> bool {
    covers_some_reading(access) != covers_reading(access, calls)
        || covers_some_writing(access) != covers_writing(access, calls)
}

/// Whether rights give more than where requests call these methods alone.
pub fn gives_more(rights: &Rights, calls: &[ClassCall]) -> bool {
    for index in 0..rights.len() {
        if let Some((_, _, grant)) = rights.entry(index) {
            if gives_less(&grant.access, calls) {
                return true;
            }
        }
    }
    false
}
