//! Lists of grants are expanded by Ceph's table of profiles.

ghost use Rattle.std.specs.Prelude.{◌≡◌, ◌≤◌, ◌<◌, ◌++◌, length, map, IfOk, IfErr, OnOk};
ghost use Rattle.ceph_text.specs.Profiles as spec;
ghost use Rattle.ceph_text.specs.Expanded.{IsExpandFault};
ghost use Rattle.ceph_text.specs.Rows.{row_of};

use crate::entry::CephEntry;
use crate::fault::CephFault;
use crate::grant::CephGrant;
use crate::list::CephList;
use crate::owned;
use crate::row::{Row, Scope, rbd, rbd_read_only, read_only, read_write};
use cap_text::{AllowGrant, Grant, NsMatch, ProfileUse, copy_namespace};
use common_types::{Name, OutOfMemory, copy_name};
use grant_core::Path;
use std::alloc::Global;

/// The most grants that a list expands to.
const MAX_ENTRIES: usize = 16_384;

/// The pool of a profile's grant where it is used.
fn pool_in(scope: Scope, used: &ProfileUse) -> Result<Option<Name>, OutOfMemory>
    ensures { IfOk result (λ pool. pool ≡ spec.pool_in scope used.now) }
{
    match scope {
        Scope::Everywhere => Ok(None),
        Scope::EmptyNamespace | Scope::WhereUsed => copy_name(&used.pool),
    }
}

/// The namespaces of a profile's grant where it is used.
fn namespace_in(
    alloc: Global,
    scope: Scope,
    used: &ProfileUse,
) -> Result<Option<NsMatch>, OutOfMemory>
    ensures { IfOk result (λ namespace. namespace ≡ spec.namespace_in scope used.now) }
{
    match scope {
        Scope::Everywhere => Ok(None),
        Scope::EmptyNamespace => Ok(Some(NsMatch::Exact(Name::new(alloc, "")?))),
        Scope::WhereUsed => copy_namespace(&used.namespace),
    }
}

/// A profile's grant where it is used.
fn filled(alloc: Global, used: &ProfileUse, row: &Row) -> Result<AllowGrant, OutOfMemory>
    ensures { IfOk result (λ grant. grant ≡ spec.filled used.now (row_of row.now)) }
{
    Ok(AllowGrant {
        access: owned::access(alloc, &row.access)?,
        pool: pool_in(row.scope, used)?,
        namespace: namespace_in(alloc, row.scope, used)?,
        prefix: owned::name(alloc, &row.prefix)?,
        tag: None,
    })
}

/// Adds a profile's grants, under the number of its use.
fn push_rows(
    alloc: Global,
    out: &mut Vec<CephEntry>,
    number: usize,
    network: &Option<Name>,
    used: &ProfileUse,
    rows: &[Row],
) -> Result<(), OutOfMemory>
    requires { length rows.now ≤ 5 }
    ensures { OnOk result (out.new.items ≡ out.old.items ++ spec.entries_of_rows number network.now used.now 1 (map row_of rows.now)) }
{
    let mut part = 0;
    for row in rows {
        part += 1;
        out.push(CephEntry {
            path: Path::of(alloc, &[number, part])?,
            network: copy_name(network)?,
            grant: filled(alloc, used, row)?,
        })?;
    }
    Ok(())
}

/// Adds what a use of a profile expands to.
fn push_use(
    alloc: Global,
    out: &mut Vec<CephEntry>,
    number: usize,
    network: &Option<Name>,
    used: &ProfileUse,
) -> Result<(), OutOfMemory>
    ensures { OnOk result (out.new.items ≡ out.old.items ++ spec.entries_of_rows number network.now used.now 1 (spec.rows used.now.name)) }
{
    match used.name.as_str() {
        "rbd" => push_rows(alloc, out, number, network, used, &rbd()),
        "rbd-read-only" => push_rows(alloc, out, number, network, used, &rbd_read_only()),
        "read-only" => push_rows(alloc, out, number, network, used, &read_only()),
        "read-write" => push_rows(alloc, out, number, network, used, &read_write()),
        _ => Ok(()),
    }
}

/// Adds what a grant expands to.
fn push_grant(
    alloc: Global,
    out: &mut Vec<CephEntry>,
    number: usize,
    grant: &CephGrant,
) -> Result<(), OutOfMemory>
    ensures { OnOk result (out.new.items ≡ out.old.items ++ spec.entries_of number grant.now.network grant.now.grant) }
{
    match &grant.grant {
        Grant::Allow(allow) => {
            out.push(CephEntry {
                path: Path::of(alloc, &[number])?,
                network: copy_name(&grant.network)?,
                grant: allow.copy()?,
            })?;
            Ok(())
        }
        Grant::Profile(used) => push_use(alloc, out, number, &grant.network, used),
    }
}

/// What a list expands to: each use of a profile is replaced by the grants that Ceph 16.2.15 makes of it, where the use says.
///
/// A grant has the number that it has in the list, and a profile's grant the number of the use and its own, such as `2.1`. A
/// profile of an unknown name grants nothing. The fault is `TooLarge` for more than 16,384 grants, or out of memory.
pub fn expand_ceph(alloc: Global, list: &CephList) -> Result<Vec<CephEntry>, CephFault>
    ensures entries { IfOk result (λ entries. entries.items ≡ spec.ceph_flat list.now) }
    ensures few { IfOk result (λ entries. length entries.items ≤ 16384) }
    ensures fault { IfErr result (λ fault. IsExpandFault list.now fault) }
{
    let grants = list.grants();
    let mut entries = Vec::new(alloc);
    let mut number = 0;
    for grant in grants {
        number += 1;
        push_grant(alloc, &mut entries, number, grant)?;
        if MAX_ENTRIES < entries.len() {
            return Err(CephFault::TooLarge);
        }
    }
    Ok(entries)
}

/// Whether Ceph knows a profile of this name.
pub fn is_known_profile(name: &Name) -> bool
    ensures { result ≡ spec.is_known name.now }
{
    matches!(
        name.as_str(),
        "rbd" | "rbd-read-only" | "read-only" | "read-write"
    )
}

fn uses_unknown(grant: &CephGrant) -> bool
    ensures { result ≡ spec.uses_unknown grant.now.grant }
{
    match &grant.grant {
        Grant::Allow(_) => false,
        Grant::Profile(used) => !is_known_profile(&used.name),
    }
}

/// The numbers, from 1, of the grants of a list that use a profile of an unknown name, which grants nothing.
pub fn unknown_profiles(alloc: Global, list: &CephList) -> Result<Vec<usize>, OutOfMemory>
    ensures { IfOk result (λ numbers. numbers.items ≡ spec.unknown_from 1 list.now) }
{
    let grants = list.grants();
    let mut numbers = Vec::new(alloc);
    let mut number = 0;
    for grant in grants {
        number += 1;
        if uses_unknown(grant) {
            numbers.push(number)?;
        }
    }
    Ok(numbers)
}
