//! Whether a profile may be added and a list expanded, which takes no memory.

ghost use Rattle.std.specs.Prelude.{◌≡◌, ◌<◌, ◌≤◌, ◌+◌, length, IfOk, OnOk, IfErr, None, Some, false};
ghost use Rattle.grant_core.specs.Flat.{flat};
ghost use Rattle.grant_core.specs.Refusal.{add_refusal, expand_refusal, first_fault};
ghost use Rattle.grant_core.specs.Refusal as spec;
ghost use Rattle.grant_core.specs.Table.{table_of, IsSized};

use crate::fault::ExpandFault;
use crate::table::{Profile, has_profile, size_of};
use cap_text::Grant;
use indexmap::IndexMap;

// The fault of the grant of a number in a list.
fn list_fault(
    profiles: &IndexMap<String, Profile>,
    number: usize,
    grant: &Grant,
) -> Option<ExpandFault>
    ensures { result ≡ spec.list_fault (table_of profiles.now.entries) number grant.now }
{
    match grant {
        Grant::Profile(used) if !has_profile(profiles, used.name.as_str()) => {
            Some(ExpandFault::UnknownProfile(number))
        }
        _ => None,
    }
}

// The fault of the grant of a number in a body.
fn body_fault(
    profiles: &IndexMap<String, Profile>,
    number: usize,
    grant: &Grant,
) -> Option<ExpandFault>
    ensures { result ≡ spec.body_fault (table_of profiles.now.entries) number grant.now }
{
    match grant {
        Grant::Allow(allow) if allow.tag.is_some() => Some(ExpandFault::TagInProfile(number)),
        _ => list_fault(profiles, number, grant),
    }
}

// The first fault of a list's grants.
fn first_list_fault(profiles: &IndexMap<String, Profile>, grants: &[Grant]) -> Option<ExpandFault>
    requires { length grants.now ≤ 64 }
    ensures { result ≡ first_fault (spec.list_fault (table_of profiles.now.entries)) 1 grants.now }
{
    for (i, grant) in grants.iter().enumerate() {
        if let Some(fault) = list_fault(profiles, i + 1, grant) {
            return Some(fault);
        }
    }
    None
}

// The first fault of a body's grants.
fn first_body_fault(profiles: &IndexMap<String, Profile>, body: &[Grant]) -> Option<ExpandFault>
    requires { length body.now ≤ 64 }
    ensures { result ≡ first_fault (spec.body_fault (table_of profiles.now.entries)) 1 body.now }
{
    for (i, grant) in body.iter().enumerate() {
        if let Some(fault) = body_fault(profiles, i + 1, grant) {
            return Some(fault);
        }
    }
    None
}

/// The number of grants that a profile expands to, if it may be added.
pub(crate) fn accepted_size(
    profiles: &IndexMap<String, Profile>,
    name: &str,
    body: &[Grant],
) -> Result<usize, ExpandFault>
    requires sized { IsSized profiles.now.entries }
    requires few { length body.now ≤ 64 }
    ensures size { IfOk result (λ size. (size ≡ length (flat (table_of profiles.now.entries) body.now)) × (size ≤ 256)) }
    ensures accepted { OnOk result (add_refusal (table_of profiles.now.entries) name.now body.now ≡ None) }
    ensures fresh { OnOk result (spec.has_profile (table_of profiles.now.entries) name.now ≡ false) }
    ensures room { OnOk result (length profiles.now.entries < 32) }
    ensures refused { IfErr result (λ fault. add_refusal (table_of profiles.now.entries) name.now body.now ≡ Some fault) }
{
    if has_profile(profiles, name) {
        return Err(ExpandFault::DuplicateProfile);
    }
    if profiles.len() >= 32 {
        return Err(ExpandFault::TooManyProfiles);
    }
    if let Some(fault) = first_body_fault(profiles, body) {
        return Err(fault);
    }
    let size = size_of(profiles, body);
    if size > 256 {
        return Err(ExpandFault::TooLarge);
    }
    Ok(size)
}

/// Whether a list may be expanded.
pub(crate) fn check_list(
    profiles: &IndexMap<String, Profile>,
    grants: &[Grant],
) -> Result<(), ExpandFault>
    requires sized { IsSized profiles.now.entries }
    requires few { length grants.now ≤ 64 }
    ensures accepted { OnOk result (expand_refusal (table_of profiles.now.entries) grants.now ≡ None) }
    ensures small { OnOk result (length (flat (table_of profiles.now.entries) grants.now) ≤ 256) }
    ensures refused { IfErr result (λ fault. expand_refusal (table_of profiles.now.entries) grants.now ≡ Some fault) }
{
    if let Some(fault) = first_list_fault(profiles, grants) {
        return Err(fault);
    }
    if size_of(profiles, grants) > 256 {
        return Err(ExpandFault::TooLarge);
    }
    Ok(())
}
