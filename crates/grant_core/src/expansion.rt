//! Lists of grants are expanded.

ghost use Rattle.std.specs.Prelude.{◌≡◌, ◌≤◌, ◌++◌, [], ◌∷◌, length, map, IfOk, OnOk};
ghost use Rattle.grant_core.specs.Flat.{filled, filled_use, flat, numbered, under};
ghost use Rattle.grant_core.specs.Flat as spec;
ghost use Rattle.grant_core.specs.Found.{parts_before};
ghost use Rattle.common_types.specs.Refused.{RefusedFirst};
ghost use Rattle.grant_core.specs.Refusal.{expand_refusal};
ghost use Rattle.grant_core.specs.Table.{table_of, IsSized};
ghost use Rattle.grant_core.specs.Tree.{below};

use crate::fault::ExpandFault;
use crate::filling::{filled_allow, filled_use};
use crate::path::Path;
use crate::refusal::check_list;
use crate::table::{Profile, ProfileTable, find_before};
use crate::tree::GrantTree;
use cap_text::{AllowGrant, CapList, Grant, ProfileUse};
use common_types::{Name, OutOfMemory};
use indexmap::IndexMap;
use std::alloc::Global;

/// Expands a list of grants with a table: each use of a profile is replaced by the profile's grants.
///
/// A profile's grant that has no pool of its own is filled with the use's pool and namespace. The time is linear in the
/// grants of the list and in those that it expands to, since a use that expands to nothing is skipped.
///
/// It is refused by the first of these that holds: the first grant that uses an unknown profile; more than 256 grants.
pub fn expand(alloc: Global, table: &ProfileTable, list: &CapList) -> Result<GrantTree, ExpandFault>
    ensures tree { IfOk result (λ tree. tree ≡ flat table.now list.now) }
    ensures few { IfOk result (λ tree. length tree ≤ 256) }
    ensures refused { RefusedFirst (expand_refusal table.now list.now) ExpandFault.OutOfMemory result }
{
    let profiles = table.profiles();
    check_list(profiles, list.grants())?;
    let grants = grow_list(alloc, profiles, list.grants())?;
    Ok(GrantTree::new(grants))
}

// Expands a list's grants with all profiles. The list is filled as the body of a use without pool and namespace.
fn grow_list(
    alloc: Global,
    profiles: &IndexMap<String, Profile>,
    list: &[Grant],
) -> Result<Vec<(Path, AllowGrant)>, OutOfMemory>
    requires sized { IsSized profiles.now.entries }
    requires few { length list.now ≤ 64 }
    ensures { IfOk result (λ grants. grants.items ≡ flat (table_of profiles.now.entries) list.now) }
{
    let nowhere = ProfileUse {
        name: Name::from_string(String::new(alloc)),
        pool: None,
        namespace: None,
    };
    let mut above = Vec::new(alloc);
    let mut grants = Vec::new(alloc);
    grow(
        profiles,
        profiles.len(),
        &nowhere,
        list,
        &mut above,
        &mut grants,
    )?;
    Ok(grants)
}

// Adds what the grants of a body expand to where it is used, with the profiles before a place. Their paths begin with
// the numbers above.
#[cycle(grow)]
fn grow(
    profiles: &IndexMap<String, Profile>,
    before: usize,
    used: &ProfileUse,
    body: &[Grant],
    above: &mut Vec<usize>,
    grants: &mut Vec<(Path, AllowGrant)>,
) -> Result<(), OutOfMemory>
    requires sized { IsSized profiles.now.entries }
    requires within { before ≤ length profiles.now.entries }
    requires few { length body.now ≤ 64 }
    ensures above { OnOk result (above.new.items ≡ above.old.items) }
    ensures grants { OnOk result (grants.new.items ≡ grants.old.items
        ++ map (below above.old.items) (numbered (parts_before profiles.now.entries before) 1 (map (filled used.now) body.now))) }
{
    for (i, grant) in body.iter().enumerate() {
        grow_one(profiles, before, used, i + 1, grant, above, grants)?;
    }
    Ok(())
}

// Adds what the grant with this number expands to.
#[cycle(grow)]
fn grow_one(
    profiles: &IndexMap<String, Profile>,
    before: usize,
    used: &ProfileUse,
    number: usize,
    grant: &Grant,
    above: &mut Vec<usize>,
    grants: &mut Vec<(Path, AllowGrant)>,
) -> Result<(), OutOfMemory>
    requires sized { IsSized profiles.now.entries }
    requires within { before ≤ length profiles.now.entries }
    ensures above { OnOk result (above.new.items ≡ above.old.items) }
    ensures grants { OnOk result (grants.new.items ≡ grants.old.items
        ++ map (below above.old.items) (numbered (parts_before profiles.now.entries before) number (filled used.now grant.now ∷ []))) }
{
    match grant {
        Grant::Allow(allow) => push_allow(used, number, allow, above, grants),
        Grant::Profile(inner) => grow_use(profiles, before, used, number, inner, above, grants),
    }
}

// Adds a grant of a body where that is used, with its path.
fn push_allow(
    used: &ProfileUse,
    number: usize,
    allow: &AllowGrant,
    above: &mut Vec<usize>,
    grants: &mut Vec<(Path, AllowGrant)>,
) -> Result<(), OutOfMemory>
    ensures above { OnOk result (above.new.items ≡ above.old.items) }
    ensures grants { OnOk result
        (grants.new.items ≡ grants.old.items ++ (above.old.items ++ number ∷ [], spec.filled_allow used.now allow.now) ∷ []) }
{
    above.push(number)?;
    let path = Path::of(*grants.allocator(), above.as_slice())?;
    grants.push((path, filled_allow(used, allow)?))?;
    above.pop();
    Ok(())
}

// Adds what a use in a body expands to where the body is used. The paths begin with the numbers above and its own.
#[cycle(grow)]
fn grow_use(
    profiles: &IndexMap<String, Profile>,
    before: usize,
    used: &ProfileUse,
    number: usize,
    inner: &ProfileUse,
    above: &mut Vec<usize>,
    grants: &mut Vec<(Path, AllowGrant)>,
) -> Result<(), OutOfMemory>
    requires sized { IsSized profiles.now.entries }
    requires within { before ≤ length profiles.now.entries }
    ensures above { OnOk result (above.new.items ≡ above.old.items) }
    ensures grants { OnOk result (grants.new.items ≡ grants.old.items
        ++ map (below above.old.items) (map (under number) (parts_before profiles.now.entries before (filled_use used.now inner.now)))) }
{
    let Some((earlier, profile)) = find_before(profiles, &inner.name, before) else {
        return Ok(());
    };
    if profile.size == 0 {
        return Ok(());
    }
    let inner = filled_use(used, inner)?;
    above.push(number)?;
    grow(
        profiles,
        earlier,
        &inner,
        profile.body.grants(),
        above,
        grants,
    )?;
    above.pop();
    Ok(())
}
