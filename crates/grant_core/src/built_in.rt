//! The profiles that every table begins with.

ghost use Rattle.std.specs.Prelude.{◌≡◌, ◌++◌, [], ◌∷◌, true, IfOk, OnOk, None};
ghost use Rattle.std.specs.List.{list_all};
ghost use Rattle.cap_grants.specs.Spellable.{is_spellable};
ghost use Rattle.cap_grants.specs.declared.grant.Grant.TheVariants.{Profile};
ghost use Rattle.grant_core.specs.BuiltIn.{allow_flags, built_in, rbd_body};
ghost use Rattle.grant_core.specs.Refusal.{add_refusal};

use crate::fault::ExpandFault;
use crate::table::ProfileTable;
use cap_text::{Access, AllowGrant, CapList, Flags, Grant, ProfileUse};
use common_types::{Name, OutOfMemory};
use std::alloc::{AllocError, Global};

impl ProfileTable {
    /// The table of the four profiles that are always there: `read-only`, `read-write`, `rbd-read-only` and `rbd`.
    pub fn builtin(alloc: Global) -> Result<ProfileTable, OutOfMemory>
        ensures { IfOk result (λ table. table ≡ built_in) }
    {
        let mut table = ProfileTable::empty(alloc);
        add_built_in(alloc, &mut table)?;
        Ok(table)
    }
}

// Adds the four profiles to a table that has none.
fn add_built_in(alloc: Global, table: &mut ProfileTable) -> Result<(), OutOfMemory>
    requires { table.old ≡ [] }
    ensures { OnOk result (table.new ≡ built_in) }
{
    let read_only = body_of(alloc, allow_flags(true, false, false, false))?;
    add_free(table, "read-only", read_only)?;
    let read_write = body_of(alloc, allow_flags(true, true, false, false))?;
    add_free(table, "read-write", read_write)?;
    let rbd_read_only = body_of(alloc, allow_flags(true, false, true, false))?;
    add_free(table, "rbd-read-only", rbd_read_only)?;
    add_free(table, "rbd", rbd_body(alloc)?)
}

// Adds a profile. Its only possible fault is out of memory.
fn add_free(table: &mut ProfileTable, name: &str, body: CapList) -> Result<(), OutOfMemory>
    requires { add_refusal table.old name.now body ≡ None }
    ensures { OnOk result (table.new ≡ table.old ++ (name.now, body) ∷ []) }
{
    match table.add(name, body) {
        Ok(()) => Ok(()),
        Err(ExpandFault::OutOfMemory) => Err(AllocError),
        Err(_) => unreachable!(),
    }
}

// A body of one grant.
fn body_of(alloc: Global, grant: Grant) -> Result<CapList, OutOfMemory>
    requires { list_all is_spellable (grant ∷ []) ≡ true }
    ensures { IfOk result (λ body. body ≡ grant ∷ []) }
{
    let mut grants = Vec::new(alloc);
    grants.push(grant)?;
    Ok(CapList::from_vec(grants))
}

// The body of `rbd`.
fn rbd_body(alloc: Global) -> Result<CapList, OutOfMemory>
    ensures { IfOk result (λ body. body ≡ rbd_body) }
{
    let mut grants = Vec::new(alloc);
    grants.push(use_of(Name::new(alloc, "rbd-read-only")?))?;
    grants.push(allow_flags(true, true, true, true))?;
    Ok(CapList::from_vec(grants))
}

// An allow with these flags, everywhere.
fn allow_flags(read: bool, write: bool, class_read: bool, class_write: bool) -> Grant
    ensures { result ≡ allow_flags read write class_read class_write }
{
    Grant::Allow(AllowGrant {
        access: Access::Flags(Flags {
            read,
            write,
            class_read,
            class_write,
        }),
        pool: None,
        namespace: None,
        prefix: None,
        tag: None,
    })
}

// The use of a profile everywhere.
fn use_of(name: Name) -> Grant
    ensures { result ≡ Profile (record { name = name; pool = None; namespace = None }) }
{
    Grant::Profile(ProfileUse {
        name,
        pool: None,
        namespace: None,
    })
}
