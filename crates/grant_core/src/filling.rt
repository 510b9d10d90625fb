//! The grants of a profile's body, where the profile is used.

ghost use Rattle.std.specs.Prelude.{◌≡◌, IfOk};
ghost use Rattle.grant_core.specs.Flat.{filled_allow, filled_use};

use cap_text::{AllowGrant, ProfileUse, copy_namespace};
use common_types::{OutOfMemory, copy_name};

/// An allow with what it takes from the use: one with a pool of its own takes nothing.
pub(crate) fn filled_allow(used: &ProfileUse, grant: &AllowGrant) -> Result<AllowGrant, OutOfMemory>
    ensures { IfOk result (λ grant'. grant' ≡ filled_allow used.now grant.now) }
{
    let mut filled = grant.copy()?;
    if filled.pool.is_none() {
        filled.pool = copy_name(&used.pool)?;
        if filled.namespace.is_none() {
            filled.namespace = copy_namespace(&used.namespace)?;
        }
    }
    Ok(filled)
}

/// A use with what it takes from the use around it: one with a pool of its own takes nothing.
pub(crate) fn filled_use(used: &ProfileUse, inner: &ProfileUse) -> Result<ProfileUse, OutOfMemory>
    ensures { IfOk result (λ inner'. inner' ≡ filled_use used.now inner.now) }
{
    let mut filled = inner.copy()?;
    if filled.pool.is_none() {
        filled.pool = copy_name(&used.pool)?;
        if filled.namespace.is_none() {
            filled.namespace = copy_namespace(&used.namespace)?;
        }
    }
    Ok(filled)
}
