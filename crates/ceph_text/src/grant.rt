//! Grants as Ceph reads them.

ghost use Rattle.std.specs.Prelude.{◌≡◌, IfOk};

use cap_text::Grant;
use common_types::{Name, OutOfMemory, copy_name};

/// A grant, and the network that it is limited to, as the text has it.
#[derive(Debug)]
pub struct CephGrant {
    pub grant: Grant,
    pub network: Option<Name>,
}

impl Drop for CephGrant {
    #[inline(always)]
    fn drop(self) {
        let CephGrant {
            grant: _,
            network: _,
        } = self;
    }
}

impl CephGrant {
    /// An equal grant.
    pub fn copy(&self) -> Result<CephGrant, OutOfMemory>
        ensures { IfOk result (λ grant. grant ≡ self.now) }
    {
        Ok(CephGrant {
            grant: self.grant.copy()?,
            network: copy_name(&self.network)?,
        })
    }
}
