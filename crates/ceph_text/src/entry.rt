//! Grants that a list expands to.

ghost use Rattle.std.specs.Prelude.{◌≡◌};

use cap_text::AllowGrant;
use common_types::Name;
use grant_core::Path;

/// A grant that a list expands to, with its path and the network of the list's grant.
#[derive(Debug)]
pub struct CephEntry {
    pub path: Path,
    pub network: Option<Name>,
    pub grant: AllowGrant,
}

impl Drop for CephEntry {
    #[inline(always)]
    fn drop(self) {
        let CephEntry {
            path: _,
            network: _,
            grant: _,
        } = self;
    }
}

impl CephEntry {
    /// The path, the network's text and the grant. It takes no memory.
    pub fn into_parts(self) -> (Path, Option<Name>, AllowGrant)
        ensures { result ≡ (self.path, self.network, self.grant) }
    {
        let CephEntry {
            path,
            network,
            grant,
        } = self;
        (path, network, grant)
    }
}
