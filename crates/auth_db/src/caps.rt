//! The texts of a user.

ghost use Rattle.std.specs.Prelude.{◌≡◌};
ghost use Rattle.auth_db.specs.Texts as spec;

use common_types::{Name, OutOfMemory, copy_name};

/// The most bytes that a text may have.
const MAX_LENGTH: usize = 4096;

/// A user's texts, one for each type of daemon. Only the osd text is read here; the others are kept as they are.
#[derive(Debug)]
pub struct Caps {
    /// What the user may ask of monitors.
    pub mon: Option<Name>,
    /// What the user may ask of managers.
    pub mgr: Option<Name>,
    /// What the user may ask of metadata servers.
    pub mds: Option<Name>,
    /// What the user may ask of object storage daemons.
    pub osd: Option<Name>,
}

impl Drop for Caps {
    fn drop(self) {
        let Caps {
            mon: _,
            mgr: _,
            mds: _,
            osd: _,
        } = self;
    }
}

impl Caps {
    ghost use Rattle.std.specs.Prelude.{◌≡◌, None, IfOk};
    ghost use Rattle.auth_db.specs.Texts.{has_no_text, are_same_caps, has_long_text};

    /// No texts. It takes no memory.
    pub fn none() -> Caps
        ensures mon { result.mon ≡ None }
        ensures mgr { result.mgr ≡ None }
        ensures mds { result.mds ≡ None }
        ensures osd { result.osd ≡ None }
    {
        Caps {
            mon: None,
            mgr: None,
            mds: None,
            osd: None,
        }
    }

    /// Equal texts.
    pub fn copy(&self) -> Result<Caps, OutOfMemory>
        ensures { IfOk result (λ caps. caps ≡ self.now) }
    {
        Ok(Caps {
            mon: copy_name(&self.mon)?,
            mgr: copy_name(&self.mgr)?,
            mds: copy_name(&self.mds)?,
            osd: copy_name(&self.osd)?,
        })
    }

    /// Whether no text is given.
    pub fn is_empty(&self) -> bool
        ensures { result ≡ has_no_text self.now }
    {
        self.mon.is_none() && self.mgr.is_none() && self.mds.is_none() && self.osd.is_none()
    }

    /// Whether all four texts are byte for byte the same.
    pub fn equals(&self, other: &Caps) -> bool
        ensures { result ≡ are_same_caps self.now other.now }
    {
        is_same_text(&self.mon, &other.mon)
            && is_same_text(&self.mgr, &other.mgr)
            && is_same_text(&self.mds, &other.mds)
            && is_same_text(&self.osd, &other.osd)
    }

    /// Whether some text is longer than a text may be.
    pub(crate) fn is_too_long(&self) -> bool
        ensures { result ≡ has_long_text self.now }
    {
        is_long_text(&self.mon)
            || is_long_text(&self.mgr)
            || is_long_text(&self.mds)
            || is_long_text(&self.osd)
    }
}

fn is_long_text(text: &Option<Name>) -> bool
    ensures { result ≡ spec.is_long_text text.now }
{
    match text {
        None => false,
        Some(text) => text.as_str().len() > MAX_LENGTH,
    }
}

fn is_same_text(a: &Option<Name>, b: &Option<Name>) -> bool
    ensures { result ≡ spec.is_same_text a.now b.now }
{
    match a {
        None => b.is_none(),
        Some(a) => match b {
            None => false,
            Some(b) => a.equals(b),
        },
    }
}
