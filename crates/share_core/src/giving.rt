//! What an access gives, wherever its grant matches.

ghost use Rattle.std.specs.Prelude.{◌≡◌};
ghost use Rattle.share_core.specs.Meeting as spec;

use crate::touches::Touch;
use cap_text::Access;
use verdict_core::{can_read, can_write, covers};

/// Whether an access covers some call whose method reads.
fn calls_reading(access: &Access) -> bool
    ensures { result ≡ spec.calls_reading access.now }
{
    match access {
        Access::All => true,
        Access::Flags(flags) => flags.class_read,
        Access::Class { .. } => true,
    }
}

/// Whether an access covers some call whose method writes.
fn calls_writing(access: &Access) -> bool
    ensures { result ≡ spec.calls_writing access.now }
{
    match access {
        Access::All => true,
        Access::Flags(flags) => flags.class_write,
        Access::Class { .. } => true,
    }
}

/// Whether an access gives a touch, wherever its grant matches.
pub(crate) fn gives(access: &Access, touch: &Touch) -> bool
    ensures { result ≡ spec.gives access.now touch.now }
{
    match touch {
        Touch::Read => can_read(access),
        Touch::Write => can_write(access),
        Touch::Call(call) => covers(access, call),
        Touch::AnyRead => can_read(access) || calls_reading(access),
        Touch::AnyWrite => can_write(access) || calls_writing(access),
    }
}
