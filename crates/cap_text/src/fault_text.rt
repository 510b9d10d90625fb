//! The printed form of a fault.

ghost use Rattle.std.specs.Prelude.{◌≡◌, Some};
ghost use Rattle.cap_text.specs.FaultText.{kind_text, fault_text};

use crate::fault::CapFault;
use cap_grants::FaultKind;
use std::error::Error;
use std::fmt;

/// The number and the name of a kind, as `C7 NetworkClause`.
fn kind_text(kind: FaultKind) -> &'static str
    ensures { result.now ≡ kind_text kind }
{
    match kind {
        FaultKind::TooLong => "C1 TooLong",
        FaultKind::TooManyGrants => "C2 TooManyGrants",
        FaultKind::UnknownWord => "C3 UnknownWord",
        FaultKind::BadAccess => "C4 BadAccess",
        FaultKind::BadMatch => "C5 BadMatch",
        FaultKind::BadWord => "C6 BadWord",
        FaultKind::NetworkClause => "C7 NetworkClause",
        FaultKind::OutOfMemory => "C8 OutOfMemory",
    }
}

/// Its number, its name and its position, as `C7 NetworkClause at 9`.
impl fmt::Display for CapFault {
    ghost output = { λ fault. Some (fault_text fault) };

    fn fmt<W: fmt::Write>(&self, f: &mut fmt::Formatter<W>) -> fmt::Result {
        let kind = kind_text(self.kind);
        let at = self.at;
        write!(f, "{kind} at {at}")
    }
}

impl Error for CapFault {}
