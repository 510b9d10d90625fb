//! What the gate says of a logged request by the text of a file.

use crate::agreement::{Agreement, agreement_with};
use crate::decided::Decided;
use common_types::OutOfMemory;
use std::alloc::Global;
use verdict_text::{Reading, TextFault};

/// What the gate says of a logged request by the entity's text in a file.
#[derive(Clone, Copy, Debug)]
pub enum Standing {
    /// The file has no such entity.
    NoEntity,
    /// The text is refused, so it grants nothing.
    Refused(TextFault),
    /// The verdict stands to the decision like this.
    Judged(Agreement),
}

impl Standing {
    /// The word of a document for it.
    pub fn word(&self) -> &'static str {
        match self {
            Standing::NoEntity => "no entity",
            Standing::Refused(_) => "refused",
            Standing::Judged(Agreement::Agrees) => "agrees",
            Standing::Judged(Agreement::Differs) => "differs",
            Standing::Judged(Agreement::Depends) => "depends",
        }
    }

    /// Whether the gate decides otherwise than the OSD did.
    pub fn differs(&self) -> bool {
        matches!(self, Standing::Judged(Agreement::Differs))
    }

    /// Whether the decision could not be compared with the gate's.
    pub fn is_unchecked(&self) -> bool {
        matches!(
            self,
            Standing::NoEntity | Standing::Refused(_) | Standing::Judged(Agreement::Depends)
        )
    }
}

/// What the gate says of a logged request by a text that was read, if there is one.
pub fn standing_of(
    alloc: Global,
    read: Option<&Reading>,
    decided: &Decided,
) -> Result<Standing, OutOfMemory> {
    match read {
        None => Ok(Standing::NoEntity),
        Some(Err(fault)) => Ok(Standing::Refused(*fault)),
        Some(Ok(rights)) => Ok(Standing::Judged(agreement_with(alloc, rights, decided)?)),
    }
}
