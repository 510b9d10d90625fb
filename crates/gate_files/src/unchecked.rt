//! Entities that could not be checked, since their texts have faults.

use common_types::OutOfMemory;
use std::alloc::Global;
use verdict_text::{ReadEntity, TextFault, push_fault_number, push_name};

/// An entity that could not be checked, and the fault of its text.
pub struct Unchecked {
    pub name: String,
    pub fault: TextFault,
}

impl Drop for Unchecked {
    fn drop(self) {
        let Unchecked { name: _, fault: _ } = self;
    }
}

/// The entities whose texts have faults, in their order.
pub(crate) fn all_unchecked(
    alloc: Global,
    entities: &[ReadEntity],
) -> Result<Vec<Unchecked>, OutOfMemory> {
    let mut all = Vec::new(alloc);
    for entity in entities {
        if let Err(fault) = entity.osd.read() {
            let name = entity.name.clone()?;
            let fault = *fault;
            all.push(Unchecked { name, fault })?;
        }
    }
    Ok(all)
}

/// Adds an entity's name and the number of its fault, behind a comma if it is not the first.
fn push_unchecked(
    line: &mut String,
    alloc: Global,
    unchecked: &Unchecked,
) -> Result<(), OutOfMemory> {
    if !line.is_empty() {
        line.push_str(", ")?;
    }
    push_name(line, unchecked.name.as_str())?;
    line.push_str(" (")?;
    push_fault_number(line, alloc, unchecked.fault)?;
    line.push_str(")")
}

/// A line on the entities that could not be checked, empty if all could be checked.
pub(crate) fn unchecked_line(
    alloc: Global,
    unchecked: &[Unchecked],
) -> Result<String, OutOfMemory> {
    let mut names = String::new(alloc);
    for entity in unchecked {
        push_unchecked(&mut names, alloc, entity)?;
    }
    match unchecked.len() {
        0 => Ok(String::new(alloc)),
        1 => format!(in alloc; "osdgate: 1 entity is not checked: {names}\n"),
        count => format!(in alloc; "osdgate: {count} entities are not checked: {names}\n"),
    }
}
