//! The rows of a page: entities with one text are one row.

use crate::escaping::push_escaped;
use audit_text::{Reached, is_alike, is_first};
use common_types::OutOfMemory;
use std::alloc::Global;
use std::fmt::Write;

/// A row: the first of its entities, and how many it has.
#[derive(Drop)]
pub(crate) struct Row<'m, 'a> {
    /// The first entity's index among those that were checked, by which the page names the row.
    pub(crate) number: usize,
    pub(crate) first: &'m Reached<'a>,
    pub(crate) count: usize,
}

/// The rows of entities, in the order of the first of each.
pub(crate) fn rows_of<'m, 'a>(
    alloc: Global,
    all: &'m [Reached<'a>],
) -> Result<Vec<Row<'m, 'a>>, OutOfMemory> {
    let mut rows = Vec::new(alloc);
    for (number, first) in all.iter().enumerate() {
        if is_first(all, first) {
            let count = all.iter().filter(|other| is_alike(first, other)).count();
            rows.push(Row {
                number,
                first,
                count,
            })?;
        }
    }
    Ok(rows)
}

/// Adds the name of a row, and how many entities it has if they are several.
pub(crate) fn push_row_name(text: &mut String, row: &Row<'_, '_>) -> Result<(), OutOfMemory> {
    push_escaped(text, row.first.entity.name.as_str())?;
    match row.count {
        0 | 1 => Ok(()),
        count => write!(text, " <span class=\"more\">one of {count}</span>"),
    }
}
