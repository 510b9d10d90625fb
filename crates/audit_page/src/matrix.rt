//! The matrix of a page: a table with a row for each text of entities, and a column for each pool.

use crate::escaping::push_escaped;
use crate::example::pool_word;
use crate::rows::{Row, push_row_name};
use audit_core::{Cell, Extent};
use audit_text::push_cell_word;
use common_types::OutOfMemory;
use share_core::Pool;
use std::alloc::Global;
use std::fmt::Write;

/// The most pools of a matrix that fits on paper.
const NARROW: usize = 12;

/// Adds the head of the column of a pool.
fn push_pool(text: &mut String, alloc: Global, pool: &Pool) -> Result<(), OutOfMemory> {
    text.push_str("<th scope=\"col\" data-w=\"")?;
    push_escaped(text, pool_word(alloc, pool)?.as_str())?;
    text.push_str("\"><span>")?;
    push_escaped(text, pool.name.as_str())?;
    text.push_str("</span></th>\n")
}

fn push_head(text: &mut String, alloc: Global, pools: &[Pool]) -> Result<(), OutOfMemory> {
    text.push_str("<thead><tr><th scope=\"col\"><span>entity</span></th>\n")?;
    for pool in pools {
        push_pool(text, alloc, pool)?;
    }
    text.push_str("</tr></thead>\n<tbody>\n")
}

/// The attribute by which a cell is coloured: writes and calls, reads alone, or nothing.
fn class_of(cell: &Cell) -> &'static str {
    if cell.any == Extent::Whole {
        " class=a"
    } else if cell.write != Extent::Nothing || cell.call != Extent::Nothing {
        " class=w"
    } else if cell.any != Extent::Nothing {
        " class=r"
    } else {
        ""
    }
}

/// Adds a cell. The next one ends it.
fn push_cell(text: &mut String, alloc: Global, cell: &Cell) -> Result<(), OutOfMemory> {
    let class = class_of(cell);
    write!(text, "<td{class}>")?;
    push_cell_word(text, alloc, cell)
}

fn push_row(text: &mut String, alloc: Global, row: &Row<'_, '_>) -> Result<(), OutOfMemory> {
    let number = row.number;
    write!(
        text,
        "<tr data-e=\"{number}\"><th scope=\"row\"><a href=\"#e{number}\">"
    )?;
    push_row_name(text, row)?;
    text.push_str("</a></th>")?;
    for cell in row.first.cells.as_slice() {
        push_cell(text, alloc, cell)?;
    }
    text.push_str("</tr>\n")
}

/// Adds the table of what each row reaches of each pool. A wide one is not printed on paper.
pub(crate) fn push_matrix(
    text: &mut String,
    alloc: Global,
    pools: &[Pool],
    rows: &[Row<'_, '_>],
) -> Result<(), OutOfMemory> {
    let width = if pools.len() > NARROW {
        "wide"
    } else {
        "narrow"
    };
    write!(
        text,
        "<div id=\"scroll\" class=\"{width}\" role=\"region\" aria-labelledby=\"caption\" tabindex=\"0\">\n"
    )?;
    text.push_str(
        "<table id=\"matrix\"><caption id=\"caption\">What each entity reaches of each pool</caption>\n",
    )?;
    push_head(text, alloc, pools)?;
    for row in rows {
        push_row(text, alloc, row)?;
    }
    text.push_str("</tbody></table></div>\n")?;
    if pools.len() > NARROW {
        text.push_str(
            "<p class=\"only-paper\">The matrix is too wide for paper: each entity is listed below.</p>\n",
        )?;
    }
    Ok(())
}
