//! An audit as a text: under which rules it holds, the matrix, and lists below it.

ghost use Rattle.std.specs.Prelude.{◌≡◌, ◌≤◌, ◌++◌, IfOk, OnOk, flat_map, length, string_bytes};
ghost use Rattle.std.specs.List.{list_all};
ghost use Rattle.audit_text.specs.Reached.{members};
ghost use Rattle.audit_text.specs.Report as spec;
ghost use Rattle.audit_text.specs.Report.{IsReport};

use crate::lines::{lines_of, push_label};
use crate::matrix::push_matrix;
use crate::reached::{Reached, is_alike, is_first, reached_by, row_count};
use audit_core::{Cell, Extent};
use common_types::OutOfMemory;
use share_core::Pool;
use std::alloc::Global;
use std::fmt::Write;
use verdict_text::{ReadEntity, Rules, push_name};

/// What stands below the rules.
const LEGEND: &str =
    ". These are osd capabilities alone: what an entity\nmay ask of mon, mgr and mds is not looked at.\nr reads, w writes, l lists, x calls methods of listed classes: plain where every\nobject of every namespace, in brackets where some. * is every request, - none.\n\n";

/// The words that say which rules hold.
fn rules_words(rules: Rules) -> &'static str
    ensures { result.now ≡ spec.rules_words rules }
{
    match rules {
        Rules::Ceph => "By the rules of Ceph 16.2.15",
        Rules::Project => "By this project's rules",
    }
}

/// The lines above the matrix.
fn head(alloc: Global, rules: Rules) -> Result<String, OutOfMemory>
    ensures { IfOk result (λ text. string_bytes text ≡ spec.head rules) }
{
    let mut text = String::from_str(alloc, rules_words(rules))?;
    text.push_str(LEGEND)?;
    Ok(text)
}

/// Adds a title with the lines below it, or with the word none where no line follows.
fn push_section(text: &mut String, title: &str, lines: &str) -> Result<(), OutOfMemory>
    ensures { OnOk result (string_bytes text.new ≡ string_bytes text.old ++ spec.section title.now lines.now) }
{
    text.push_str(title)?;
    if lines.is_empty() {
        return text.push_str(": none\n");
    }
    text.push_str(":\n")?;
    text.push_str(lines)
}

/// Adds the line of an entity, if its text is refused.
fn push_unread(text: &mut String, entity: &ReadEntity) -> Result<(), OutOfMemory>
    ensures { OnOk result (string_bytes text.new ≡ string_bytes text.old ++ spec.unread_line entity.now entity.now.osd.read) }
{
    match entity.osd.read() {
        Ok(_) => Ok(()),
        Err(fault) => {
            text.push_str("  ")?;
            push_name(text, entity.name.as_str())?;
            write!(text, " {fault}\n")
        }
    }
}

fn unread_lines(alloc: Global, entities: &[ReadEntity]) -> Result<String, OutOfMemory>
    ensures { IfOk result (λ text. string_bytes text ≡ spec.unread_lines entities.now) }
{
    let mut text = String::new(alloc);
    for entity in entities {
        push_unread(&mut text, entity)?;
    }
    Ok(text)
}

fn is_something(extent: Extent) -> bool
    ensures { result ≡ spec.is_something extent }
{
    match extent {
        Extent::Nothing => false,
        Extent::Part | Extent::Whole => true,
    }
}

fn all_reach(cells: &[Cell]) -> bool
    ensures { result ≡ list_all (λ cell. spec.is_something cell.any) cells.now }
{
    cells.iter().all(|cell| is_something(cell.any))
}

/// Whether there are cells, and each has a letter.
pub fn is_everywhere(cells: &[Cell]) -> bool
    ensures { result ≡ spec.is_everywhere cells.now }
{
    !cells.is_empty() && all_reach(cells)
}

/// Adds the label of the row of an entity.
fn push_row_label(
    text: &mut String,
    all: &[Reached<'_>],
    one: &Reached<'_>,
) -> Result<(), OutOfMemory>
    ensures { OnOk result (string_bytes text.new ≡ string_bytes text.old ++ spec.row_label all.now one.now) }
{
    push_label(text, one.entity.name.as_str(), row_count(all, one))
}

/// Adds the line of a row that reaches every pool.
fn push_everywhere(
    text: &mut String,
    all: &[Reached<'_>],
    one: &Reached<'_>,
) -> Result<(), OutOfMemory>
    ensures { OnOk result (string_bytes text.new ≡ string_bytes text.old ++ spec.everywhere_line all.now one.now) }
{
    if is_first(all, one) && is_everywhere(one.cells.as_slice()) {
        text.push_str("  ")?;
        push_row_label(text, all, one)?;
        return text.push_str("\n");
    }
    Ok(())
}

fn everywhere_lines(alloc: Global, all: &[Reached<'_>]) -> Result<String, OutOfMemory>
    ensures { IfOk result (λ text. string_bytes text ≡ spec.everywhere_lines all.now) }
{
    let mut text = String::new(alloc);
    for one in all {
        push_everywhere(&mut text, all, one)?;
    }
    Ok(text)
}

fn may_write(cell: &Cell) -> bool
    ensures { result ≡ spec.may_write cell.now }
{
    is_something(cell.write) || is_something(cell.call)
}

/// Whether an entity may not write in the pool of a number.
fn leaves_unwritten(one: &Reached<'_>, number: usize) -> bool
    ensures { result ≡ spec.leaves_unwritten number one.now }
{
    match one.cells.as_slice().get(number) {
        None => true,
        Some(cell) => !may_write(cell),
    }
}

/// Whether no entity may write in the pool of a number, nor call a method of a listed class.
pub fn is_unwritten(all: &[Reached<'_>], number: usize) -> bool
    ensures { result ≡ spec.is_unwritten all.now number }
{
    all.iter().all(|one| leaves_unwritten(one, number))
}

/// Adds the line of a pool in which nobody may write.
fn push_unwritten(
    text: &mut String,
    all: &[Reached<'_>],
    number: usize,
    pool: &Pool,
) -> Result<(), OutOfMemory>
    ensures { OnOk result (string_bytes text.new ≡ string_bytes text.old ++ spec.unwritten_line all.now number pool.now) }
{
    if is_unwritten(all, number) {
        text.push_str("  ")?;
        push_name(text, pool.name.as_str())?;
        return text.push_str("\n");
    }
    Ok(())
}

fn unwritten_lines(
    alloc: Global,
    all: &[Reached<'_>],
    pools: &[Pool],
) -> Result<String, OutOfMemory>
    ensures { IfOk result (λ text. string_bytes text ≡ spec.unwritten_lines all.now 0 pools.now) }
{
    let mut text = String::new(alloc);
    for (number, pool) in pools.iter().enumerate() {
        push_unwritten(&mut text, all, number, pool)?;
    }
    Ok(text)
}

/// Adds the names in a row.
fn push_names(text: &mut String, all: &[Reached<'_>], one: &Reached<'_>) -> Result<(), OutOfMemory>
    ensures { OnOk result (string_bytes text.new ≡ string_bytes text.old ++ flat_map spec.member_name (members all.now one.now)) }
{
    for other in all {
        if is_alike(one, other) {
            text.push_str(" ")?;
            push_name(text, other.entity.name.as_str())?;
        }
    }
    Ok(())
}

/// Adds the line of a row, if it has several entities.
fn push_members(
    text: &mut String,
    all: &[Reached<'_>],
    one: &Reached<'_>,
) -> Result<(), OutOfMemory>
    ensures { OnOk result (string_bytes text.new ≡ string_bytes text.old ++ spec.member_line all.now one.now) }
{
    if is_first(all, one) && row_count(all, one) > 1 {
        text.push_str("  ")?;
        push_row_label(text, all, one)?;
        text.push_str(":")?;
        push_names(text, all, one)?;
        return text.push_str("\n");
    }
    Ok(())
}

fn member_lines(alloc: Global, all: &[Reached<'_>]) -> Result<String, OutOfMemory>
    ensures { IfOk result (λ text. string_bytes text ≡ spec.member_lines all.now) }
{
    let mut text = String::new(alloc);
    for one in all {
        push_members(&mut text, all, one)?;
    }
    Ok(text)
}

/// Adds the lists below the matrix.
fn push_lists(
    text: &mut String,
    alloc: Global,
    entities: &[ReadEntity],
    pools: &[Pool],
    all: &[Reached<'_>],
) -> Result<(), OutOfMemory>
    ensures { OnOk result (string_bytes text.new ≡ string_bytes text.old ++ spec.lists entities.now pools.now all.now) }
{
    let unread = unread_lines(alloc, entities)?;
    push_section(
        text,
        "Not checked, so that they may reach more",
        unread.as_str(),
    )?;
    let everywhere = everywhere_lines(alloc, all)?;
    push_section(text, "Entities that reach every pool", everywhere.as_str())?;
    let unwritten = unwritten_lines(alloc, all, pools)?;
    push_section(
        text,
        "Pools where no checked entity may write or call",
        unwritten.as_str(),
    )?;
    let members = member_lines(alloc, all)?;
    push_section(text, "Rows of several entities", members.as_str())
}

/// An audit of some entities and pools as a text: under which rules it holds, what the letters say, a matrix with a row for each
/// entity and a column for each pool, in their orders, and lists below it. Entities with one text are one row, with their number
/// behind the first name; a list below names them. The columns are in blocks that fit into a width, in bytes.
///
/// An entity whose text is refused has no row and stands in a list of its own. Names are written by
/// [`verdict_text::push_name`]. The only error is out of memory.
pub fn audit_text(
    alloc: Global,
    rules: Rules,
    width: usize,
    entities: &[ReadEntity],
    pools: &[Pool],
) -> Result<String, OutOfMemory>
    ensures { IfOk result (λ text. IsReport rules width entities.now pools.now (string_bytes text)) }
{
    let all = reached_by(alloc, entities, pools)?;
    let all = all.as_slice();
    let lines = lines_of(alloc, pools, all)?;
    let mut text = head(alloc, rules)?;
    push_matrix(&mut text, alloc, width, pools, lines.as_slice())?;
    push_lists(&mut text, alloc, entities, pools, all)?;
    Ok(text)
}
