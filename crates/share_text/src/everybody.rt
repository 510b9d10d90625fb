//! Those who read and write every object of every pool.

ghost use Rattle.std.specs.Prelude.{◌≡◌, ◌++◌, [], map, string_bytes, length, take, IfOk, OnOk};
ghost use Rattle.std.specs.List.{flat_map};
ghost use Rattle.serde_json.specs.Data.{string};
ghost use Rattle.verdict_text.specs.Documents.{piece};
ghost use Rattle.share_text.specs.Everybody as spec;
ghost use Rattle.share_text.specs.Everybody.{IsEverybodyTold, everybody};

use crate::holder::Holder;
use crate::tenants::{Tenant, lives_of, tenants_of};
use common_types::OutOfMemory;
use serde_json::Value;
use std::alloc::Global;
use std::fmt::Write;
use verdict_text::{Format, list_by, piece_of, push_name};

/// How many names are printed of more.
const FEW: usize = 3;

/// The names of those who reach every object.
fn names_of<'a>(alloc: Global, tenants: &[Tenant<'a>]) -> Result<Vec<&'a str>, OutOfMemory>
    ensures { IfOk result (λ names. map (λ name. name.now) names.items ≡ everybody tenants.now) }
{
    let mut names = Vec::new(alloc);
    for tenant in tenants {
        if tenant.everywhere {
            names.push(tenant.name)?;
        }
    }
    Ok(names)
}

/// Adds names with commas between them.
fn push_names(text: &mut String, names: &[&str]) -> Result<(), OutOfMemory>
    ensures { OnOk result (string_bytes text.new ≡ string_bytes text.old ++ spec.listed [] (map (λ name. name.now) names.now)) }
{
    let mut words = "";
    for name in names {
        text.push_str(words)?;
        push_name(text, *name)?;
        words = ", ";
    }
    Ok(())
}

/// Adds how many more there are than the first few.
fn push_more(text: &mut String, count: usize) -> Result<(), OutOfMemory>
    ensures { OnOk result (string_bytes text.new ≡ string_bytes text.old ++ spec.more count) }
{
    if count <= FEW {
        return Ok(());
    }
    let more = count - FEW;
    write!(text, " and {more} more")
}

/// The words for what this number of entities does.
fn doing(count: usize) -> &'static str
    ensures { result.now ≡ spec.doing count }
{
    if count <= 1 {
        " reads and writes every object of every pool, its pairs are left out\n"
    } else {
        " read and write every object of every pool, their pairs are left out\n"
    }
}

/// The line of some names. Without names it is empty.
fn everybody_line(alloc: Global, names: &[&str]) -> Result<String, OutOfMemory>
    ensures { IfOk result (λ text. string_bytes text ≡ spec.everybody_line (map (λ name. name.now) names.now)) }
{
    let mut text = String::new(alloc);
    if names.is_empty() {
        return Ok(text);
    }
    let few = names.len().min(FEW);
    push_names(&mut text, &names[..few])?;
    push_more(&mut text, names.len())?;
    text.push_str(doing(names.len()))?;
    Ok(text)
}

/// A name as a piece of a list.
fn name_piece(alloc: Global, name: &str) -> Result<String, OutOfMemory>
    ensures { IfOk result (λ text. string_bytes text ≡ piece (string name.now)) }
{
    let name = Value::from(String::from_str(alloc, name)?);
    piece_of(alloc, &name)
}

/// Names as pieces of a list.
fn name_pieces(alloc: Global, names: &[&str]) -> Result<String, OutOfMemory>
    ensures { IfOk result (λ text. string_bytes text ≡ flat_map (λ name. piece (string name)) (map (λ name. name.now) names.now)) }
{
    let mut pieces = String::new(alloc);
    for name in names {
        let piece = name_piece(alloc, *name)?;
        pieces.push_str(piece.as_str())?;
    }
    Ok(pieces)
}

/// Names as a line or as a document.
fn everybody_by(alloc: Global, format: Format, names: &[&str]) -> Result<String, OutOfMemory>
    ensures { IfOk result (λ text. string_bytes text ≡ spec.everybody_by format (map (λ name. name.now) names.now)) }
{
    match format {
        Format::Text => everybody_line(alloc, names),
        Format::Json => {
            let pieces = name_pieces(alloc, names)?;
            list_by(alloc, "everybody", pieces, Format::Json)
        }
    }
}

/// What the program prints of the entities that read and write every object of every pool. Each shares something with each
/// other one that reads or writes anything.
///
/// The line has the names of up to three of them, and then how many more there are. Without such an entity there is no line. As a
/// document it has the member `everybody`, a list of all their names.
///
/// An entity reads and writes every object if its grants allow each read by itself and each write by itself, whatever the pool,
/// its tags, the namespace and the object. A grant counts at the addresses of its network.
///
/// An entity whose text has no rights is left out. Names are written by [`verdict_text::push_name`].
/// The only error is `OutOfMemory`, which leaves nothing. Time grows with the number of grants. The lines are this project's
/// profile.
pub fn everybody_entities(
    alloc: Global,
    entities: &[Holder<'_>],
    format: Format,
) -> Result<String, OutOfMemory>
    ensures { IfOk result (λ text. IsEverybodyTold format entities.now (string_bytes text)) }
{
    let lives = lives_of(alloc, entities)?;
    let tenants = tenants_of(alloc, lives.as_slice())?;
    let names = names_of(alloc, tenants.as_slice())?;
    everybody_by(alloc, format, names.as_slice())
}
