//! Which entities may do what a request asks for.

ghost use Rattle.std.specs.Prelude.{◌≡◌, ◌++◌, true, false, IfOk, Ok, OnOk, flat_map, string_bytes};
ghost use Rattle.network_core.specs.declared.address.Address.{Address};
ghost use Rattle.verdict_text.specs.declared.verdict.Verdict.TheVariants.{Depends};
ghost use Rattle.verdict_text.specs.Documents.{entity_document, piece};
ghost use Rattle.who_text.specs.Who.{AreInOrder, AreTold, IsTold, IsWho, answer_lines, answered_by, answered_lines, calls_by, indented_line, listed, listed_by, name_line, told};

use common_types::OutOfMemory;
use grant_core::Path;
use network_core::Address;
use object_core::NeedsFault;
use std::alloc::{AllocError, Global};
use std::fmt::Write;
use verdict_core::Condition;
use verdict_text::{
    Answer, Asked, Format, Printed, ReadEntity, Verdict, answer_of, calls_json, entities_by,
    entity_piece, needs_asked, push_name,
};

/// Adds a line of a report, indented.
fn push_line(text: &mut String, line: &(Path, Condition)) -> Result<(), OutOfMemory>
    ensures { OnOk result (string_bytes text.new ≡ string_bytes text.old ++ indented_line line.now) }
{
    let path = &line.0;
    let condition = &line.1;
    write!(text, "  {path} {condition}\n")
}

/// Adds each line of a report, indented.
fn push_report(text: &mut String, lines: &[(Path, Condition)]) -> Result<(), OutOfMemory>
    ensures { OnOk result (string_bytes text.new ≡ string_bytes text.old ++ flat_map indented_line lines.now) }
{
    for line in lines {
        push_line(text, line)?;
    }
    Ok(())
}

/// Adds an answer, a denial's report indented.
fn push_answer(text: &mut String, answer: &Answer) -> Result<(), OutOfMemory>
    ensures { OnOk result (string_bytes text.new ≡ string_bytes text.old ++ answer_lines answer.now) }
{
    match answer {
        Ok(Verdict::Allowed) => text.push_str("allow\n"),
        Ok(Verdict::Denied(report)) => {
            text.push_str("deny\n")?;
            push_report(text, report.lines())
        }
        Ok(Verdict::Depends { allowed, denied }) => {
            write!(
                text,
                "depends\nallow --from {allowed}\ndeny --from {denied}\n"
            )
        }
        Err(fault) => write!(text, "refused {fault}\n"),
    }
}

/// Adds an entity's name and its answer.
fn push_answered(text: &mut String, name: &str, answer: &Answer) -> Result<(), OutOfMemory>
    ensures { OnOk result (string_bytes text.new ≡ string_bytes text.old ++ answered_lines name.now answer.now) }
{
    push_name(text, name)?;
    text.push_str(" ")?;
    push_answer(text, answer)
}

/// Adds the piece of an entity and its answer.
fn push_entity(
    text: &mut String,
    alloc: Global,
    name: &str,
    answer: &Answer,
) -> Result<(), OutOfMemory>
    ensures { OnOk result (string_bytes text.new ≡ string_bytes text.old ++ piece (entity_document name.now answer.now)) }
{
    let piece = entity_piece(alloc, name, answer)?;
    text.push_str(piece.as_str())
}

/// Adds an entity's name and its answer, as lines or as a piece of a document.
fn push_answered_by(
    text: &mut String,
    alloc: Global,
    name: &str,
    answer: &Answer,
    format: Format,
) -> Result<(), OutOfMemory>
    ensures { OnOk result (string_bytes text.new ≡ string_bytes text.old ++ answered_by format name.now answer.now) }
{
    match format {
        Format::Text => push_answered(text, name, answer),
        Format::Json => push_entity(text, alloc, name, answer),
    }
}

/// Adds the line of an entity's name.
fn push_name_line(text: &mut String, name: &str) -> Result<(), OutOfMemory>
    ensures { OnOk result (string_bytes text.new ≡ string_bytes text.old ++ name_line name.now) }
{
    push_name(text, name)?;
    text.push_str("\n")
}

/// Adds an entity that may.
fn push_listed_by(
    text: &mut String,
    alloc: Global,
    name: &str,
    format: Format,
) -> Result<(), OutOfMemory>
    ensures { OnOk result (string_bytes text.new ≡ string_bytes text.old ++ listed_by format name.now) }
{
    match format {
        Format::Text => push_name_line(text, name),
        Format::Json => push_entity(text, alloc, name, &Ok(Verdict::Allowed)),
    }
}

/// Adds an entity that may from some addresses alone, with one of them.
fn push_depending(
    text: &mut String,
    alloc: Global,
    name: &str,
    answer: &Answer,
    allowed: &Address,
    format: Format,
) -> Result<(), OutOfMemory>
    requires { (denied : Address) × (answer.now ≡ Ok (Depends allowed.now denied)) }
    ensures { OnOk result (string_bytes text.new ≡ string_bytes text.old ++ listed format name.now answer.now) }
{
    match format {
        Format::Text => {
            push_name(text, name)?;
            write!(text, " depends --from {allowed}\n")
        }
        Format::Json => push_entity(text, alloc, name, answer),
    }
}

/// Adds an entity, if its answer is that it may, or may from some addresses.
fn push_listed(
    text: &mut String,
    alloc: Global,
    name: &str,
    answer: &Answer,
    format: Format,
) -> Result<(), OutOfMemory>
    ensures { OnOk result (string_bytes text.new ≡ string_bytes text.old ++ listed format name.now answer.now) }
{
    match answer {
        Ok(Verdict::Allowed) => push_listed_by(text, alloc, name, format),
        Ok(Verdict::Depends { allowed, denied: _ }) => {
            push_depending(text, alloc, name, answer, allowed, format)
        }
        Ok(Verdict::Denied(_)) => Ok(()),
        Err(_) => Ok(()),
    }
}

/// How much is printed of entities, and in which format.
#[derive(Clone, Copy)]
pub(crate) struct Telling {
    /// Each entity and its answer are printed, not only the entities that are allowed.
    all: bool,
    format: Format,
}

/// Adds what is printed of an entity that has this answer: with `all` its name and the answer, and else its name if it
/// is allowed.
fn push_told(
    text: &mut String,
    alloc: Global,
    name: &str,
    answer: &Answer,
    how: Telling,
) -> Result<(), OutOfMemory>
    ensures { OnOk result (string_bytes text.new ≡ string_bytes text.old ++ told how.format how.all name.now answer.now) }
{
    if how.all {
        push_answered_by(text, alloc, name, answer, how.format)
    } else {
        push_listed(text, alloc, name, answer, how.format)
    }
}

/// What is printed of each entity, in order.
fn told_pieces(
    alloc: Global,
    entities: &[ReadEntity],
    asked: &Asked<'_>,
    how: Telling,
) -> Result<String, OutOfMemory>
    ensures { IfOk result (λ text. AreInOrder (IsTold how.format how.all asked.now) entities.now (string_bytes text)) }
{
    let mut text = String::new(alloc);
    for entity in entities {
        let answer = answer_of(alloc, entity.osd.read(), asked)?;
        push_told(&mut text, alloc, entity.name.as_str(), &answer, how)?;
    }
    Ok(text)
}

/// What is printed of all entities.
fn told_text(
    alloc: Global,
    entities: &[ReadEntity],
    asked: &Asked<'_>,
    how: Telling,
) -> Result<String, OutOfMemory>
    ensures { IfOk result (λ text. AreTold how.format how.all asked.now entities.now (string_bytes text)) }
{
    let pieces = told_pieces(alloc, entities, asked, how)?;
    entities_by(alloc, pieces, how.format)
}

/// What is printed where the calls are not refused.
fn asked_text(
    alloc: Global,
    entities: &[ReadEntity],
    asked: &Asked<'_>,
    how: Telling,
) -> Result<Printed, OutOfMemory>
    ensures { IfOk result (λ printed. AreTold how.format how.all asked.now entities.now (string_bytes printed.text) × (printed.fails ≡ false)) }
{
    Ok(Printed {
        text: told_text(alloc, entities, asked, how)?,
        fails: false,
    })
}

/// What is printed of calls that are refused.
fn calls_by(alloc: Global, fault: NeedsFault, format: Format) -> Result<String, OutOfMemory>
    ensures { IfOk result (λ text. string_bytes text ≡ calls_by format fault) }
{
    match format {
        Format::Text => format!(in alloc; "refused {fault}\n"),
        Format::Json => calls_json(alloc, fault),
    }
}

/// What is printed of calls that are refused, which fails.
fn refused_calls(alloc: Global, fault: NeedsFault, format: Format) -> Result<Printed, OutOfMemory>
    ensures { IfOk result (λ printed. (string_bytes printed.text ≡ calls_by format fault) × (printed.fails ≡ true)) }
{
    Ok(Printed {
        text: calls_by(alloc, fault, format)?,
        fails: true,
    })
}

/// What the program prints of some entities and a request: the names of those that may, a line each, in their
/// order. With `all` each entity has its name and its answer, a denial's report indented by two blanks. Calls that
/// are refused are asked of nobody: then the fault is printed, which fails.
///
/// Names are written by [`verdict_text::push_name`]. As a document it has the member
/// `entities`, of whose items each has `entity` and `answer`, which is the document of a verdict; or `fault`.
pub fn who_text(
    alloc: Global,
    entities: &[ReadEntity],
    asked: &Asked<'_>,
    all: bool,
    format: Format,
) -> Result<Printed, OutOfMemory>
    ensures { IfOk result (λ printed. IsWho format entities.now asked.now all (string_bytes printed.text) printed.fails) }
{
    match needs_asked(alloc, asked) {
        Ok(_) => asked_text(alloc, entities, asked, Telling { all, format }),
        Err(NeedsFault::OutOfMemory) => Err(AllocError),
        Err(fault) => refused_calls(alloc, fault, format),
    }
}
