//! Operations of a vector, as words.

ghost use Rattle.std.specs.Prelude.{IfOk, IsSome, ◌<◌, ◌≤◌, length};
ghost use Rattle.world_script.specs.Command as spec;
ghost use Rattle.world_script.specs.TakenWords.{Takes};

use crate::taking::{bytes, name, number};
use common_types::OutOfMemory;
use object_core::Op;
use script_text::Words;
use std::alloc::Global;
use world_front::Ops;

fn read_op(words: &mut Words<'_>) -> Option<Op>
    ensures takes { Takes spec.read_op words.old words.new result }
    ensures shorter { length words.new ≤ length words.old }
{
    let offset = number(words)?;
    let length = number(words)?;
    Some(Op::Read { offset, length })
}

fn write_op(alloc: Global, words: &mut Words<'_>) -> Result<Option<Op>, OutOfMemory>
    ensures takes { IfOk result (Takes spec.write_op words.old words.new) }
    ensures shorter { length words.new ≤ length words.old }
{
    let Some(offset) = number(words) else {
        return Ok(None);
    };
    match bytes(alloc, words)? {
        None => Ok(None),
        Some(bytes) => Ok(Some(Op::Write { offset, bytes })),
    }
}

fn set_attribute_op(alloc: Global, words: &mut Words<'_>) -> Result<Option<Op>, OutOfMemory>
    ensures takes { IfOk result (Takes spec.set_attribute_op words.old words.new) }
    ensures shorter { length words.new ≤ length words.old }
{
    let Some(name) = name(alloc, words)? else {
        return Ok(None);
    };
    match bytes(alloc, words)? {
        None => Ok(None),
        Some(value) => Ok(Some(Op::SetAttribute { name, value })),
    }
}

fn call_op(alloc: Global, words: &mut Words<'_>) -> Result<Option<Op>, OutOfMemory>
    ensures takes { IfOk result (Takes spec.call_op words.old words.new) }
    ensures shorter { length words.new ≤ length words.old }
{
    let Some(class) = name(alloc, words)? else {
        return Ok(None);
    };
    let Some(method) = name(alloc, words)? else {
        return Ok(None);
    };
    match bytes(alloc, words)? {
        None => Ok(None),
        Some(input) => Ok(Some(Op::Call {
            class,
            method,
            input,
        })),
    }
}

fn write_full_op(alloc: Global, words: &mut Words<'_>) -> Result<Option<Op>, OutOfMemory>
    ensures takes { IfOk result (Takes spec.write_full_op words.old words.new) }
    ensures shorter { length words.new ≤ length words.old }
{
    match bytes(alloc, words)? {
        None => Ok(None),
        Some(bytes) => Ok(Some(Op::WriteFull(bytes))),
    }
}

fn append_op(alloc: Global, words: &mut Words<'_>) -> Result<Option<Op>, OutOfMemory>
    ensures takes { IfOk result (Takes spec.append_op words.old words.new) }
    ensures shorter { length words.new ≤ length words.old }
{
    match bytes(alloc, words)? {
        None => Ok(None),
        Some(bytes) => Ok(Some(Op::Append(bytes))),
    }
}

fn truncate_op(words: &mut Words<'_>) -> Option<Op>
    ensures takes { Takes spec.truncate_op words.old words.new result }
    ensures shorter { length words.new ≤ length words.old }
{
    let size = number(words)?;
    Some(Op::Truncate(size))
}

fn get_attribute_op(alloc: Global, words: &mut Words<'_>) -> Result<Option<Op>, OutOfMemory>
    ensures takes { IfOk result (Takes spec.get_attribute_op words.old words.new) }
    ensures shorter { length words.new ≤ length words.old }
{
    match name(alloc, words)? {
        None => Ok(None),
        Some(name) => Ok(Some(Op::GetAttribute(name))),
    }
}

fn remove_attribute_op(alloc: Global, words: &mut Words<'_>) -> Result<Option<Op>, OutOfMemory>
    ensures takes { IfOk result (Takes spec.remove_attribute_op words.old words.new) }
    ensures shorter { length words.new ≤ length words.old }
{
    match name(alloc, words)? {
        None => Ok(None),
        Some(name) => Ok(Some(Op::RemoveAttribute(name))),
    }
}

/// The operation of this name that changes the object's bytes or whether it is there, with what it takes.
fn changing_op_named(
    alloc: Global,
    word: &str,
    words: &mut Words<'_>,
) -> Result<Option<Op>, OutOfMemory>
    ensures takes { IfOk result (Takes (spec.changing_op_named word.now) words.old words.new) }
    ensures shorter { length words.new ≤ length words.old }
{
    match word {
        "write" => write_op(alloc, words),
        "writefull" => write_full_op(alloc, words),
        "append" => append_op(alloc, words),
        "truncate" => Ok(truncate_op(words)),
        "remove" => Ok(Some(Op::Remove)),
        "create" => Ok(Some(Op::Create { exclusive: false })),
        "create-exclusive" => Ok(Some(Op::Create { exclusive: true })),
        _ => Ok(None),
    }
}

/// The operation of this name, with what it takes.
fn op_named(alloc: Global, word: &str, words: &mut Words<'_>) -> Result<Option<Op>, OutOfMemory>
    ensures takes { IfOk result (Takes (spec.op_named word.now) words.old words.new) }
    ensures shorter { length words.new ≤ length words.old }
{
    match word {
        "read" => Ok(read_op(words)),
        "stat" => Ok(Some(Op::Stat)),
        "getxattr" => get_attribute_op(alloc, words),
        "setxattr" => set_attribute_op(alloc, words),
        "rmxattr" => remove_attribute_op(alloc, words),
        "call" => call_op(alloc, words),
        _ => changing_op_named(alloc, word, words),
    }
}

fn op(alloc: Global, words: &mut Words<'_>) -> Result<Option<Op>, OutOfMemory>
    ensures takes { IfOk result (Takes spec.an_op words.old words.new) }
    ensures shorter { IfOk result (λ found. IsSome found → length words.new < length words.old) }
{
    match words.next_word() {
        None => Ok(None),
        Some(word) => op_named(alloc, word, words),
    }
}

/// Operations with a plus between them, up to the end of the line. Most lines have one, so there is room for one.
pub(crate) fn ops(alloc: Global, words: &mut Words<'_>) -> Result<Option<Ops>, OutOfMemory>
    ensures { IfOk result (Takes spec.ops words.old words.new) }
{
    let mut ops = Vec::with_capacity(alloc, 1)?;
    while !words.is_empty() {
        match op(alloc, words)? {
            None => return Ok(None),
            Some(op) => ops.push(op)?,
        }
        match words.next_word() {
            None => return Ok(Some(Ops::from_vec(ops))),
            Some("+") => (),
            Some(_) => return Ok(None),
        }
    }
    Ok(None)
}
