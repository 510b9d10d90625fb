//! Vectors as calls take them: what they ask for, and what becomes of an object. `sessions/objects` shows what each operation does.

ghost use Rattle.std.specs.Prelude.{◌≤◌, length};

use crate::pieces::{expect_so, expect_text, name};
use common_types::{Name, TryClone};
use object_core::{
    Attributes, Bytes, Change, NeedsFault, Object, Op, Outcome, Outputs, needs_of, removed_is_gone,
    run_vector,
};
use std::alloc::Global;
use std::process::Abort;

fn bytes<R: Abort>(rt: &R, alloc: Global, text: &str) -> Bytes {
    Bytes::from_slice(alloc, text.as_bytes()).expect(rt, "memory")
}

/// One byte more than an object has at most.
fn too_much<R: Abort>(rt: &R, alloc: Global) -> Bytes {
    Bytes::from_vec(vec![in alloc; b'x'; 65537].expect(rt, "memory"))
}

/// The call that a word names, as `counter.add`, which adds 1.
fn call<R: Abort>(rt: &R, alloc: Global, word: &str) -> Op {
    let (class, method) = word.split_once('.').expect(rt, "a class and a method");
    let input = if method == "add" { "1" } else { "" };
    Op::Call {
        class: name(rt, alloc, class),
        method: name(rt, alloc, method),
        input: bytes(rt, alloc, input),
    }
}

/// The operation that a word names.
fn op<R: Abort>(rt: &R, alloc: Global, word: &str) -> Op {
    match word {
        "read" => Op::Read {
            offset: 0,
            length: 0,
        },
        "stat" => Op::Stat,
        "remove" => Op::Remove,
        "create" => Op::Create { exclusive: false },
        "append" => Op::Append(bytes(rt, alloc, "a")),
        "getxattr" => Op::GetAttribute(name(rt, alloc, "k")),
        "rmxattr" => Op::RemoveAttribute(name(rt, alloc, "k")),
        "setxattr" => Op::SetAttribute {
            name: name(rt, alloc, "k"),
            value: bytes(rt, alloc, "v"),
        },
        "too_much" => Op::WriteFull(too_much(rt, alloc)),
        _ => call(rt, alloc, word),
    }
}

/// The operations that words name.
fn vector<R: Abort>(rt: &R, alloc: Global, words: &str) -> Vec<Op> {
    let mut ops = Vec::new(alloc);
    for word in words.split_whitespace() {
        ops.push(op(rt, alloc, word)).expect(rt, "memory");
    }
    ops
}

/// What vectors ask for: whether they read and write, and their calls, each with whether its class reads, writes and is listed;
/// or the fault and its number.
const NEEDS: &[(&str, &str); 11] = &[
    ("", "N1 EmptyVector 22"),
    (
        "vault.drop stat stat stat stat stat stat stat stat stat stat stat stat stat stat stat stat",
        "N2 TooManyOps 22",
    ),
    (
        "stat stat stat stat stat stat stat stat stat stat stat stat stat stat stat vault.drop",
        "N3 NoMethod 95",
    ),
    (
        "stat stat stat stat stat stat stat stat stat stat stat stat stat stat stat stat",
        "true false",
    ),
    ("counter.drop", "N3 NoMethod 95"),
    ("read", "true false"),
    ("getxattr create", "true true"),
    ("append", "false true"),
    ("setxattr rmxattr", "false true"),
    ("remove", "false true"),
    (
        "vault.peek counter.get counter.add",
        "false false vault.peek:true,false,false counter.get:true,false,true counter.add:true,true,true",
    ),
];

/// What a vector asks for as text.
fn needs_shown<R: Abort>(rt: &R, alloc: Global, words: &str) -> String {
    let ops = vector(rt, alloc, words);
    let needs = match needs_of(alloc, ops.as_slice()) {
        Ok(needs) => needs,
        Err(fault) => {
            let number = fault.number().unwrap_or(0);
            return format!(in alloc; "{fault} {number}").expect(rt, "memory");
        }
    };
    let mut text = format!(in alloc; "{} {}", needs.reads, needs.writes).expect(rt, "memory");
    for call in needs.calls.as_slice() {
        write!(
            text,
            " {}.{}:{},{},{}",
            call.class.as_str(),
            call.method.as_str(),
            call.class_reads,
            call.class_writes,
            call.listed
        )
        .expect(rt, "memory");
    }
    text
}

#[test]
fn needs_follow_the_vector_and_refusals_their_order(rt: HostRuntime) {
    for (words, want) in NEEDS {
        let needs = needs_shown(&rt, rt.alloc(), words);
        expect_text(&rt, needs.as_str(), want, words);
    }
    let memory = NeedsFault::OutOfMemory
        .to_string(rt.alloc())
        .expect(&rt, "memory");
    expect_text(&rt, memory.as_str(), "N4 OutOfMemory", "want of memory");
}

/// An object of these bytes.
fn object<R: Abort>(rt: &R, alloc: Global, bytes: &[u8]) -> Object
    requires { length bytes.now ≤ 65536 }
{
    let bytes = Bytes::from_slice(alloc, bytes).expect(rt, "memory");
    Object::new(bytes, Attributes::new(alloc))
}

/// What becomes of the object: it stays as it was, is another, or is gone; or the place and the number of what failed.
#[derive(Clone, Copy, PartialEq)]
enum Becomes {
    Kept,
    Another,
    Gone,
    Fails(usize, u32),
}

use Becomes::{Another, Fails, Gone, Kept};

fn end_of(outcome: &Outcome) -> Becomes {
    match outcome {
        Outcome::Failed { place, number } => Fails(*place, *number),
        Outcome::Done { outputs: _, object } => match object {
            Change::Kept => Kept,
            Change::Became(Some(_)) => Another,
            Change::Became(None) => Gone,
        },
    }
}

/// What becomes of the object of the bytes `hello`.
const ON_HELLO: &[(&str, Becomes); 8] = &[
    ("", Kept),
    ("read stat", Kept),
    ("create", Kept),
    ("append read", Another),
    ("remove", Gone),
    ("append counter.drop", Fails(2, 95)),
    ("vault.get", Fails(1, 95)),
    ("too_much", Fails(1, 27)),
];

/// And of none.
const ON_NONE: &[(&str, Becomes); 4] = &[
    ("", Kept),
    ("create", Another),
    ("append remove", Gone),
    ("too_much", Fails(1, 27)),
];

fn run<R: Abort>(rt: &R, alloc: Global, given: Option<&Object>, words: &str) -> Becomes {
    let ops = vector(rt, alloc, words);
    let outcome = run_vector(alloc, given, ops.as_slice()).expect(rt, "memory");
    end_of(&outcome)
}

fn expect<R: Abort>(rt: &R, alloc: Global, given: Option<&Object>, rows: &[(&str, Becomes)]) {
    for (words, want) in rows {
        expect_so(rt, run(rt, alloc, given, words) == *want, words);
    }
}

#[test]
fn objects_are_kept_or_become_others(rt: HostRuntime) {
    let alloc = rt.alloc();
    removed_is_gone();
    let hello = object(&rt, alloc, b"hello");
    expect(&rt, alloc, Some(&hello), ON_HELLO);
    expect(&rt, alloc, None, ON_NONE);
}

/// Whether an object has the byte `a`, and `v` for its attribute `k`.
fn is_made(object: &Object, k: &Name) -> bool {
    match object.attributes().get(k) {
        Some(value) => value.as_slice() == b"v".as_slice()
            && object.bytes().as_slice() == b"a".as_slice(),
        None => false,
    }
}

/// Whether the last output is the value `v`.
fn gives(outputs: &Outputs) -> bool {
    match outputs.as_slice() {
        [_, _, last] => last.as_slice() == b"v".as_slice(),
        _ => false,
    }
}

/// The outcome of a vector that makes an object and its attribute.
fn makes<R: Abort>(rt: &R, alloc: Global) -> Outcome {
    let ops = vector(rt, alloc, "append setxattr getxattr");
    let outcome = run_vector(alloc, None, ops.as_slice()).expect(rt, "memory");
    outcome.copy().expect(rt, "memory")
}

/// Whether an outcome gives the value and shows the object, and then hands it out.
fn is_right<R: Abort>(rt: &R, outcome: Outcome, k: &Name) -> bool {
    let is_seen = match outcome.look(None) {
        Some(object) => is_made(object, k),
        None => false,
    };
    let Outcome::Done { outputs, object } = outcome else {
        return false;
    };
    let gives = gives(&outputs);
    match object.into_object(None).expect(rt, "memory") {
        Some(object) => is_seen && gives && is_made(&object, k),
        None => false,
    }
}

#[test]
fn outcomes_hand_out_the_object(rt: HostRuntime) {
    let k = name(&rt, rt.alloc(), "k");
    let is_right = is_right(&rt, makes(&rt, rt.alloc()), &k);
    expect_so(&rt, is_right, "an outcome");
}

/// How many bytes and attributes copies of an object and of its attributes have.
fn lengths<R: Abort>(rt: &R, object: &Object) -> (usize, usize) {
    let attributes = object.attributes().copy().expect(rt, "memory");
    let (bytes, _) = object.copy().expect(rt, "memory").into_parts();
    (bytes.into_vec().len(), attributes.as_slice().len())
}

#[test]
fn objects_are_made_of_their_parts(rt: HostRuntime) {
    let alloc = rt.alloc();
    let made = lengths(&rt, &object(&rt, alloc, b"a"));
    expect_so(&rt, made == (1, 0), "an object of a byte");
    let empty = lengths(&rt, &Object::empty(alloc));
    expect_so(&rt, empty == (0, 0), "an empty object");
    expect_so(&rt, Bytes::new(alloc).as_slice().is_empty(), "no bytes");
}
