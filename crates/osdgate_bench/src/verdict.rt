//! What a verdict costs, and what a denied one with its report.

ghost use Rattle.std.specs.Prelude.{◌<◌, ◌≤◌};

use crate::fault::Fault;
use crate::grants::{FIRST, indexed, push_grant, ticket_of};
use common_types::{AppTags, Name, OutOfMemory, Pairs, Tags};
use std::alloc::Global;
use std::time::Clock;
use stopwatch::{Table, Work};
use verdict_core::{Calls, ClassCall, IndexedTicket, Needs, Target, Ticket, judge, report};

/// A number that no grant has.
const NOBODY: usize = 99;

/// By which condition the last grant of a ticket differs from those before it.
#[derive(Clone, Copy)]
enum Shape {
    Pool,
    Prefix,
    Tag,
    Call,
}

impl Shape {
    /// How a row is named.
    fn name(self) -> &'static str {
        match self {
            Shape::Pool => "pool",
            Shape::Prefix => "pool, namespace, prefix",
            Shape::Tag => "tag",
            Shape::Call => "class call",
        }
    }

    /// The text of the grant with a number.
    fn grant(self, alloc: Global, name: &str, number: usize) -> Result<String, OutOfMemory> {
        match self {
            Shape::Pool => format!(in alloc; "allow rw pool={name}{number}"),
            Shape::Prefix => {
                format!(in alloc;
                    "allow rw pool={name} namespace=spaces object_prefix image.{number}."
                )
            }
            Shape::Tag => format!(in alloc; "allow rw tag cephfs data={name}{number}"),
            Shape::Call => format!(in alloc; "allow class {name}{number}"),
        }
    }

    /// The calls of a request that the grant with a number gives.
    fn calls(self, alloc: Global, name: &str, number: usize) -> Result<Calls, OutOfMemory> {
        let mut calls = Vec::new(alloc);
        if let Shape::Call = self {
            calls.push(get_of(alloc, format!(in alloc; "{name}{number}")?)?)?;
        }
        Ok(Calls::from_vec(calls))
    }

    /// What a request asks for that the grant with a number gives.
    fn needs(self, alloc: Global, name: &str, number: usize) -> Result<Needs, OutOfMemory> {
        let plain = !matches!(self, Shape::Call);
        Ok(Needs {
            reads: plain,
            writes: plain,
            calls: self.calls(alloc, name, number)?,
        })
    }

    /// The pool of a request that the grant with a number is for.
    fn pool(self, alloc: Global, name: &str, number: usize) -> Result<String, OutOfMemory> {
        match self {
            Shape::Pool => format!(in alloc; "{name}{number}"),
            _ => String::from_str(alloc, name),
        }
    }

    /// The text of `grants` grants.
    fn text(self, alloc: Global, name: &str, grants: usize) -> Result<String, OutOfMemory>
        requires { grants ≤ 64 }
    {
        let mut text = String::new(alloc);
        for i in 0..grants {
            push_grant(&mut text, self.grant(alloc, name, FIRST + i)?.as_str())?;
        }
        Ok(text)
    }
}

/// A call of a class's method `get`, which reads.
fn get_of(alloc: Global, class: String) -> Result<ClassCall, OutOfMemory> {
    Ok(ClassCall {
        class: Name::from_string(class),
        method: Name::new(alloc, "get")?,
        class_reads: true,
        class_writes: false,
        listed: true,
    })
}

/// The tags of a pool: one value of one key.
fn tags_of(alloc: Global, value: String) -> Result<Tags, OutOfMemory> {
    let pair = (Name::new(alloc, "data")?, Name::from_string(value));
    let pairs = Pairs::from_vec(vec![in alloc; pair]?);
    let application = AppTags {
        application: Name::new(alloc, "cephfs")?,
        pairs,
    };
    Ok(Tags::from_vec(vec![in alloc; application]?))
}

/// Where a request goes.
struct OwnedTarget {
    pool: String,
    tags: Tags,
    object: String,
}

impl Drop for OwnedTarget {
    fn drop(self) {
        let OwnedTarget {
            pool: _,
            tags: _,
            object: _,
        } = self;
    }
}

impl OwnedTarget {
    /// A target that the grant with a number is for, one of several.
    fn new(
        alloc: Global,
        shape: Shape,
        name: &str,
        number: usize,
        object: usize,
    ) -> Result<OwnedTarget, OutOfMemory> {
        Ok(OwnedTarget {
            pool: shape.pool(alloc, name, number)?,
            tags: tags_of(alloc, format!(in alloc; "{name}{number}")?)?,
            object: format!(in alloc; "image.{number}.{object}")?,
        })
    }

    fn as_target(&self) -> Target<'_> {
        Target {
            pool: self.pool.as_str().as_bytes(),
            tags: &self.tags,
            namespace: b"spaces",
            object: self.object.as_str().as_bytes(),
        }
    }
}

/// Four targets that the grant with a number is for, which differ in the object.
fn owned_targets(
    alloc: Global,
    shape: Shape,
    name: &str,
    number: usize,
) -> Result<Vec<OwnedTarget>, OutOfMemory> {
    let mut targets = Vec::with_capacity(alloc, 4)?;
    for object in 0..4 {
        targets.push(OwnedTarget::new(alloc, shape, name, number, object)?)?;
    }
    Ok(targets)
}

/// A ticket, and requests of it that all have one verdict, four objects in turn.
struct Asked {
    ticket: Ticket,
    indexed: IndexedTicket,
    owned: Vec<OwnedTarget>,
    needs: Needs,
}

impl Drop for Asked {
    fn drop(self) {
        let Asked {
            ticket: _,
            indexed: _,
            owned: _,
            needs: _,
        } = self;
    }
}

/// The ticket of `grants` grants.
fn ticket(alloc: Global, shape: Shape, name: &str, grants: usize) -> Result<Ticket, Fault>
    requires { grants ≤ 64 }
{
    ticket_of(alloc, shape.text(alloc, name, grants)?.as_str())
}

impl Asked {
    /// Requests that the grant with a number is for.
    fn new(
        alloc: Global,
        shape: Shape,
        name: &str,
        grants: usize,
        number: usize,
    ) -> Result<Asked, Fault>
        requires { grants ≤ 64 }
    {
        let ticket = ticket(alloc, shape, name, grants)?;
        Ok(Asked {
            indexed: indexed(ticket.copy()?)?,
            ticket,
            owned: owned_targets(alloc, shape, name, number)?,
            needs: shape.needs(alloc, name, number)?,
        })
    }

    /// The four targets, for verdicts.
    fn targets(&self) -> Result<Vec<Target<'_>>, OutOfMemory> {
        let mut targets = Vec::with_capacity(*self.owned.allocator(), 4)?;
        for target in self.owned.iter() {
            targets.push(target.as_target())?;
        }
        Ok(targets)
    }
}

/// The verdict. Its targets are made before, as Ceph's strings are.
#[derive(Drop)]
struct Judge<'a> {
    asked: &'a Asked,
    targets: &'a [Target<'a>],
}

impl Work for Judge<'_> {
    fn once(&self, turn: usize) -> Result<bool, OutOfMemory> {
        match self.targets.get(turn % 4) {
            None => Ok(false),
            Some(target) => Ok(judge(&self.asked.ticket, target, &self.asked.needs, 0)),
        }
    }

    fn size(&self) -> u64 {
        1
    }
}

/// The verdict by the index.
#[derive(Drop)]
struct JudgeIndexed<'a> {
    asked: &'a Asked,
    targets: &'a [Target<'a>],
}

impl Work for JudgeIndexed<'_> {
    fn once(&self, turn: usize) -> Result<bool, OutOfMemory> {
        match self.targets.get(turn % 4) {
            None => Ok(false),
            Some(target) => Ok(self.asked.indexed.judge(target, &self.asked.needs, 0)),
        }
    }

    fn size(&self) -> u64 {
        1
    }
}

/// Making a ticket's index, with the copy of the ticket that it takes.
#[derive(Drop)]
struct MakeIndex<'a>(&'a Ticket);

impl Work for MakeIndex<'_> {
    fn once(&self, _turn: usize) -> Result<bool, OutOfMemory> {
        Ok(!indexed(self.0.copy()?)?.grants().is_empty())
    }

    fn size(&self) -> u64 {
        1
    }
}

/// The copy of a ticket alone.
#[derive(Drop)]
struct CopyTicket<'a>(&'a Ticket);

impl Work for CopyTicket<'_> {
    fn once(&self, _turn: usize) -> Result<bool, OutOfMemory> {
        Ok(!self.0.copy()?.grants().is_empty())
    }

    fn size(&self) -> u64 {
        1
    }
}

/// The verdict, and the report where it is no.
#[derive(Drop)]
struct JudgeAndReport<'a>(&'a Asked);

impl Work for JudgeAndReport<'_> {
    fn once(&self, turn: usize) -> Result<bool, OutOfMemory> {
        let Some(target) = self.0.owned.get(turn % 4) else {
            return Ok(false);
        };
        let target = target.as_target();
        if judge(&self.0.ticket, &target, &self.0.needs, 0) {
            return Ok(true);
        }
        let lines = report(
            *self.0.owned.allocator(),
            &self.0.ticket,
            &target,
            &self.0.needs,
            0,
        )?;
        Ok(lines.lines().is_empty())
    }

    fn size(&self) -> u64 {
        1
    }
}

/// The tickets of some rows: by which condition their grants differ, and how many grants they have.
#[derive(Clone, Copy)]
struct Rows {
    shape: Shape,
    grants: usize,
}

impl Rows {
    /// Adds a row: which call it is, and which of the grants the requests are for.
    fn add<C: Clock, W: Work>(
        self,
        table: &mut Table<'_, C>,
        call: &str,
        which: &str,
        work: &W,
    ) -> Result<(), Fault>
        requires { W.ready work.now }
    {
        let by = self.shape.name();
        let row = format!(in table.alloc(); "{call}, {by}, {which} {}", self.grants)?;
        Ok(table.row(row.as_str(), work)?)
    }

    /// Adds the rows of verdicts.
    fn add_judged<C: Clock>(
        self,
        table: &mut Table<'_, C>,
        which: &str,
        asked: &Asked,
    ) -> Result<(), Fault> {
        let targets = asked.targets()?;
        let targets = targets.as_slice();
        self.add(table, "judge", which, &Judge { asked, targets })?;
        self.add(
            table,
            "judge indexed",
            which,
            &JudgeIndexed { asked, targets },
        )
    }

    /// Adds the rows of requests that the last grant allows.
    fn add_allowed<C: Clock>(self, table: &mut Table<'_, C>, name: &str) -> Result<(), Fault>
        requires { 0 < self.grants × self.grants ≤ 64 }
    {
        let last = FIRST + self.grants - 1;
        let asked = Asked::new(table.alloc(), self.shape, name, self.grants, last)?;
        self.add_judged(table, "last of", &asked)
    }

    /// Adds the rows of requests that no grant allows.
    fn add_denied<C: Clock>(self, table: &mut Table<'_, C>, name: &str) -> Result<(), Fault>
        requires { self.grants ≤ 64 }
    {
        let asked = Asked::new(table.alloc(), self.shape, name, self.grants, NOBODY)?;
        self.add_judged(table, "none of", &asked)?;
        self.add(
            table,
            "judge and report",
            "none of",
            &JudgeAndReport(&asked),
        )
    }

    /// Adds the rows of tickets that are copied, and of those that are indexed.
    fn add_copied<C: Clock>(self, table: &mut Table<'_, C>, name: &str) -> Result<(), Fault>
        requires { self.grants ≤ 64 }
    {
        let ticket = ticket(table.alloc(), self.shape, name, self.grants)?;
        self.add(table, "copy a ticket", "of", &CopyTicket(&ticket))?;
        self.add(table, "copy and index a ticket", "of", &MakeIndex(&ticket))
    }
}

/// Adds the rows of verdicts, over names that begin with a given one.
pub(crate) fn add_verdicts<C: Clock>(table: &mut Table<'_, C>, name: &str) -> Result<(), Fault> {
    for shape in [Shape::Pool, Shape::Prefix, Shape::Tag, Shape::Call] {
        for grants in [1, 4, 16, 64] {
            let rows = Rows { shape, grants };
            rows.add_allowed(table, name)?;
            rows.add_denied(table, name)?;
            rows.add_copied(table, name)?;
        }
    }
    Ok(())
}
