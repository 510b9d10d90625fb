//! What it costs to take requests through a group of three daemons.

ghost use Rattle.std.specs.Prelude.{◌≡◌, IfOk};

use crate::fault::Fault;
use crate::grants::ticket_of;
use common_types::{Name, OutOfMemory, Tags, TryClone};
use entry_core::{GroupId, Id, Sealed};
use group_core::Group;
use map_core::PoolView;
use object_core::{Bytes, Op};
use place_core::{ActingSet, DaemonSet};
use std::alloc::Global;
use std::time::Clock;
use stopwatch::{Table, Work};
use verdict_core::SharedTicket;

/// Requests that a new group takes and answers.
struct Settling {
    alloc: Global,
    pool: Name,
    requests: Vec<Sealed>,
}

impl Drop for Settling {
    fn drop(self) {
        let Settling {
            alloc: _,
            pool: _,
            requests: _,
        } = self;
    }
}

/// A group of three daemons, which are all up.
pub(crate) fn three_daemons(alloc: Global, pool: Name) -> Result<Group, OutOfMemory> {
    let group = GroupId { pool, number: 0 };
    let acting = ActingSet::from_slice(&[0, 1, 2]).unwrap_or(ActingSet::new());
    Group::new(alloc, group, 2, 3, acting, DaemonSet::first(3))
}

impl Settling {
    /// Submits the requests, and answers whether all are taken.
    fn submit_to(&self, group: &mut Group) -> Result<bool, OutOfMemory> {
        for request in self.requests.as_slice() {
            if group.submit(request.copy()?).is_err() {
                return Ok(false);
            }
        }
        Ok(true)
    }

    /// Submits the requests and settles, and answers whether all are decided.
    fn settle_in(&self, group: &mut Group) -> Result<bool, OutOfMemory> {
        Ok(
            self.submit_to(group)?
                && group.settle().is_ok()
                && group.decided_count() == self.requests.len(),
        )
    }
}

impl Work for Settling {
    fn once(&self, _turn: usize) -> Result<bool, OutOfMemory> {
        let mut group = three_daemons(self.alloc, self.pool.copy()?)?;
        self.settle_in(&mut group)
    }

    fn size(&self) -> u64 {
        (self.requests.len() as u64).max(1)
    }
}

/// What a map says of a pool with one group.
fn view_of(alloc: Global, pool: &str) -> Result<PoolView, OutOfMemory>
    ensures { IfOk result (λ view. view.pg_num ≡ 1) }
{
    Ok(PoolView {
        epoch: 2,
        pool: Name::new(alloc, pool)?,
        pg_num: 1,
        size: 3,
        min_size: 2,
        tags: Tags::from_vec(Vec::new(alloc)),
    })
}

/// The replacing of an object's contents.
fn write_full(alloc: Global, contents: &str) -> Result<Vec<Op>, OutOfMemory> {
    Ok(vec![in alloc; Op::WriteFull(Bytes::from_slice(alloc, contents.as_bytes())?)]?)
}

/// A ticket of the one grant `allow *`.
pub(crate) fn all(alloc: Global) -> Result<SharedTicket, Fault> {
    Ok(SharedTicket::of(ticket_of(alloc, "allow *")?)?)
}

/// The plain namespace, and one of 64 objects.
fn address(alloc: Global, name: &str, number: u32) -> Result<(Name, Name), OutOfMemory> {
    let object = format!(in alloc; "{name}.{}", number % 64)?;
    Ok((Name::new(alloc, "")?, Name::from_string(object)))
}

/// A request to replace the contents of one of 64 objects by a name.
pub(crate) fn request(
    alloc: Global,
    number: u32,
    name: &str,
    ticket: &SharedTicket,
) -> Result<Sealed, Fault> {
    let id = Id::new(1, number);
    let view = view_of(alloc, name)?;
    let (namespace, object) = address(alloc, name, number)?;
    let ops = write_full(alloc, name)?;
    let ticket = ticket.copy()?;
    let sealed = Sealed::vector(alloc, id, ticket, 0, view, 0, namespace, object, ops)?;
    Ok(sealed)
}

fn through_a_group(alloc: Global, count: u32, name: &str) -> Result<Settling, Fault> {
    let ticket = all(alloc)?;
    let mut requests = Vec::with_capacity(alloc, count as usize)?;
    for number in 0..count {
        requests.push(request(alloc, number, name, &ticket)?)?;
    }
    Ok(Settling {
        alloc,
        pool: Name::new(alloc, name)?,
        requests,
    })
}

/// Adds the rows of groups, over a given name: the time of a request.
pub(crate) fn add_groups<C: Clock>(table: &mut Table<'_, C>, name: &str) -> Result<(), Fault> {
    let few = through_a_group(table.alloc(), 1000, name)?;
    table.row("group, a request of 1,000", &few)?;
    let many = through_a_group(table.alloc(), 8000, name)?;
    Ok(table.row("group, a request of 8,000", &many)?)
}
