//! A request at something in a pool, and an example that rights allow.

use audit_core::{Extent, cells};
use cap_text::{AllowGrant, NsMatch};
use clap::ArgMatches;
use command_steps::{BadWords, NoAnswer, RequestWords, value_of};
use common_types::{Name, OutOfMemory, Tags, TryClone};
use compare_core::{Example, OwnedTarget};
use compare_text::{AddressedExample, addressed_value, push_request};
use grant_core::Path;
use rights_core::{Rights, addresses, tickets};
use serde_json::Value;
use share_core::{Pool, Touch, example_in, share_in, sharing};
use std::alloc::{AllocError, Global};
use std::fmt::Write;
use std::slice::from_ref;
use verdict_core::{Needs, Ticket, grants_allow};
use verdict_text::needs_asked;

/// The tick of each question.
const FIRST_TICK: u64 = 0;

/// The object of a listing, as a target is printed.
const NO_OBJECT: &str = " --object ''";

/// The end of a listing, as a request is printed.
const READS: &str = " --read";

/// A request at some object, or for the objects of some namespace, of a pool.
pub(crate) struct AnyRequest {
    pool: Pool,
    touch: Touch,
    needs: Needs,
    /// It lists the names of objects.
    lists: bool,
}

impl Drop for AnyRequest {
    fn drop(self) {
        let AnyRequest {
            pool: _,
            touch: _,
            needs: _,
            lists: _,
        } = self;
    }
}

/// The one thing that is requested: a read, a write or a call.
fn touch_of(needs: &Needs) -> Result<Option<Touch>, OutOfMemory> {
    match (needs.reads, needs.writes, needs.calls.as_slice()) {
        (true, false, []) => Ok(Some(Touch::Read)),
        (false, true, []) => Ok(Some(Touch::Write)),
        (false, false, [call]) => Ok(Some(Touch::Call(call.copy()?))),
        _ => Ok(None),
    }
}

/// What a request asks for, whose calls are known.
fn needs_of(alloc: Global, request: &RequestWords<'_, '_>) -> Result<Needs, OutOfMemory> {
    match needs_asked(alloc, &request.asked(FIRST_TICK)) {
        Ok(needs) => Ok(needs),
        Err(_) => Err(AllocError),
    }
}

/// A pool of a name, with these tags.
fn pool_with(alloc: Global, name: &str, tags: &Tags) -> Result<Pool, OutOfMemory> {
    Ok(Pool {
        name: Name::new(alloc, name)?,
        tags: tags.copy()?,
    })
}

/// A namespace that a grant is for.
fn namespace_of(alloc: Global, grant: &AllowGrant) -> Result<Name, OutOfMemory> {
    match &grant.namespace {
        None => Name::new(alloc, ""),
        Some(NsMatch::Exact(name) | NsMatch::Prefix(name)) => name.copy(),
    }
}

impl AnyRequest {
    /// The request of the arguments, whose calls are known.
    pub(crate) fn of(
        alloc: Global,
        matches: &ArgMatches<'_>,
        request: &RequestWords<'_, '_>,
    ) -> Result<AnyRequest, NoAnswer> {
        let needs = needs_of(alloc, request)?;
        let Some(touch) = touch_of(&needs)? else {
            return Err(NoAnswer::Words(BadWords::OneAny));
        };
        let name = value_of(matches, "pool");
        Ok(AnyRequest {
            pool: pool_with(alloc, name, request.asked(FIRST_TICK).target.tags)?,
            touch,
            needs,
            lists: matches.get_flag("list"),
        })
    }

    /// The listing of a namespace that a grant is for.
    fn listing_by(&self, alloc: Global, grant: &AllowGrant) -> Result<OwnedTarget, OutOfMemory> {
        Ok(OwnedTarget {
            pool: self.pool.name.copy()?,
            tags: self.pool.tags.copy()?,
            namespace: namespace_of(alloc, grant)?,
            object: Name::new(alloc, "")?,
        })
    }

    /// A listing that a ticket allows: that of a namespace of one of its grants.
    fn listing_at(
        &self,
        alloc: Global,
        ticket: &Ticket,
    ) -> Result<Option<OwnedTarget>, OutOfMemory> {
        for entry in ticket.grants() {
            let target = self.listing_by(alloc, &entry.1)?;
            if grants_allow(ticket.grants(), &target.as_target(), &self.needs) {
                return Ok(Some(target));
            }
        }
        Ok(None)
    }

    /// A target of the pool at which a ticket allows the request, if there is one.
    fn target_at(
        &self,
        alloc: Global,
        ticket: &Ticket,
    ) -> Result<Option<OwnedTarget>, OutOfMemory> {
        if self.lists {
            return self.listing_at(alloc, ticket);
        }
        let touch = &self.touch;
        example_in(alloc, ticket, touch, ticket, touch, from_ref(&self.pool))
    }

    /// A request that rights allow from some address, if there is one. Samples decide for all addresses.
    pub(crate) fn allowed_by(
        &self,
        alloc: Global,
        rights: &Rights,
    ) -> Result<Option<AddressedExample>, OutOfMemory> {
        let samples = addresses(alloc, &[rights])?;
        let tickets = tickets(alloc, rights, samples.as_slice())?;
        for (address, ticket) in samples.iter().zip(tickets.iter()) {
            if let Some(target) = self.target_at(alloc, ticket)? {
                let from = if rights.has_networks() {
                    Some(*address)
                } else {
                    None
                };
                let example = self.example(alloc, target)?;
                return Ok(Some(AddressedExample { from, example }));
            }
        }
        Ok(None)
    }

    /// Whether rights allow the request in a pool of this name with these tags.
    fn is_allowed_in(
        &self,
        alloc: Global,
        rights: &Rights,
        live: &Ticket,
        pool: &Pool,
    ) -> Result<bool, OutOfMemory> {
        if self.lists {
            let cells = cells(alloc, rights, FIRST_TICK, from_ref(pool))?;
            return Ok(cells.iter().any(|cell| cell.list != Extent::Nothing));
        }
        Ok(share_in(live, &self.touch, live, &self.touch, from_ref(pool)))
    }

    /// Whether rights allow the request in the pool with other tags. The tags of examples decide.
    pub(crate) fn depends_on_tags(
        &self,
        alloc: Global,
        rights: &Rights,
    ) -> Result<bool, OutOfMemory> {
        let live = rights.anywhere(alloc)?;
        for shared in &sharing(alloc, &live, &self.touch, &live, &self.touch)? {
            let pool = pool_with(alloc, self.pool.name.as_str(), &shared.target.tags)?;
            if self.is_allowed_in(alloc, rights, &live, &pool)? {
                return Ok(true);
            }
        }
        Ok(false)
    }

    /// A copy of what is requested.
    fn needs(&self) -> Result<Needs, OutOfMemory> {
        Ok(Needs {
            reads: self.needs.reads,
            writes: self.needs.writes,
            calls: self.needs.calls.copy()?,
        })
    }

    /// The request at a target.
    fn example(&self, alloc: Global, target: OwnedTarget) -> Result<Example, OutOfMemory> {
        Ok(Example {
            path: Path::of(alloc, &[])?,
            target,
            needs: self.needs()?,
        })
    }

    /// An allowed request in words of a shell.
    pub(crate) fn words(
        &self,
        alloc: Global,
        allowed: &AddressedExample,
    ) -> Result<String, OutOfMemory> {
        let mut words = String::new(alloc);
        push_request(&mut words, &allowed.example)?;
        if self.lists {
            words = listing_words(alloc, words.as_str())?;
        }
        if let Some(address) = &allowed.from {
            write!(words, " --from {address}")?;
        }
        Ok(words)
    }

    /// An allowed request as a JSON object.
    pub(crate) fn value(
        &self,
        alloc: Global,
        allowed: &AddressedExample,
    ) -> Result<Value, OutOfMemory> {
        let mut value = addressed_value(alloc, allowed)?;
        let words = self.words(alloc, allowed)?;
        if let Some(command) = value.get_mut("command") {
            *command = Value::from(words);
        }
        Ok(value)
    }
}

/// A read of the empty object's name as a listing.
fn listing_words(alloc: Global, words: &str) -> Result<String, OutOfMemory> {
    let words = words.strip_suffix(READS).unwrap_or(words);
    let (front, behind) = words.split_once(NO_OBJECT).unwrap_or((words, ""));
    format!(in alloc; "{front}{behind} --list")
}
