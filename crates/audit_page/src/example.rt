//! A request that a grant allows by itself, as an example.

use cap_text::{Access, AllowGrant, NsMatch};
use class_table::find;
use common_types::{Items, Name, OutOfMemory, Tags};
use compare_core::{Example, OwnedTarget};
use compare_text::{push_request, push_target};
use grant_core::Path;
use network_core::Network;
use share_core::Pool;
use std::alloc::Global;
use std::fmt::Write;
use verdict_core::{ClassCall, Needs, can_read, can_write};

/// The name that stands for any object, class or method.
const ANY: &str = "a";

/// The words before the pool's.
const BEFORE_POOL: &str = "--pool ";

/// The words of a target behind the pool's.
const BEHIND_POOL: &str = " --object a";

/// A copy of a name, or of `other` if the name is absent or empty.
fn name_or(alloc: Global, name: &Option<Name>, other: &str) -> Result<Name, OutOfMemory> {
    match name {
        Some(name) if !name.is_empty() => name.copy(),
        _ => Name::new(alloc, other),
    }
}

/// A namespace that a grant is for.
fn namespace_of(alloc: Global, namespace: &Option<NsMatch>) -> Result<Name, OutOfMemory> {
    match namespace {
        None => Name::new(alloc, ""),
        Some(NsMatch::Exact(name) | NsMatch::Prefix(name)) => name.copy(),
    }
}

/// A call of a class that is on the default list.
fn listed_call(alloc: Global, reads: bool, writes: bool) -> Result<ClassCall, OutOfMemory> {
    Ok(ClassCall {
        class: Name::new(alloc, ANY)?,
        method: Name::new(alloc, ANY)?,
        class_reads: reads,
        class_writes: writes,
        listed: true,
    })
}

/// A call of a class, with what Ceph's table has of the method.
fn named_call(
    alloc: Global,
    class: &Name,
    method: &Option<Name>,
) -> Result<ClassCall, OutOfMemory> {
    let class = class.copy()?;
    let method = name_or(alloc, method, ANY)?;
    let flags = find(class.as_str().as_bytes(), method.as_str().as_bytes());
    let (class_reads, class_writes) = match flags {
        Some(flags) => (flags.reads, flags.writes),
        None => (true, false),
    };
    Ok(ClassCall {
        class,
        method,
        class_reads,
        class_writes,
        listed: false,
    })
}

/// A call that an access gives, if it gives one.
fn call_of(alloc: Global, access: &Access) -> Result<Option<ClassCall>, OutOfMemory> {
    match access {
        Access::All => Ok(None),
        Access::Class { class, method } => Ok(Some(named_call(alloc, class, method)?)),
        Access::Flags(flags) if flags.class_read || flags.class_write => {
            Ok(Some(listed_call(alloc, flags.class_read, flags.class_write)?))
        }
        Access::Flags(_) => Ok(None),
    }
}

/// What the example of a grant requests: reads and writes, and a call where the grant gives neither.
fn needs_of(alloc: Global, access: &Access) -> Result<Needs, OutOfMemory> {
    let reads = can_read(access);
    let writes = can_write(access);
    let mut calls = Items::new(alloc);
    if !reads && !writes {
        if let Some(call) = call_of(alloc, access)? {
            calls.push(call)?;
        }
    }
    Ok(Needs {
        reads,
        writes,
        calls,
    })
}

/// The target in a pool, whose tags are left to `--pools`.
fn target_in(
    alloc: Global,
    pool: &str,
    namespace: Name,
    object: Name,
) -> Result<OwnedTarget, OutOfMemory> {
    Ok(OwnedTarget {
        pool: Name::new(alloc, pool)?,
        tags: Tags::new(alloc),
        namespace,
        object,
    })
}

/// A pool's name as a shell's word.
pub(crate) fn pool_word(alloc: Global, pool: &Pool) -> Result<String, OutOfMemory> {
    let namespace = Name::new(alloc, "")?;
    let object = Name::new(alloc, ANY)?;
    let target = target_in(alloc, pool.name.as_str(), namespace, object)?;
    let mut words = String::new(alloc);
    push_target(&mut words, &target)?;
    let word = words.as_str().strip_prefix(BEFORE_POOL).unwrap_or("");
    String::from_str(alloc, word.strip_suffix(BEHIND_POOL).unwrap_or(word))
}

/// Adds the address that an example comes from, if the grant is for a network.
fn push_from(words: &mut String, network: Option<Network>) -> Result<(), OutOfMemory> {
    match network {
        Some(Network::Range(address, _)) => write!(words, " --from {address}"),
        Some(Network::Never) | None => Ok(()),
    }
}

/// The words of a request that a grant allows by itself, behind those of the pool.
pub(crate) fn example_words(
    alloc: Global,
    grant: &AllowGrant,
    network: Option<Network>,
) -> Result<String, OutOfMemory> {
    let namespace = namespace_of(alloc, &grant.namespace)?;
    let object = name_or(alloc, &grant.prefix, ANY)?;
    let example = Example {
        path: Path::of(alloc, &[])?,
        target: target_in(alloc, ANY, namespace, object)?,
        needs: needs_of(alloc, &grant.access)?,
    };
    let mut words = String::new(alloc);
    push_request(&mut words, &example)?;
    push_from(&mut words, network)?;
    let behind = words.as_str().strip_prefix(BEFORE_POOL).unwrap_or("");
    String::from_str(alloc, behind.strip_prefix(ANY).unwrap_or(behind))
}
