//! Requests as arguments.

use crate::bad_words::{BadWords, NoRequest};
use crate::calls::{CallRules, registry_calls, registry_words, stated_calls};
use crate::options::value_of;
use crate::tag_words::tag_of;
use clap::ArgMatches;
use common_types::{AppTags, OutOfMemory, Tags};
use gate_files::{no_pool_line, pool_of};
use network_core::Address;
use object_core::Op;
use share_core::Pool;
use std::alloc::Global;
use verdict_core::{ClassCall, Target};
use verdict_text::Asked;

/// A request, as the arguments give it.
pub struct RequestWords<'a, 'p> {
    pool_name: &'a str,
    namespace: &'a str,
    object: &'a str,
    reads: bool,
    writes: bool,
    tags: Tags,
    has_tags: bool,
    /// The pool of a file, whose own tags take the place of these.
    pool: Option<&'p Pool>,
    calls: Vec<Op>,
    /// The words of `calls`, as they are given.
    call_words: Vec<&'a str>,
    stated: Vec<ClassCall>,
    /// The client's address, if it is given.
    from: Option<Address>,
}

impl Drop for RequestWords<'_, '_> {
    fn drop(self) {
        let RequestWords {
            pool_name: _,
            namespace: _,
            object: _,
            reads: _,
            writes: _,
            tags: _,
            has_tags: _,
            pool: _,
            calls: _,
            call_words: _,
            stated: _,
            from: _,
        } = self;
    }
}

impl<'a, 'p> RequestWords<'a, 'p> {
    /// The request of the arguments, whose calls are looked up by these rules. If a file of pools is given, its pool is one of
    /// them, and has the file's tags.
    pub fn of(
        alloc: Global,
        matches: &ArgMatches<'a>,
        pools: Option<&'p [Pool]>,
        rules: CallRules<'_>,
    ) -> Result<RequestWords<'a, 'p>, NoRequest> {
        check_words(matches)?;
        let call_words = registry_words(alloc, rules, matches)?;
        Ok(RequestWords {
            pool_name: value_of(matches, "pool"),
            namespace: value_of(matches, "namespace"),
            object: value_of(matches, "object"),
            reads: matches.get_flag("read") || matches.get_flag("list"),
            writes: matches.get_flag("write"),
            tags: tags_asked(alloc, matches)?,
            has_tags: matches.get_strs("tag").is_some(),
            pool: pool_asked(alloc, matches, pools)?,
            calls: registry_calls(alloc, call_words.as_slice())?,
            call_words,
            stated: stated_calls(alloc, rules, matches)?,
            from: address_of(matches)?,
        })
    }

    /// The pool of the file, if one is given.
    pub fn pool(&self) -> Option<&'p Pool> {
        self.pool
    }

    /// Whether the pool's tags are known, by the request or by a file of pools.
    pub fn knows_tags(&self) -> bool {
        self.has_tags || self.pool.is_some()
    }

    /// Its calls of the class registry, as they are given.
    pub fn call_words(&self) -> &[&'a str] {
        self.call_words.as_slice()
    }

    /// The request at a tick. To list the names of objects is to read the empty name: so Ceph's daemons check a listing, and
    /// so do worlds here.
    pub fn asked(&self, tick: u64) -> Asked<'_> {
        Asked {
            target: Target {
                pool: self.pool_name.as_bytes(),
                tags: self.pool.map_or(&self.tags, |pool| &pool.tags),
                namespace: self.namespace.as_bytes(),
                object: self.object.as_bytes(),
            },
            reads: self.reads,
            writes: self.writes,
            calls: self.calls.as_slice(),
            stated: self.stated.as_slice(),
            tick,
            from: self.from,
        }
    }
}

/// The client's address, if it is given.
fn address_of(matches: &ArgMatches<'_>) -> Result<Option<Address>, BadWords> {
    match matches.get_str("from") {
        None => Ok(None),
        Some(text) => match Address::parse(text.as_bytes()) {
            Some(address) => Ok(Some(address)),
            None => Err(BadWords::Address),
        },
    }
}

/// Whether two tags of one application give one of its keys a value each.
fn give_one_key(first: &AppTags, second: &AppTags) -> bool {
    first.application.as_str() == second.application.as_str()
        && first.pairs.as_slice().iter().any(|(key, _)| {
            second
                .pairs
                .as_slice()
                .iter()
                .any(|(other, _)| key.as_str() == other.as_str())
        })
}

/// The tags of `--tag`, which may be repeated, but not for one key of an application.
fn tags_asked(alloc: Global, matches: &ArgMatches<'_>) -> Result<Tags, NoRequest> {
    let mut tags: Vec<AppTags> = Vec::new(alloc);
    if let Some(texts) = matches.get_strs("tag") {
        for text in texts {
            match tag_of(alloc, text)? {
                Some(tag) if tags.iter().any(|other| give_one_key(other, &tag)) => {
                    return Err(NoRequest::Words(BadWords::TwoValues));
                }
                Some(tag) => tags.push(tag)?,
                None => return Err(NoRequest::Words(BadWords::Tag)),
            }
        }
    }
    Ok(Tags::from_vec(tags))
}

/// The pool of a file that the arguments name, if a file is given.
fn pool_asked<'p>(
    alloc: Global,
    matches: &ArgMatches<'_>,
    pools: Option<&'p [Pool]>,
) -> Result<Option<&'p Pool>, NoRequest> {
    let Some(pools) = pools else {
        return Ok(None);
    };
    if matches.get_strs("tag").is_some() {
        return Err(NoRequest::Words(BadWords::PoolTags));
    }
    let name = value_of(matches, "pool");
    match pool_of(pools, name) {
        Some(pool) => Ok(Some(pool)),
        None => Err(NoRequest::Told(no_pool_line(alloc, pools, name)?)),
    }
}

/// Whether a request neither reads, writes, lists nor calls anything.
fn requests_nothing(matches: &ArgMatches<'_>) -> bool {
    !matches.get_flag("read")
        && !matches.get_flag("write")
        && !matches.get_flag("list")
        && matches.get_strs("calls").is_none()
        && matches.get_strs("call").is_none()
}

/// Refuses arguments that clap takes and that are no request.
fn check_words(matches: &ArgMatches<'_>) -> Result<(), BadWords> {
    if requests_nothing(matches) {
        return Err(BadWords::NothingRequested);
    }
    if matches.get_str("pool") == Some("") {
        return Err(BadWords::EmptyPool);
    }
    if matches.get_str("object") == Some("") {
        return Err(BadWords::EmptyObject);
    }
    Ok(())
}
