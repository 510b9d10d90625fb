//! What a decision asked for, and what was decided.

use common_types::{AppTags, Name, OutOfMemory, Pairs, Tags};
use compare_core::OwnedTarget;
use std::alloc::Global;
use verdict_core::{Calls, ClassCall, Needs};

/// A decision of an OSD: the request, and whether the OSD allowed it.
#[derive(Debug)]
pub struct Decided {
    /// Where the request went. The object is the locator if one was given, as capabilities see it.
    pub target: OwnedTarget,
    pub needs: Needs,
    pub allowed: bool,
}

impl Drop for Decided {
    fn drop(self) {
        let Decided {
            target: _,
            needs: _,
            allowed: _,
        } = self;
    }
}

/// The pieces of a decision's line.
#[derive(Clone, Copy)]
struct Pieces<'a> {
    pool: &'a str,
    tags: &'a str,
    reads: &'a str,
    writes: &'a str,
    calls: &'a str,
    word: &'a str,
}

impl<'a> Pieces<'a> {
    /// The pieces of a text such as `pool=1 (POOL NAMESPACE) pool_app_metadata={TAGS} need_read_cap=1 need_write_cap=0
    /// classes=[CALLS] -> yes`. `mark` is what is behind the pool's name up to the tags, since a namespace may be any text.
    fn of(text: &'a str, mark: &str) -> Option<Pieces<'a>> {
        let (_number, rest) = text.split_once(" (")?;
        let (pool, rest) = rest.split_once(mark)?;
        let (tags, rest) = rest.rsplit_once("} need_read_cap=")?;
        let (reads, rest) = rest.split_once(" need_write_cap=")?;
        let (writes, rest) = rest.split_once(" classes=[")?;
        let (calls, word) = rest.rsplit_once("] -> ")?;
        Some(Pieces {
            pool,
            tags,
            reads,
            writes,
            calls,
            word,
        })
    }
}

/// The pairs of a text such as `data=a,metadata=b`.
fn pairs_of(alloc: Global, text: &str) -> Result<Option<Pairs>, OutOfMemory> {
    let mut pairs = Vec::new(alloc);
    if text.is_empty() {
        return Ok(Some(Pairs::from_vec(pairs)));
    }
    for pair in text.split(',') {
        let Some((key, value)) = pair.split_once('=') else {
            return Ok(None);
        };
        pairs.push((Name::new(alloc, key)?, Name::new(alloc, value)?))?;
    }
    Ok(Some(Pairs::from_vec(pairs)))
}

/// The application of a text such as `cephfs={data=a`.
fn app_of(alloc: Global, text: &str) -> Result<Option<AppTags>, OutOfMemory> {
    let Some((application, pairs)) = text.split_once("={") else {
        return Ok(None);
    };
    let Some(pairs) = pairs_of(alloc, pairs)? else {
        return Ok(None);
    };
    Ok(Some(AppTags {
        application: Name::new(alloc, application)?,
        pairs,
    }))
}

/// The tags of a text such as `cephfs={data=a},rbd={}`.
fn tags_of(alloc: Global, text: &str) -> Result<Option<Tags>, OutOfMemory> {
    let mut tags = Vec::new(alloc);
    if text.is_empty() {
        return Ok(Some(Tags::from_vec(tags)));
    }
    let Some(text) = text.strip_suffix('}') else {
        return Ok(None);
    };
    for part in text.split("},") {
        match app_of(alloc, part)? {
            Some(app) => tags.push(app)?,
            None => return Ok(None),
        }
    }
    Ok(Some(Tags::from_vec(tags)))
}

/// A bit as a log writes it.
fn bit_of(text: &str) -> Option<bool> {
    match text {
        "0" => Some(false),
        "1" => Some(true),
        _ => None,
    }
}

/// The words of a call such as `lock method lock rd 1 wr 1 allowed 1`.
fn call_words(text: &str) -> Option<(&str, &str, bool, bool, bool)> {
    let (class, rest) = text.split_once(" method ")?;
    let (method, rest) = rest.rsplit_once(" rd ")?;
    let (reads, rest) = rest.split_once(" wr ")?;
    let (writes, listed) = rest.split_once(" allowed ")?;
    Some((
        class,
        method,
        bit_of(reads)?,
        bit_of(writes)?,
        bit_of(listed)?,
    ))
}

/// The call of a text.
fn call_of(alloc: Global, text: &str) -> Result<Option<ClassCall>, OutOfMemory> {
    let Some((class, method, class_reads, class_writes, listed)) = call_words(text) else {
        return Ok(None);
    };
    Ok(Some(ClassCall {
        class: Name::new(alloc, class)?,
        method: Name::new(alloc, method)?,
        class_reads,
        class_writes,
        listed,
    }))
}

/// The calls of a text such as `class lock method lock rd 1 wr 1 allowed 1,class ..`.
fn calls_of(alloc: Global, text: &str) -> Result<Option<Calls>, OutOfMemory> {
    let mut calls = Vec::new(alloc);
    if text.is_empty() {
        return Ok(Some(Calls::from_vec(calls)));
    }
    let Some(text) = text.strip_prefix("class ") else {
        return Ok(None);
    };
    for part in text.split(",class ") {
        match call_of(alloc, part)? {
            Some(call) => calls.push(call)?,
            None => return Ok(None),
        }
    }
    Ok(Some(Calls::from_vec(calls)))
}

/// What the pieces say that the request needs.
fn needs_of(alloc: Global, pieces: Pieces<'_>) -> Result<Option<Needs>, OutOfMemory> {
    let (Some(reads), Some(writes)) = (bit_of(pieces.reads), bit_of(pieces.writes)) else {
        return Ok(None);
    };
    let Some(calls) = calls_of(alloc, pieces.calls)? else {
        return Ok(None);
    };
    Ok(Some(Needs {
        reads,
        writes,
        calls,
    }))
}

/// Whether the word of a decision allows.
fn allows(word: &str) -> Option<bool> {
    match word {
        "yes" => Some(true),
        "NO" => Some(false),
        _ => None,
    }
}

/// What the pieces say of a request to an object of a namespace, or `None` where they are not what an OSD writes.
fn of_pieces(
    alloc: Global,
    pieces: Pieces<'_>,
    namespace: Name,
    object: Name,
) -> Result<Option<Decided>, OutOfMemory> {
    let Some(allowed) = allows(pieces.word) else {
        return Ok(None);
    };
    let Some(tags) = tags_of(alloc, pieces.tags)? else {
        return Ok(None);
    };
    let Some(needs) = needs_of(alloc, pieces)? else {
        return Ok(None);
    };
    Ok(Some(Decided {
        target: OwnedTarget {
            pool: Name::new(alloc, pieces.pool)?,
            tags,
            namespace,
            object,
        },
        needs,
        allowed,
    }))
}

/// What is behind a pool's name in a decision's line, up to its tags.
fn mark_of(alloc: Global, namespace: &Name) -> Result<String, OutOfMemory> {
    let mut mark = String::from_str(alloc, " ")?;
    mark.push_str(namespace.as_str())?;
    mark.push_str(") pool_app_metadata={")?;
    Ok(mark)
}

/// The values of a decision's text for a namespace and an object, or `None` where it is not what an OSD writes.
pub(crate) fn values_of(
    alloc: Global,
    text: &str,
    namespace: Name,
    object: Name,
) -> Result<Option<Decided>, OutOfMemory> {
    let mark = mark_of(alloc, &namespace)?;
    match Pieces::of(text, mark.as_str()) {
        Some(pieces) => of_pieces(alloc, pieces, namespace, object),
        None => Ok(None),
    }
}
