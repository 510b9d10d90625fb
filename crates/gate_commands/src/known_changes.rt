//! Comparisons where requests call the methods of Ceph's class table alone.

use cap_text::Access;
use command_steps::{Methods, known_calls, known_widening};
use common_types::OutOfMemory;
use compare_core::Registry;
use compare_text::{
    Change, Comparison, ReadPair, compare_pair, print_change, print_pair, widening_from,
};
use rights_core::Rights;
use std::alloc::Global;
use std::mem;
use verdict_core::ClassCall;
use verdict_text::{Printed, entities_by};

/// What is printed over the methods of Ceph's class table, and whether it is something else over every class registry.
#[derive(Drop)]
pub(crate) struct KnownAnswer {
    pub(crate) printed: Printed,
    pub(crate) differs: bool,
}

impl KnownAnswer {
    /// What is printed.
    pub(crate) fn into_printed(self) -> Printed {
        let KnownAnswer {
            printed,
            differs: _,
        } = self;
        printed
    }
}

/// What changes from old rights to new ones over these methods, both ways.
fn known_change(
    alloc: Global,
    calls: &[ClassCall],
    old: &Rights,
    new: &Rights,
) -> Result<Change, OutOfMemory> {
    Ok(Change {
        gained: known_widening(alloc, calls, old, new)?,
        lost: known_widening(alloc, calls, new, old)?,
    })
}

/// Whether over every class registry something else changes.
fn differs(
    alloc: Global,
    change: &Change,
    old: &Rights,
    new: &Rights,
) -> Result<bool, OutOfMemory> {
    let every = Change {
        gained: widening_from(alloc, Registry::Every, old, new)?,
        lost: widening_from(alloc, Registry::Every, new, old)?,
    };
    Ok(change.relation() != every.relation())
}

/// Whether a grant is for a class, so that it matters which methods there are.
pub(crate) fn has_class(rights: &Rights) -> bool {
    for index in 0..rights.len() {
        if let Some((_, _, grant)) = rights.entry(index) {
            if matches!(&grant.access, Access::Class { .. }) {
                return true;
            }
        }
    }
    false
}

/// Nothing, which does not fail and is the same over every class registry.
fn nothing(alloc: Global) -> KnownAnswer {
    KnownAnswer {
        printed: Printed {
            text: String::new(alloc),
            fails: false,
        },
        differs: false,
    }
}

/// What is printed of the rights of two texts; nothing where every class registry is asked about, and it does not matter which methods
/// there are.
pub(crate) fn known_texts(
    alloc: Global,
    methods: Methods,
    old: &Rights,
    new: &Rights,
    how: Comparison,
) -> Result<KnownAnswer, OutOfMemory> {
    if methods == Methods::Every && !has_class(old) && !has_class(new) {
        return Ok(nothing(alloc));
    }
    let calls = known_calls(alloc)?;
    let change = known_change(alloc, calls.as_slice(), old, new)?;
    Ok(KnownAnswer {
        differs: differs(alloc, &change, old, new)?,
        printed: Printed {
            text: print_change(alloc, &change, how.format)?,
            fails: how.check && !change.gained.is_empty(),
        },
    })
}

/// What is printed of an entity whose texts grant these rights.
fn changed(
    alloc: Global,
    methods: Methods,
    calls: &[ClassCall],
    pair: &ReadPair<'_>,
    (old, new): (&Rights, &Rights),
    how: Comparison,
) -> Result<KnownAnswer, OutOfMemory> {
    if methods == Methods::Every && !has_class(old) && !has_class(new) {
        return Ok(nothing(alloc));
    }
    let change = known_change(alloc, calls, old, new)?;
    Ok(KnownAnswer {
        differs: differs(alloc, &change, old, new)?,
        printed: Printed {
            text: print_pair(alloc, pair, &change, how.format)?,
            fails: how.check && !change.gained.is_empty(),
        },
    })
}

/// What is printed of an entity, of which a text that is refused is printed as over every class registry.
fn known_pair(
    alloc: Global,
    methods: Methods,
    calls: &[ClassCall],
    pair: &ReadPair<'_>,
    how: Comparison,
) -> Result<KnownAnswer, OutOfMemory> {
    match (&pair.old, &pair.new) {
        (Ok(old), Ok(new)) => changed(alloc, methods, calls, pair, (old, new), how),
        _ => Ok(KnownAnswer {
            printed: compare_pair(alloc, pair, how)?,
            differs: false,
        }),
    }
}

/// What is printed of entities that were read. Where every class registry is asked about, it has only the entities for whom it matters
/// which methods there are, and those of which a text is refused.
pub(crate) fn known_pairs(
    alloc: Global,
    methods: Methods,
    pairs: &[ReadPair<'_>],
    how: Comparison,
) -> Result<KnownAnswer, OutOfMemory> {
    let calls = known_calls(alloc)?;
    let mut all = nothing(alloc);
    for pair in pairs {
        let answer = known_pair(alloc, methods, calls.as_slice(), pair, how)?;
        all.printed.text.push_str(answer.printed.text.as_str())?;
        all.printed.fails = all.printed.fails || answer.printed.fails;
        all.differs = all.differs || answer.differs;
    }
    let text = mem::replace(&mut all.printed.text, String::new(alloc));
    all.printed.text = entities_by(alloc, text, how.format)?;
    Ok(all)
}
