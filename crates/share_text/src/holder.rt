//! Who has rights.

ghost use Rattle.std.specs.Prelude.{◌≡◌, map, string_bytes, IfOk};
ghost use Rattle.share_text.specs.Holders.{known_of, of_entity};

use common_types::OutOfMemory;
use std::alloc::Global;
use verdict_text::{ReadEntity, Reading};

/// An entity with the rights that it is asked about: those of its text, or others.
#[derive(Clone, Copy)]
pub struct Holder<'a> {
    pub name: &'a str,
    /// Its rights, or the fault that prevents them.
    pub read: &'a Reading,
}

/// Entities with the rights of their texts, in their order. The only error is `OutOfMemory`.
pub fn holders_of<'a>(
    alloc: Global,
    entities: &'a [ReadEntity],
) -> Result<Vec<Holder<'a>>, OutOfMemory>
    ensures { IfOk result (λ holders. map known_of holders.items ≡ map of_entity entities.now) }
{
    let mut holders = Vec::new(alloc);
    for entity in entities {
        holders.push(Holder {
            name: entity.name.as_str(),
            read: entity.osd.read(),
        })?;
    }
    Ok(holders)
}
