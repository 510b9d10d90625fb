//! The entities of a cluster, and their capability texts.

ghost use Rattle.std.specs.Prelude.{◌≡◌, option_copied};
ghost use Rattle.verdict_text.specs.Named.{entity_in};

use crate::reading::ReadText;

/// An entity of a cluster. Its key is not kept.
#[derive(Debug)]
pub struct Entity {
    pub name: String,
    /// Its capability text for object stores, empty where it has none. The empty text expands to no grants.
    pub osd: String,
}

impl Drop for Entity {
    fn drop(self) {
        let Entity { name: _, osd: _ } = self;
    }
}

/// An entity of a cluster whose capability text was read.
#[derive(Debug)]
pub struct ReadEntity {
    pub name: String,
    /// Its capability text for object stores, empty where it has none, which grants nothing.
    pub osd: ReadText,
}

impl Drop for ReadEntity {
    fn drop(self) {
        let ReadEntity { name: _, osd: _ } = self;
    }
}

/// The entity of this name, the first where there are more. It looks at each, and takes no memory.
pub fn find<'a>(entities: &'a [Entity], name: &str) -> Option<&'a Entity>
    ensures { option_copied result ≡ entity_in entities.now name.now }
{
    entities.iter().find(|entity| entity.name.as_str() == name)
}
