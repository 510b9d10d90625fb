//! Where an object is, by the published map.

ghost use Rattle.left_right.specs.Sides.{view as known};
ghost use Rattle.published_map.specs.Answers.{SaysWhere};
ghost use Rattle.published_map.specs.Published.{AnswersBy};

use crate::published::{MapReader, Sees};
use common_types::Name;
use core::mem::replace_with;
use map_core::{ClusterMap, MapFault};
use place_core::{ActingSet, group_of};

/// The group of an object, and the daemons that act for it.
#[derive(Drop)]
pub struct Located {
    /// The group's number in the pool, from 0.
    pub group: u32,
    pub acting: ActingSet,
}

/// An object's name, and where it is looked for.
#[derive(Clone, Copy)]
struct Sought<'a> {
    pool: &'a Name,
    namespace: &'a str,
    object: &'a str,
}

/// Where an object is now, by a map that goes on from all that this reader saw or learned before.
///
/// It waits for nobody. It is `None` where `left_right` gives no reading, for example once the writer was ended.
pub fn locate(
    reader: &mut MapReader,
    pool: &Name,
    namespace: &str,
    object: &str,
) -> Option<Result<Located, MapFault>>
    ensures { AnswersBy (SaysWhere pool.now namespace.now object.now) result (known reader.old.place) (known reader.new.place) }
{
    let sought = Sought {
        pool,
        namespace,
        object,
    };
    replace_with(reader, sought, |reader, sought| locate_by(reader, sought))
}

// Does what `locate` does, by a reader that it takes and returns.
fn locate_by(reader: MapReader, sought: Sought) -> (MapReader, Option<Result<Located, MapFault>>)
    ensures { AnswersBy (SaysWhere sought.entry.pool.now sought.entry.namespace.now sought.entry.object.now) result.1 (known reader.place) (known result.0.place) }
{
    match reader.enter_as::<Sees>() {
        Ok(reading) => {
            let found = locate_in(&reading.get().map, sought);
            (reading.leave(), Some(found))
        }
        Err(reader) => (reader, None),
    }
}

// Where an object is by a map.
fn locate_in(map: &ClusterMap, sought: Sought) -> Result<Located, MapFault>
    ensures { SaysWhere sought.entry.pool.now sought.entry.namespace.now sought.entry.object.now map.now result }
{
    let Sought {
        pool,
        namespace,
        object,
    } = sought;
    match map.view(pool, map.epoch()) {
        Err(fault) => Err(fault),
        Ok(view) => {
            let group = group_of(namespace, object, view.pg_num);
            match map.acting_set(pool, group) {
                Some(acting) => Ok(Located { group, acting }),
                None => unreachable!(),
            }
        }
    }
}
