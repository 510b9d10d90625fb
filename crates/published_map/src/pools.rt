//! A pool, by the published map.

ghost use Rattle.std.specs.Prelude.{◌≡◌, Some, IfOk};
ghost use Rattle.left_right.specs.Sides.{view as known};
ghost use Rattle.map_core.specs.PoolLimits.{HasLimits};
ghost use Rattle.map_core.specs.Limits.{IsAccepted};
ghost use Rattle.map_core.specs.Map.{epoch_of, view_at};
ghost use Rattle.published_map.specs.Answers.{RefusedOf, SaysOf};
ghost use Rattle.published_map.specs.Published.{AnswersBy};

use crate::published::{MapReader, Sees};
use common_types::Name;
use core::mem::replace_with;
use map_core::{ClusterMap, MapFault, PoolView};

/// A pool at the present epoch of a map that goes on from all that this reader saw or learned before.
///
/// It waits for nobody. It is `None` where `left_right` gives no reading, for example once the writer was ended.
pub fn view(reader: &mut MapReader, pool: &Name) -> Option<Result<PoolView, MapFault>>
    ensures { AnswersBy (SaysOf pool.now) result (known reader.old.place) (known reader.new.place) }
{
    replace_with(reader, pool, |reader, pool| view_by(reader, pool))
}

// Does what `view` does, by a reader that it takes and returns.
fn view_by(reader: MapReader, pool: &Name) -> (MapReader, Option<Result<PoolView, MapFault>>)
    ensures { AnswersBy (SaysOf pool.now) result.1 (known reader.place) (known result.0.place) }
{
    match reader.enter_as::<Sees>() {
        Ok(reading) => {
            let found = view_in(&reading.get().map, pool);
            (reading.leave(), Some(found))
        }
        Err(reader) => (reader, None),
    }
}

// A pool by a map at its present epoch.
fn view_in(map: &ClusterMap, pool: &Name) -> Result<PoolView, MapFault>
    ensures accepted { IsAccepted map.now }
    ensures refused { RefusedOf pool.now map.now result }
    ensures found { IfOk result (λ view. (view_at map.now pool.now (epoch_of map.now) ≡ Some view) × HasLimits view.pg_num view.size view.min_size) }
{
    map.view(pool, map.epoch())
}
