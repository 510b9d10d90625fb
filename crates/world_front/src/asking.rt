//! What is asked of the front before a request is sealed.

ghost use Rattle.std.specs.Prelude.{◌≡◌, ◌≤◌, ◌&&◌, Some, IfOk, nat_le};
ghost use Rattle.std.specs.List.{list_all};
ghost use Rattle.map_core.specs.PoolLimits.{HasLimits};
ghost use Rattle.map_core.specs.Limits.{IsAccepted};
ghost use Rattle.map_core.specs.Map.{epoch_of, view_at};
ghost use Rattle.world_front.specs.Event.{NoPool};
ghost use Rattle.world_front.specs.ControlPlane.{error_of, need};
ghost use Rattle.world_front.specs.ControlPlane as spec;
ghost use Rattle.world_front.specs.Refusing.{RefusedOrMemory};
ghost use Rattle.world_front.specs.Refusing as refusing;

use crate::session::Session;
use common_types::Name;
use map_core::{ClusterMap, Epoch, MapFault, PoolView};
use world_events::WorldFault;

/// Who asks, and the pool as the asker saw it.
#[derive(Drop)]
pub(crate) struct Asker<'a> {
    pub(crate) session: &'a Session,
    pub(crate) view: PoolView,
}

/// The most bytes of an object's name.
const MAX_OBJECT_LENGTH: usize = 255;

/// The most bytes of a namespace.
const MAX_NAMESPACE_LENGTH: usize = 64;

// Whether these are all bytes 33 to 126.
fn are_printable(bytes: &[u8]) -> bool
    ensures { result ≡ list_all (λ b. nat_le 33 b && nat_le b 126) bytes.now }
{
    bytes.iter().all(|byte| *byte >= 33 && *byte <= 126)
}

// Whether it is an object's name: 1 to 255 bytes of 33 to 126.
pub(crate) fn is_object_name(name: &Name) -> bool
    ensures { result ≡ spec.is_object_name name.now }
{
    let bytes = name.as_str().as_bytes();
    bytes.len() >= 1 && bytes.len() <= MAX_OBJECT_LENGTH && are_printable(bytes)
}

/// Whether it is a namespace: at most 64 bytes of 33 to 126.
pub fn is_namespace(name: &Name) -> bool
    ensures { result ≡ spec.is_namespace name.now }
{
    let bytes = name.as_str().as_bytes();
    bytes.len() <= MAX_NAMESPACE_LENGTH && are_printable(bytes)
}

/// Whether an object's name and its namespace are what they may be.
pub fn are_names(object: &Name, namespace: &Name) -> bool
    ensures { result ≡ (spec.is_object_name object.now && spec.is_namespace namespace.now) }
{
    is_object_name(object) && is_namespace(namespace)
}

/// The pool of a name as it was at an epoch that is not after the present one, or W2.
pub(crate) fn view_for(map: &ClusterMap, pool: &Name, epoch: Epoch) -> Result<PoolView, WorldFault>
    requires accepted { IsAccepted map.now }
    requires past { epoch ≤ epoch_of map.now }
    ensures view { IfOk result (λ view. view_at map.now pool.now epoch ≡ Some view) }
    ensures limits { IfOk result (λ view. HasLimits view.pg_num view.size view.min_size) }
    ensures refused { RefusedOrMemory (error_of (need (view_at map.now pool.now epoch) NoPool)) result }
{
    match map.view(pool, epoch) {
        Ok(view) => Ok(view),
        Err(fault) => Err(fault_of_view(fault)),
    }
}

// Why there is no view: out of memory, or W2 for every other fault.
fn fault_of_view(fault: MapFault) -> WorldFault
    ensures { result ≡ refusing.fault_of_view fault }
{
    match fault {
        MapFault::OutOfMemory => WorldFault::OutOfMemory,
        _ => WorldFault::NoPool,
    }
}
