//! Why a grant of rights does not allow a request.

ghost use Rattle.std.specs.Prelude.{◌≡◌, ◌++◌, [], OnOk};
ghost use Rattle.std.specs.Option.{option_map, option_to_list};
ghost use Rattle.rights_core.specs.Reports as spec;

use cap_text::AllowGrant;
use common_types::OutOfMemory;
use grant_core::Path;
use network_core::{Address, Network};
use request_types::{Condition, Needs, Target};
use verdict_core::first_failure;

/// Whether a grant with this network, or with none, is for the address, or for some address if none is given.
pub(crate) fn is_reached(network: &Option<Network>, from: &Option<Address>) -> bool
    ensures { result ≡ spec.is_reached network.now from.now }
{
    match (network, from) {
        (None, _) => true,
        (Some(network), None) => !network.is_never(),
        (Some(network), Some(address)) => network.matches(address),
    }
}

/// The first condition of a grant that a request fails.
pub(crate) fn failure(
    expired: bool,
    network: &Option<Network>,
    grant: &AllowGrant,
    target: &Target<'_>,
    needs: &Needs,
    from: &Option<Address>,
) -> Option<Condition>
    ensures { result ≡ spec.failure expired target.now needs.now from.now (record { path = []; network = network.now; grant = grant.now }) }
{
    if expired {
        return Some(Condition::Expired);
    }
    if is_reached(network, from) {
        first_failure(false, grant, target, needs)
    } else {
        Some(Condition::Network)
    }
}

/// Adds the line of a grant, if the request fails a condition of it.
pub(crate) fn push_line(
    lines: &mut Vec<(Path, Condition)>,
    path: &Path,
    condition: Option<Condition>,
) -> Result<(), OutOfMemory>
    ensures { OnOk result
        (lines.new.items ≡ lines.old.items ++ option_to_list (option_map (λ why. (path.now, why)) condition)) }
{
    match condition {
        None => Ok(()),
        Some(condition) => {
            lines.push((path.copy()?, condition))?;
            Ok(())
        }
    }
}
