//! Whether a ticket allows a request.

ghost use Rattle.std.specs.Prelude.{◌≡◌, []};
ghost use Rattle.std.specs.List.{list_any, list_all};
ghost use Rattle.std.specs.Option.{ForSome};
ghost use Rattle.verdict_core.specs.Chains.{AreChained};
ghost use Rattle.verdict_core.specs.Kinds.{chains_of};
ghost use Rattle.verdict_core.specs.Verdict.{is_allowed};
ghost use Rattle.verdict_core.specs.Verdict as spec;

use crate::chains::Chains;
use crate::matching::{FIRST, OTHERS, allows, is_usable, is_usable_by_names, quick_is_usable};
use crate::ticket::Ticket;
use cap_text::AllowGrant;
use grant_core::Path;
use request_types::{ClassCall, Needs, Target};

/// Whether some usable grant covers a call.
fn is_covered(
    grants: &[(Path, AllowGrant)],
    target: &Target<'_>,
    needs: &Needs,
    call: &ClassCall,
) -> bool
    ensures { result ≡ spec.is_covered grants.now target.now needs.now call.now }
{
    grants
        .iter()
        .any(|entry| allows(&entry.1, target, needs, call))
}

/// Whether some grant is usable, by a walk that looks at tags and at names of any length.
#[inline(never)]
fn full_has_usable(grants: &[(Path, AllowGrant)], target: &Target<'_>, needs: &Needs) -> bool
    ensures { result ≡ list_any (λ entry. spec.is_usable entry.1 target.now needs.now) grants.now }
{
    grants
        .iter()
        .any(|entry| is_usable(&entry.1, target, needs))
}

/// Whether some grant is usable, by a walk that looks at names and tags by a few comparisons of words. If these do
/// not decide a grant, another walk goes on from it, so that nothing of the grants behind is kept.
#[inline(never)]
fn quick_has_usable(grants: &[(Path, AllowGrant)], target: &Target<'_>, needs: &Needs) -> bool
    ensures { result ≡ list_any (λ entry. spec.is_usable entry.1 target.now needs.now) grants.now }
{
    let mut rest = grants;
    while let Some((entry, others)) = rest.split_first() {
        match quick_is_usable::<OTHERS>(&entry.1, target, needs) {
            Some(true) => return true,
            Some(false) => rest = others,
            None => return full_has_usable(rest, target, needs),
        }
    }
    false
}

/// Whether each call is covered. It is a call of its own, since most requests have no calls.
#[inline(never)]
fn are_covered(grants: &[(Path, AllowGrant)], target: &Target<'_>, needs: &Needs) -> bool
    ensures { result ≡ list_all (spec.is_covered grants.now target.now needs.now) needs.now.calls }
{
    needs
        .calls
        .as_slice()
        .iter()
        .all(|call| is_covered(grants, target, needs, call))
}

/// Whether grants allow a request, whatever the time: what `judge` asks of a ticket that is not expired. It takes
/// no memory and copies nothing. Where all calls are covered, some grant is usable.
pub fn grants_allow(grants: &[(Path, AllowGrant)], target: &Target<'_>, needs: &Needs) -> bool
    ensures { result ≡ spec.grants_allow grants.now target.now needs.now }
{
    if needs.calls.as_slice().is_empty() {
        quick_has_usable(grants, target, needs)
    } else {
        are_covered(grants, target, needs)
    }
}

/// Whether grants allow a request without calls. Many tickets have one grant, so the first one is looked at before a walk begins,
/// if it has no tag.
#[inline(always)]
fn allow_without_calls(grants: &[(Path, AllowGrant)], target: &Target<'_>, needs: &Needs) -> bool
    requires { needs.now.calls ≡ [] }
    ensures { result ≡ spec.grants_allow grants.now target.now needs.now }
{
    let Some((entry, others)) = grants.split_first() else {
        return false;
    };
    match is_usable_by_names::<FIRST>(&entry.1, target, needs) {
        Some(true) => true,
        Some(false) => !others.is_empty() && quick_has_usable(others, target, needs),
        None => quick_has_usable(grants, target, needs),
    }
}

/// Whether a ticket's grants allow a request, whatever the time, by their chains if there are some. It takes no memory and copies
/// nothing. It is a call of its own, so that an expired ticket costs no more than its test.
#[inline(never)]
pub(crate) fn allow_by(
    chains: &Option<Chains>,
    grants: &[(Path, AllowGrant)],
    target: &Target<'_>,
    needs: &Needs,
) -> bool
    requires { ForSome chains.now (λ p. AreChained 0 (chains_of p.kinds.items grants.now) p.first.items p.next.items) }
    ensures { result ≡ spec.grants_allow grants.now target.now needs.now }
{
    if let Some(chains) = chains {
        return chains.allow(grants, target, needs);
    }
    if needs.calls.as_slice().is_empty() {
        allow_without_calls(grants, target, needs)
    } else {
        are_covered(grants, target, needs)
    }
}

/// Whether the ticket allows a request at a tick: the ticket is not expired, one grant gives all the reads
/// and writes, and each of the calls is covered by such a grant. It takes no memory and copies nothing.
pub fn judge(ticket: &Ticket, target: &Target<'_>, needs: &Needs, tick: u64) -> bool
    ensures { result ≡ is_allowed ticket.now target.now needs.now tick }
{
    !ticket.is_expired(tick) && ticket.gives(target, needs)
}
