//! A request that was seen.

ghost use Rattle.std.specs.Prelude.{◌≡◌, not};
ghost use Rattle.std.specs.List.{list_any};
ghost use Rattle.suggest_core.specs.Grain as spec;
ghost use Rattle.suggest_core.specs.Suggestion as suggestion;

use compare_core::OwnedTarget;
use verdict_core::Needs;

/// A request that was seen: where it went, and what it asked for.
#[derive(Debug)]
pub struct Seen {
    pub target: OwnedTarget,
    pub needs: Needs,
}

impl Drop for Seen {
    fn drop(self) {
        let Seen {
            target: _,
            needs: _,
        } = self;
    }
}

/// Whether a request reads or writes by itself, beside what its calls do.
pub(crate) fn moves(needs: &Needs) -> bool
    ensures { result ≡ spec.moves needs.now }
{
    needs.reads || needs.writes
}

/// Whether some call is of a class off the default list.
pub(crate) fn calls_unlisted(needs: &Needs) -> bool
    ensures { result ≡ list_any (λ call. not call.listed) needs.now.calls }
{
    needs.calls.as_slice().iter().any(|call| !call.listed)
}

/// Whether some call's method reads.
pub(crate) fn calls_reading(needs: &Needs) -> bool
    ensures { result ≡ list_any (λ call. call.class_reads) needs.now.calls }
{
    needs.calls.as_slice().iter().any(|call| call.class_reads)
}

/// Whether some call's method writes.
pub(crate) fn calls_writing(needs: &Needs) -> bool
    ensures { result ≡ list_any (λ call. call.class_writes) needs.now.calls }
{
    needs.calls.as_slice().iter().any(|call| call.class_writes)
}

/// Whether a request neither reads nor writes nor calls. No grant is the least for it.
pub fn asks_nothing(needs: &Needs) -> bool
    ensures { result ≡ suggestion.asks_nothing needs.now }
{
    !moves(needs) && needs.calls.len() == 0
}

/// Whether only `*` allows a request: it reads or writes, and calls a method of a class off the default list.
pub fn needs_all(needs: &Needs) -> bool
    ensures { result ≡ suggestion.needs_all needs.now }
{
    moves(needs) && calls_unlisted(needs)
}

/// Whether nothing is suggested for a request.
pub(crate) fn is_left_out(allow_all: bool, request: &Seen) -> bool
    ensures { result ≡ suggestion.is_left_out allow_all request.now }
{
    asks_nothing(&request.needs) || (!allow_all && needs_all(&request.needs))
}
