//! What the requests seen in a region need together.

ghost use Rattle.std.specs.Prelude.{◌≡◌, ◌&&◌, not};
ghost use Rattle.std.specs.List.{list_any};
ghost use Rattle.suggest_core.specs.Grain as spec;
ghost use Rattle.suggest_core.specs.Region.{is_in};

use crate::region::Region;
use crate::seen::{Seen, calls_reading, calls_unlisted, calls_writing, moves};
use cap_text::{Access, Flags};

/// Whether a request is in a region, and reads or writes.
fn moves_there(region: &Region, request: &Seen) -> bool
    ensures { result ≡ (is_in region.now request.now.target && spec.moves request.now.needs) }
{
    region.is_in(&request.target) && moves(&request.needs)
}

fn some_read(seen: &[Seen], region: &Region) -> bool
    ensures { result ≡ spec.some_moving seen.now region.now (λ needs. needs.reads) }
{
    seen.iter().any(|request| moves_there(region, request) && request.needs.reads)
}

fn some_write(seen: &[Seen], region: &Region) -> bool
    ensures { result ≡ spec.some_moving seen.now region.now (λ needs. needs.writes) }
{
    seen.iter().any(|request| moves_there(region, request) && request.needs.writes)
}

fn some_call_reads(seen: &[Seen], region: &Region) -> bool
    ensures { result ≡ spec.some_moving seen.now region.now (λ needs. list_any (λ call. call.class_reads) needs.calls) }
{
    seen.iter().any(|request| moves_there(region, request) && calls_reading(&request.needs))
}

fn some_call_writes(seen: &[Seen], region: &Region) -> bool
    ensures { result ≡ spec.some_moving seen.now region.now (λ needs. list_any (λ call. call.class_writes) needs.calls) }
{
    seen.iter().any(|request| moves_there(region, request) && calls_writing(&request.needs))
}

fn some_call_is_unlisted(seen: &[Seen], region: &Region) -> bool
    ensures { result ≡ spec.some_moving seen.now region.now (λ needs. list_any (λ call. not call.listed) needs.calls) }
{
    seen.iter().any(|request| moves_there(region, request) && calls_unlisted(&request.needs))
}

/// The access for all requests seen in a region that read or write.
pub(crate) fn access_for(seen: &[Seen], region: &Region) -> Access
    ensures { result ≡ spec.access_for seen.now region.now }
{
    if some_call_is_unlisted(seen, region) {
        return Access::All;
    }
    Access::Flags(Flags {
        read: some_read(seen, region),
        write: some_write(seen, region),
        class_read: some_call_reads(seen, region),
        class_write: some_call_writes(seen, region),
    })
}
