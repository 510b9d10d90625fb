//! Workers on threads. `sessions/command_line/workers.console` shows what became of their requests.

use crate::begun::expect_so;
use entry_core::{Entry, Reply};
use workload::world_of_workload;

// The number that an addition gave.
fn sum_of(entry: &Entry) -> Option<u32> {
    let Reply::Done(outputs) = &entry.reply else {
        return None;
    };
    match outputs.as_slice() {
        [only] => str::from_utf8(only.as_slice()).ok()?.parse::<u32>().ok(),
        _ => None,
    }
}

// Whether the additions gave 1, 2 and so on up to this number.
fn count_up_to(entries: &[Entry], last: u32) -> bool {
    let mut next: u32 = 1;
    for entry in entries {
        if let Some(sum) = sum_of(entry) {
            if sum != next {
                return false;
            }
            next = next.saturating_add(1);
        }
    }
    next == last.saturating_add(1)
}

// Four workers, while groups move, leave a list of additions that counts to 200.
#[test]
fn additions_are_decided_once_each(rt: HostRuntime) {
    let (world, _moves) = world_of_workload(&rt, rt.alloc(), 4, true).expect(&rt, "a workload");
    let audit = world.audit().expect(&rt, "memory");
    expect_so(&rt, count_up_to(audit.as_slice(), 200), "additions");
}
