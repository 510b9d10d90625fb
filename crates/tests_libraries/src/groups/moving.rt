//! Groups that go from set to set, restart and are kicked, in ways that no script can ask for.

use super::steps::Step::{
    Ask, Audit, Copied, Deliver, Gives, IsFull, Kick, Lose, LoseAll, Move, Named, Open, Ready,
    Repeat, Restart, Sent, Settle, SettleAll, TakeBack, Wire,
};
use super::steps::{Step, expect_from};
use crate::copies::Says::{Info, Install, Installed, Query};
use crate::operations::Work;
use group_messages::Party;

const ZERO: Party = Party::Osd(0);

const ONE: Party = Party::Osd(1);

const TWO: Party = Party::Osd(2);

// Five requests are decided, and their primary goes away: nobody lacks anything, and no request is sent.
const FIVE_DECIDED: &[Step] = &[
    Settle(11),
    Ask(1, Work::Append("a")),
    Settle(6),
    Ask(2, Work::Append("a")),
    Settle(6),
    Ask(3, Work::Append("a")),
    Settle(6),
    Ask(4, Work::Append("a")),
    Settle(6),
    Ask(5, Work::Append("a")),
    Settle(6),
    Audit(&[1, 2, 3, 4, 5]),
    Move(&[1, 2], &[1, 2]),
    Deliver(0),
    Sent(1, ONE, ZERO, Query(2, 5, 5)),
    Sent(2, ONE, TWO, Query(2, 5, 5)),
    Deliver(2),
    Sent(2, TWO, ONE, Info(2, 1, 5, &[])),
    Deliver(2),
    Sent(2, ONE, TWO, Install(2, 5, &[])),
    Deliver(2),
    Sent(2, TWO, ONE, Installed(2)),
    Settle(2),
    Ask(6, Work::Append("a")),
    Settle(4),
    Audit(&[1, 2, 3, 4, 5, 6]),
    Gives(6, &[""]),
];

// Peerings that were left half done: twice the first of a set chooses a log, and what it sends then is lost. Request 1 is in
// the log of daemon 0 alone, and request 2 was decided without it. Daemon 0 drops the one and fits the other, which nobody
// else lacks.
const HALF_DONE: &[Step] = &[
    Settle(11),
    Ask(1, Work::Append("a")),
    Deliver(0),
    Lose(0),
    Lose(0),
    Move(&[1, 2], &[1, 2]),
    Deliver(0),
    Deliver(3),
    Deliver(3),
    Lose(0),
    Lose(0),
    Lose(0),
    Lose(0),
    Move(&[0, 2], &[0, 2]),
    Deliver(0),
    Deliver(3),
    Sent(3, TWO, ZERO, Info(3, 1, 0, &[])),
    Deliver(3),
    Lose(0),
    Lose(0),
    Lose(0),
    Lose(0),
    Move(&[1, 2], &[1, 2]),
    Lose(2),
    Ask(2, Work::Append("b")),
    Settle(10),
    Audit(&[2]),
    Move(&[0, 1, 2], &[0, 1, 2]),
    Deliver(0),
    Sent(3, ZERO, ONE, Query(5, 1, 1)),
    Sent(4, ZERO, TWO, Query(5, 1, 1)),
    Deliver(3),
    Deliver(3),
    Sent(3, ONE, ZERO, Info(5, 4, 0, &[2])),
    Sent(4, TWO, ZERO, Info(5, 4, 0, &[2])),
    Deliver(3),
    Deliver(3),
    Sent(3, ZERO, ONE, Install(5, 1, &[])),
    Sent(4, ZERO, TWO, Install(5, 1, &[])),
    Wire(5),
    Kick,
    Sent(8, ZERO, ONE, Install(5, 1, &[])),
    Sent(9, ZERO, TWO, Install(5, 1, &[])),
    Settle(20),
    Audit(&[2, 1]),
    Ask(3, Work::Read),
    Settle(6),
    Audit(&[2, 1, 3]),
    Gives(1, &[""]),
    Gives(3, &["ba"]),
];

// A request that is sent twice is decided once, also where the primary restarts before it hears of it.
const SENT_TWICE: &[Step] = &[
    Named("data", 5),
    Settle(11),
    Ask(1, Work::Append("a")),
    Repeat(0),
    TakeBack(2),
    Restart(0),
    Wire(6),
    Copied,
    Wire(6),
    Settle(21),
    Wire(0),
    Audit(&[1]),
    Gives(1, &[""]),
    Ready(true),
    IsFull(false, false),
];

// Restarts, one of a daemon that is in no set, and kicks.
const RESTARTS: &[Step] = &[
    Settle(11),
    Ask(1, Work::Append("a")),
    Repeat(0),
    Restart(0),
    Lose(0),
    Lose(0),
    Lose(0),
    Lose(0),
    Lose(0),
    Lose(0),
    Wire(0),
    Kick,
    SettleAll,
    Audit(&[1]),
    Gives(1, &[""]),
    Move(&[0, 1], &[0, 1, 2]),
    SettleAll,
    Restart(2),
    Wire(0),
    Restart(1),
    Wire(2),
];

// Ready once a member is back.
const BACK: &[Step] = &[
    SettleAll,
    Ready(true),
    Move(&[2], &[2]),
    Ready(false),
    Move(&[2, 0], &[0, 2]),
    Ready(true),
    Ask(1, Work::Append("a")),
    LoseAll,
    Wire(0),
    Kick,
    Settle(10),
    Gives(1, &[""]),
    Move(&[], &[0, 2]),
    Ready(false),
];

// Moves to the same set and to one that differs in who is up.
const SERVED: &[Step] = &[
    Settle(6),
    Move(&[0, 1], &[0, 1]),
    Restart(2),
    Ask(2, Work::Append("a")),
    Ask(1, Work::Read),
    Move(&[0, 1], &[0, 1, 2]),
    Settle(8),
    Audit(&[2, 1]),
    Gives(1, &["a"]),
];

// Sets that are too small.
const TOO_SMALL: &[Step] = &[
    Ask(1, Work::Append("a")),
    Restart(2),
    Settle(3),
    Move(&[0], &[0, 1]),
    Ask(2, Work::Append("a")),
    Settle(2),
    Open(1),
    Open(2),
    Audit(&[]),
    Wire(0),
];

// A group's minimum of members, its first set, and what happens to it.
const WAYS: [(usize, &[u8], &[Step]); 7] = [
    (2, &[0, 1, 2], FIVE_DECIDED),
    (2, &[0, 1, 2], HALF_DONE),
    (2, &[0, 1, 2], SENT_TWICE),
    (2, &[0, 1, 2], RESTARTS),
    (1, &[0, 1], BACK),
    (2, &[0, 1], SERVED),
    (2, &[0], TOO_SMALL),
];

#[test]
fn groups_move(rt: HostRuntime) {
    for (min_size, members, steps) in WAYS {
        assert!(&rt; min_size >= 1);
        expect_from(&rt, rt.alloc(), min_size, members, steps);
    }
}
