//! Moves in two steps: given up, and made.

use super::steps::begun;
use crate::pieces::expect_row;
use crate::sets::{set, up};
use group_core::PreparedGroup;
use group_messages::GroupMove;
use std::alloc::Global;
use std::process::Abort;

// Where a group of the daemons 0, 1 and 2 moves.
#[derive(Clone, Copy)]
enum To {
    Set(&'static [u8]),
    Again(u8),
}

fn change(to: To) -> GroupMove {
    match to {
        To::Set(members) => GroupMove::NewInterval {
            acting: set(members),
            up: up(&[0, 1, 2]),
        },
        To::Again(daemon) => GroupMove::Restart(daemon),
    }
}

fn prepared<R: Abort>(rt: &R, alloc: Global, to: To) -> PreparedGroup {
    match begun(rt, alloc, 2, &[0, 1, 2]).prepare(change(to)) {
        Ok(prepared) => prepared,
        Err((_, fault)) => panic!(rt; "{fault}"),
    }
}

// How many messages are on their way once a move was given up, and once it was made.
fn on_the_way<R: Abort>(rt: &R, alloc: Global, to: To) -> (usize, usize) {
    let given_up = prepared(rt, alloc, to).give_up();
    let made = prepared(rt, alloc, to).commit();
    (given_up.wire().len(), made.wire().len())
}

const MOVES: &[(To, usize); 4] = &[
    (To::Set(&[1, 2]), 5),
    (To::Set(&[0, 1, 2]), 3),
    (To::Again(1), 6),
    (To::Again(9), 3),
];

#[test]
fn moves_in_two_steps(rt: HostRuntime) {
    for (place, (to, sent)) in MOVES.iter().enumerate() {
        let is_right = on_the_way(&rt, rt.alloc(), *to) == (3, *sent);
        expect_row(&rt, is_right, "move", place);
    }
}
