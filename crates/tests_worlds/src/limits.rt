//! Worlds that are full: of intervals, and of requests. `sessions/limits` shows those full of sessions and of users.

use super::lines::expect;

// The first daemon is the one member of a group, with one request decided there, and restarts as often as it may.
const ALL_INTERVALS: &str = "\
osd pool create data 1 1 1 -> epoch 2
auth add client.a osd 'allow rw' -> ok
open client.a -> session 1
at 2 0 do 1 data '' x append a -> request 1.1
settle data 0 -> settled 3
times 1023 osd restart 0 -> epoch 1025
wire data 0 -> 1023
";

// One restart more is refused, and so is all that would begin an interval. The world stays as it was, and takes requests.
const NO_MORE_INTERVALS: &str = "\
osd restart 0 -> refused P3 Full
osd down 0 -> refused P3 Full
epoch -> 1025
wire data 0 -> 1023
audit -> decided 1.1
decided 1.1 -> 1.1 ok / - \"\"
at 1025 0 do 1 data '' x read 0 0 -> request 1.2
settle data 0 -> settled 1025
audit -> decided 1.1 1.2
decided 1.2 -> 1.2 ok / - \"a\"
";

#[test]
fn intervals_fill(rt: HostRuntime) {
    expect(&rt, rt.alloc(), 1, &[ALL_INTERVALS, NO_MORE_INTERVALS]);
}

// A second pool's group, on both daemons, moves with neither refusal. What begins no interval in the full group is accepted.
const ANOTHER_POOL: &str = "\
osd pool create more 1 2 1 -> epoch 1026
wire more 0 -> 2
ready more 0 -> yes
osd restart 0 -> refused P3 Full
osd down 0 -> refused P3 Full
epoch -> 1026
wire more 0 -> 2
ready more 0 -> yes
osd restart 1 -> epoch 1027
wire more 0 -> 4
ready more 0 -> yes
wire data 0 -> 1023
";

#[test]
fn a_full_group_keeps_the_others_from_moving(rt: HostRuntime) {
    expect(&rt, rt.alloc(), 2, &[ALL_INTERVALS, ANOTHER_POOL]);
}

// A pool of two groups of one daemon, which is down. One of them gets as many requests as it takes.
const ALL_REQUESTS: &str = "\
osd pool create data 2 1 1 -> epoch 2
auth add client.a osd 'allow rw' -> ok
open client.a -> session 1
osd down 0 -> epoch 3
ready data 0 -> no
wire data 0 -> 1
times 16384 at 3 0 do 1 data '' x read 0 0 -> request 1.16384
";

// A full group refuses a request after all else, and a list has no piece then. The other group takes the next number.
const NO_MORE_REQUESTS: &str = "\
at 3 0 do 1 data '' x read 0 0 -> refused P3 Full
at 3 0 nothing 1 data '' x -> refused N1 EmptyVector
at 3 0 ls 1 data '' -> refused P3 Full
at 3 0 ls 1 nope '' -> refused W2 NoPool
at 3 0 do 1 data '' a read 0 0 -> request 1.16385
wire data 0 -> 1
wire data 1 -> 1
audit -> decided
";

#[test]
fn requests_fill(rt: HostRuntime) {
    expect(&rt, rt.alloc(), 1, &[ALL_REQUESTS, NO_MORE_REQUESTS]);
}
