//! What submissions and lists are refused, in the order of the refusals. `sessions/refusals` shows what users and the map are refused.

use super::lines::expect;

// A pool of one group, a user, a session that used epoch 3 and tick 5, and a closed one.
const BEGUN: &str = "\
osd pool create data 1 3 2 -> epoch 2
osd pool application enable data app -> epoch 3
osd pool application enable data rbd -> epoch 4
auth add client.a osd 'allow rw' -> ok
open client.a -> session 1
open client.a -> session 2
open client.a -> session 3
close 2 -> ok
at 3 5 do 1 data '' x append a -> request 1.1
settle data 0 -> settled 17
";

// What must be seen of it, whatever was refused in between.
const SEEN: &str = "\
epoch -> 4
wire data 0 -> 0
audit -> decided 1.1
decided 1.1 -> 1.1 ok / - \"\"
at 3 5 do 1 data '' x read 0 0 -> request 1.2
at 2 0 ls 3 data '' -> list 3.1 1
settle data 0 -> settled 12
audit -> decided 1.1 1.2 3.1
decided 1.2 -> 1.2 ok / - \"a\"
";

// Submissions, each with all the later faults besides its own.
const SUBMISSIONS: &str = "\
at 9 0 nothing 0 nope '' '' -> refused W1 NoSession
at 9 0 nothing 4 nope '' '' -> refused W1 NoSession
at 9 0 nothing 2 nope '' '' -> refused W1 NoSession
at 2 0 nothing 1 nope '' '' -> refused W4 StaleEpoch
at 0 0 nothing 1 nope '' '' -> refused W4 StaleEpoch
at 5 0 nothing 1 nope '' '' -> refused W4 StaleEpoch
at 5 0 nothing 3 nope '' '' -> refused W4 StaleEpoch
at 3 4 nothing 1 nope '' '' -> refused W9 StaleTick
at 4 0 nothing 1 nope '' '' -> refused W9 StaleTick
at 3 5 nothing 1 nope '' '' -> refused W2 NoPool
at 4 6 nothing 1 'da ta' '' x -> refused W2 NoPool
at 1 0 nothing 3 data '' '' -> refused W2 NoPool
at 0 0 nothing 3 data '' '' -> refused W2 NoPool
at 3 5 nothing 1 data '' '' -> refused W3 BadObjectName
at 3 5 seventeen 1 data '' 'a b' -> refused W3 BadObjectName
at 3 5 do 1 data 'a b' x call counter drop '' -> refused W3 BadObjectName
at 3 5 nothing 1 data '' x -> refused N1 EmptyVector
at 3 5 seventeen 1 data '' x -> refused N2 TooManyOps
at 3 5 do 1 data '' x call counter drop '' -> refused N3 NoMethod
at 4 9 nothing 3 data '' x -> refused N1 EmptyVector
at 5 0 do 3 data '' x read 0 0 -> refused W4 StaleEpoch
";

#[test]
fn submissions_are_refused_in_order(rt: HostRuntime) {
    expect(&rt, rt.alloc(), 3, &[BEGUN, SUBMISSIONS, SEEN]);
}

const LISTS: &str = "\
at 9 0 ls 0 nope 'a b' -> refused W1 NoSession
at 9 0 ls 4 nope 'a b' -> refused W1 NoSession
at 9 0 ls 2 nope 'a b' -> refused W1 NoSession
at 2 0 ls 1 nope 'a b' -> refused W4 StaleEpoch
at 5 0 ls 1 nope 'a b' -> refused W4 StaleEpoch
at 3 4 ls 1 nope 'a b' -> refused W9 StaleTick
at 3 5 ls 1 nope 'a b' -> refused W2 NoPool
at 3 5 ls 1 '' 'a b' -> refused W2 NoPool
at 1 0 ls 3 data 'a b' -> refused W2 NoPool
at 0 0 ls 3 data 'a b' -> refused W2 NoPool
at 3 5 ls 1 data 'a b' -> refused W3 BadObjectName
";

#[test]
fn lists_are_refused_in_order(rt: HostRuntime) {
    expect(&rt, rt.alloc(), 3, &[BEGUN, LISTS, SEEN]);
}

// A pool of one group, and a user who may read.
const READER: &str = "\
osd pool create data 1 1 1 -> epoch 2
auth get-or-create client.a osd 'allow r' -> made
auth get-or-create client.a osd 'allow r' -> there
settle data 0 -> settled 1
";

// Each session's own epochs and ticks do not go back, and a renewal does not set them back.
const FORWARD: &str = "\
open client.a -> session 1
open client.a -> session 2
osd down 0 -> epoch 3
osd up 0 -> epoch 4
at 3 7 do 1 data '' x read 0 0 -> request 1.1
at 2 7 do 1 data '' x read 0 0 -> refused W4 StaleEpoch
at 3 6 do 1 data '' x read 0 0 -> refused W9 StaleTick
renew 1 -> ok
at 2 7 do 1 data '' x read 0 0 -> refused W4 StaleEpoch
at 3 6 do 1 data '' x read 0 0 -> refused W9 StaleTick
at 4 7 do 1 data '' x read 0 0 -> request 1.2
at 3 7 do 1 data '' x read 0 0 -> refused W4 StaleEpoch
at 2 0 do 2 data '' x read 0 0 -> request 2.1
";

#[test]
fn epochs_and_ticks_go_forward(rt: HostRuntime) {
    expect(&rt, rt.alloc(), 1, &[READER, FORWARD]);
}
