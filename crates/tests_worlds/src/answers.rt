//! What the client is answered: replies to requests, and the names that a list came to. `sessions/answers` shows more.

use super::lines::expect;

// A pool of one group of one daemon.
const BEGUN: &str = "\
osd pool create data 1 1 1 -> epoch 2
auth add client.a osd 'allow rw' -> ok
open client.a -> session 1
settle data 0 -> settled 1
";

// A request is decided before its reply is delivered. What is refused has no number, and changes no answer.
const REPLY_LOST: &str = "\
answer 1.1 -> refused W5 NoRequest
answer 0.0 -> refused W5 NoRequest
listing 1.1 -> refused W5 NoRequest
at 2 0 do 1 data '' x read 0 0 -> request 1.1
at 3 0 do 1 data '' x read 0 0 -> refused W4 StaleEpoch
deliver data 0 0 -> ok
audit -> decided 1.1
wire data 0 -> 1
answer 1.1 -> 1.1 waiting
answer 1.2 -> refused W5 NoRequest
answer 1.0 -> refused W5 NoRequest
answer 2.1 -> refused W5 NoRequest
listing 1.1 -> refused W5 NoRequest
lose data 0 0 -> ok
wire data 0 -> 0
answer 1.1 -> 1.1 waiting
kick data 0 -> ok
settle data 0 -> settled 3
answer 1.1 -> 1.1 error 2 at 1
at 2 0 do 1 data '' x append a -> request 1.2
at 2 0 nothing 1 data '' x -> refused N1 EmptyVector
settle data 0 -> settled 2
audit -> decided 1.1 1.2
answer 1.1 -> 1.1 error 2 at 1
answer 1.2 -> 1.2 ok / - \"\"
answer 1.3 -> refused W5 NoRequest
at 2 0 ls 1 data '' -> list 1.3 1
listing 1.3 -> 1.3 waiting
settle data 0 -> settled 2
listing 1.3 -> 1.3 names / - \"x\"
";

#[test]
fn a_reply_is_lost(rt: HostRuntime) {
    expect(&rt, rt.alloc(), 1, &[BEGUN, REPLY_LOST]);
}
