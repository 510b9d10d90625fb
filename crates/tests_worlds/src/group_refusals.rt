//! What calls on a group are refused, and questions about it.

use super::lines::expect;

// A pool of two groups, none of whose messages was delivered.
const BEGUN: &str = "\
osd pool create data 2 3 2 -> epoch 2
wire data 0 -> 3
wire data 1 -> 3
";

// The group is looked for first, by its pool's name and its number, and then the message.
const CALLS: &str = "\
deliver 'da ta' 9 9 -> refused M9 BadName
lose 'da ta' 9 9 -> refused M9 BadName
repeat 'da ta' 9 9 -> refused M9 BadName
kick '' 9 -> refused M9 BadName
deliver nope 9 9 -> refused M2 NoPool
lose nope 9 9 -> refused M2 NoPool
repeat nope 9 9 -> refused M2 NoPool
kick nope 9 -> refused M2 NoPool
deliver data 2 9 -> refused M10 NoGroup
lose data 2 9 -> refused M10 NoGroup
repeat data 2 9 -> refused M10 NoGroup
kick data 2 -> refused M10 NoGroup
deliver data 1 3 -> refused P1 NoMessage 3
lose data 1 4 -> refused P1 NoMessage 4
repeat data 1 5 -> refused P1 NoMessage 5
wire data 0 -> 3
wire data 1 -> 3
audit -> decided
";

#[test]
fn calls_on_groups_are_refused_in_order(rt: HostRuntime) {
    expect(&rt, rt.alloc(), 3, &[BEGUN, CALLS]);
}

// Questions about a group are refused as the calls on it are.
const QUESTIONS: &str = "\
wire 'da ta' 9 -> refused M9 BadName
ready 'da ta' 9 -> refused M9 BadName
wire '' 0 -> refused M9 BadName
ready '' 0 -> refused M9 BadName
wire nope 9 -> refused M2 NoPool
ready nope 9 -> refused M2 NoPool
wire data 2 -> refused M10 NoGroup
ready data 2 -> refused M10 NoGroup
wire data 1 -> 3
ready data 1 -> yes
wire data 0 -> 3
ready data 0 -> yes
";

#[test]
fn questions_are_refused_in_order(rt: HostRuntime) {
    expect(&rt, rt.alloc(), 3, &[BEGUN, QUESTIONS]);
}
