//! What two texts share in pools that are given, each by a call of its own.

use crate::pieces::{TagRow, expect_so, pools_of, ticket};
use cap_text::AllowGrant;
use grant_core::Path;
use share_core::{Pool, Touch, example_in, is_for, share_in};
use std::alloc::Global;
use std::process::Abort;

/// What the one writes, what the other reads, and of which pool the example is.
type Row = (&'static str, &'static str, Option<&'static str>);

const ROWS: &[Row; 6] = &[
    ("allow w", "allow r", Some("logs")),
    ("allow w pool=web", "allow r", Some("web")),
    ("allow w pool=gone", "allow r", None),
    ("allow w tag cephfs data=web", "allow r", Some("web")),
    ("allow w tag cephfs data=mail", "allow r", None),
    ("allow w namespace=a", "allow r namespace=b", None),
];

/// The pool `logs` without tags, and the pool `web` of the file system `web`.
const POOLS: &[(&str, &[TagRow]); 2] = &[("logs", &[]), ("web", &[("cephfs", "data", "web")])];

/// Whether both calls say of two texts what a row says.
fn is_so<R: Abort>(rt: &R, alloc: Global, pools: &[Pool], (ones, others, wanted): Row) -> bool {
    let ones = ticket(rt, alloc, ones, None);
    let others = ticket(rt, alloc, others, None);
    let (writes, reads) = (Touch::AnyWrite, Touch::AnyRead);
    let shares = share_in(&ones, &writes, &others, &reads, pools);
    let found = example_in(alloc, &ones, &writes, &others, &reads, pools).expect(rt, "memory");
    match (found, wanted) {
        (Some(target), Some(pool)) => shares && target.pool.as_str() == pool,
        (None, None) => !shares,
        _ => false,
    }
}

#[test]
fn pools_that_are_given_count_alone(rt: HostRuntime) {
    let pools = pools_of(&rt, rt.alloc(), POOLS);
    for row in ROWS {
        expect_so(&rt, is_so(&rt, rt.alloc(), &pools, *row), row.0);
    }
}

/// For which of some pools the first grant is, as a sum of their powers of two.
fn first_is_for(grants: &[(Path, AllowGrant)], pools: &[Pool]) -> u32 {
    let mut sum = 0u32;
    let mut power = 1u32;
    for pool in pools {
        if grants.iter().take(1).any(|(_, grant)| is_for(grant, pool)) {
            sum = sum.saturating_add(power);
        }
        power = power.saturating_mul(2);
    }
    sum
}

/// Texts, and for which of both pools their first grant is.
const FIRSTS: &[(&str, u32); 4] = &[
    ("allow r object_prefix a", 3),
    ("allow r pool=logs", 1),
    ("allow r tag cephfs *=web", 2),
    ("allow r tag rbd *=*", 0),
];

#[test]
fn a_grant_is_for_pools_of_its_name_and_tag(rt: HostRuntime) {
    let pools = pools_of(&rt, rt.alloc(), POOLS);
    for (text, want) in FIRSTS {
        let ticket = ticket(&rt, rt.alloc(), text, None);
        expect_so(&rt, first_is_for(ticket.grants(), &pools) == *want, text);
    }
}
