//! Where the grants of a ticket stand that may speak of a request.

ghost use Rattle.std.specs.Prelude.{◌≡◌, ◌+◌, ◌<◌, ◌≤◌, ◌⊎◌, ◌||◌, ◌==◌, true, false, length, option_copied, IsSome, IfOk};
ghost use Rattle.std.specs.List.{list_any, list_all};
ghost use Rattle.std.specs.Option.{ForSome};
ghost use Rattle.verdict_core.specs.Chains.{AreChained, NoneBefore, NoneOfKind, NoneOfPairs, NoneOfTags};
ghost use Rattle.verdict_core.specs.Kinds.{chains_of};
ghost use Rattle.verdict_core.specs.Chains as spec;
ghost use Rattle.verdict_core.specs.Verdict.{grants_allow, is_covered, is_usable};

use crate::hashing::{folded, hash};
use crate::judging;
use crate::kinds::{
    IndexBy, IndexKey, NO_KIND, chain_of, front_hash, kinds_of, only_number, pair_hash,
};
use crate::matching::{CHAINED, allows, full_is_usable, quick_is_usable};
use cap_text::AllowGrant;
use common_types::{AppTags, OutOfMemory};
use grant_core::Path;
use request_types::{ClassCall, Needs, Target};
use std::alloc::Global;

/// How many chains there are.
const CHAINS: usize = NO_KIND + 1;

/// What is asked of the chains. Each question has a copy of what looks for its answer, so that all of it is inlined where it is
/// asked. Here it is whether a grant is usable.
const NO_CALL: u8 = 0;

/// Whether a usable grant covers a call.
const A_CALL: u8 = 1;

/// The grants of a ticket in chains, each in the ticket's order. Those of a kind whose parts are hashed alike share a chain, and
/// those that are of no kind.
#[derive(Debug)]
pub(crate) struct Chains {
    /// By which parts grants are found.
    kinds: Vec<IndexKey>,
    /// The first place of each chain, or the number of grants.
    first: Vec<u16>,
    /// Behind each place the next one of its chain, or the number of grants.
    next: Vec<u16>,
}

impl Drop for Chains {
    fn drop(self) {
        let Chains {
            kinds: _,
            first: _,
            next: _,
        } = self;
    }
}

/// Whether all grants are in one chain, so that a walk along it looks at each. No verdict depends on the answer.
fn share_a_chain(next: &[u16]) -> bool {
    next.iter()
        .enumerate()
        .all(|(place, next)| usize::from(*next) == place + 1)
}

/// Whether a grant is usable, mostly by a few comparisons of words. It is a call of its own that saves no registers: where they do
/// not tell, another one goes on in its place.
#[inline(never)]
fn quick_is_usable_mostly(grant: &AllowGrant, target: &Target<'_>, needs: &Needs) -> bool
    ensures { result ≡ is_usable grant.now target.now needs.now }
{
    match quick_is_usable::<CHAINED>(grant, target, needs) {
        Some(usable) => usable,
        None => full_is_usable(grant, target, needs),
    }
}

/// Whether a grant is usable, and covers the call where one is asked for.
#[inline(always)]
fn gives(grant: &AllowGrant, target: &Target<'_>, needs: &Needs, call: Option<&ClassCall>) -> bool
    ensures { result ≡ spec.gives grant.now target.now needs.now (option_copied call.entry) }
{
    match call {
        None => quick_is_usable_mostly(grant, target, needs),
        Some(call) => allows(grant, target, needs, call),
    }
}

impl Chains {
    /// The chains of these grants, unless all are in one. It takes time in their number.
    pub(crate) fn of(
        alloc: Global,
        grants: &[(Path, AllowGrant)],
    ) -> Result<Option<Chains>, OutOfMemory>
        requires { length grants.now ≤ 16384 }
        ensures { IfOk result (λ chains. ForSome chains (λ p. AreChained 0 (chains_of p.kinds.items grants.now) p.first.items p.next.items)) }
    {
        let chains = Chains::by(kinds_of(alloc, grants)?, alloc, grants)?;
        if share_a_chain(chains.next.as_slice()) {
            return Ok(None);
        }
        Ok(Some(chains))
    }

    /// The chains of these grants, by these kinds.
    fn by(
        kinds: Vec<IndexKey>,
        alloc: Global,
        grants: &[(Path, AllowGrant)],
    ) -> Result<Chains, OutOfMemory>
        requires { length grants.now ≤ 16384 }
        ensures { IfOk result (λ p. AreChained 0 (chains_of p.kinds.items grants.now) p.first.items p.next.items) }
    {
        let count = grants.len();
        let none = count as u16;
        let mut first = vec![in alloc; none; CHAINS]?;
        let mut next = vec![in alloc; none; count]?;
        for done in 0..count {
            let place = count - 1 - done;
            let chain = chain_of(kinds.as_slice(), &grants[place].1);
            next[place] = first[chain];
            first[chain] = place as u16;
        }
        Ok(Chains { kinds, first, next })
    }

    /// Whether some grant of a chain gives what is asked. Most chains are empty, which is seen without a call.
    #[inline(always)]
    fn chain_gives<const ASKED: u8>(
        &self,
        grants: &[(Path, AllowGrant)],
        chain: usize,
        target: &Target<'_>,
        needs: &Needs,
        call: Option<&ClassCall>,
    ) -> bool
        requires chain { chain < 257 }
        requires chained { AreChained 0 (chains_of self.now.kinds.items grants.now) self.now.first.items self.now.next.items }
        ensures some { result ≡ true
            → list_any (λ entry. spec.gives entry.1 target.now needs.now (option_copied call.entry)) grants.now ≡ true }
        ensures none { result ≡ false
            → NoneBefore self.now.kinds.items (length grants.now) grants.now chain target.now needs.now (option_copied call.entry) }
    {
        let mut place = usize::from(self.first[chain]);
        while place < grants.len() {
            if gives(&grants[place].1, target, needs, call) {
                return true;
            }
            place = usize::from(self.next[place]);
        }
        false
    }

    /// Whether some grant gives what is asked, of those that are found by a pair of an application.
    #[inline(always)]
    fn pairs_give<const ASKED: u8>(
        &self,
        grants: &[(Path, AllowGrant)],
        app: &AppTags,
        front: u64,
        target: &Target<'_>,
        needs: &Needs,
        call: Option<&ClassCall>,
    ) -> bool
        requires chained { AreChained 0 (chains_of self.now.kinds.items grants.now) self.now.first.items self.now.next.items }
        ensures some { result ≡ true
            → list_any (λ entry. spec.gives entry.1 target.now needs.now (option_copied call.entry)) grants.now ≡ true }
        ensures none { result ≡ false
            → NoneOfPairs (length app.now.pairs) app.now.pairs app.now.application front self.now.kinds.items grants.now target.now needs.now (option_copied call.entry) }
    {
        for pair in app.pairs.as_slice() {
            let chain = folded(pair_hash(&app.application, &pair.0, &pair.1), front);
            if self.chain_gives::<ASKED>(grants, chain, target, needs, call) {
                return true;
            }
        }
        false
    }

    /// Whether some grant gives what is asked, of those that are found by the tags of the request's pool, whatever these are.
    #[inline(never)]
    fn all_tags_give<const ASKED: u8>(
        &self,
        grants: &[(Path, AllowGrant)],
        front: u64,
        target: &Target<'_>,
        needs: &Needs,
        call: Option<&ClassCall>,
    ) -> bool
        requires chained { AreChained 0 (chains_of self.now.kinds.items grants.now) self.now.first.items self.now.next.items }
        ensures some { result ≡ true
            → list_any (λ entry. spec.gives entry.1 target.now needs.now (option_copied call.entry)) grants.now ≡ true }
        ensures none { result ≡ false
            → NoneOfTags (length target.now.tags) target.now.tags front self.now.kinds.items grants.now target.now needs.now (option_copied call.entry) }
    {
        for app in target.tags.as_slice() {
            if self.pairs_give::<ASKED>(grants, app, front, target, needs, call) {
                return true;
            }
        }
        false
    }

    /// Whether some grant gives what is asked, of those that are found by the tags of the request's pool.
    #[inline(always)]
    fn tags_give<const ASKED: u8>(
        &self,
        grants: &[(Path, AllowGrant)],
        front: u64,
        target: &Target<'_>,
        needs: &Needs,
        call: Option<&ClassCall>,
    ) -> bool
        requires chained { AreChained 0 (chains_of self.now.kinds.items grants.now) self.now.first.items self.now.next.items }
        ensures some { result ≡ true
            → list_any (λ entry. spec.gives entry.1 target.now needs.now (option_copied call.entry)) grants.now ≡ true }
        ensures none { result ≡ false
            → NoneOfTags (length target.now.tags) target.now.tags front self.now.kinds.items grants.now target.now needs.now (option_copied call.entry) }
    {
        match only_number(target.tags) {
            Some(number) => {
                self.chain_gives::<ASKED>(grants, folded(number, front), target, needs, call)
            }
            None => self.all_tags_give::<ASKED>(grants, front, target, needs, call),
        }
    }

    /// Whether some grant of a kind gives what is asked.
    #[inline(always)]
    fn kind_gives<const ASKED: u8>(
        &self,
        kind: IndexKey,
        grants: &[(Path, AllowGrant)],
        target: &Target<'_>,
        needs: &Needs,
        call: Option<&ClassCall>,
    ) -> bool
        requires named { (needs.now.reads || needs.now.writes ≡ true) ⊎ IsSome (option_copied call) }
        requires chained { AreChained 0 (chains_of self.now.kinds.items grants.now) self.now.first.items self.now.next.items }
        ensures some { result ≡ true
            → list_any (λ entry. spec.gives entry.1 target.now needs.now (option_copied call.entry)) grants.now ≡ true }
        ensures none { result ≡ false
            → NoneOfKind kind self.now.kinds.items grants.now target.now needs.now (option_copied call.entry) }
    {
        let Some(front) = front_hash(target.object, kind.front) else {
            return false;
        };
        let named = match (kind.named, call) {
            (IndexBy::Nothing, _) => 0,
            (IndexBy::ThePool, _) => hash(target.pool),
            (IndexBy::TheTag, _) => return self.tags_give::<ASKED>(
                grants, front, target, needs, call,
            ),
            (IndexBy::TheClass, Some(call)) => hash(call.class.as_str().as_bytes()),
            (IndexBy::TheClass, None) => return false,
        };
        self.chain_gives::<ASKED>(grants, folded(named, front), target, needs, call)
    }

    /// Whether some grant gives what is asked: it is of some kind, or of none.
    #[inline(always)]
    fn some_gives<const ASKED: u8>(
        &self,
        grants: &[(Path, AllowGrant)],
        target: &Target<'_>,
        needs: &Needs,
        call: Option<&ClassCall>,
    ) -> bool
        requires named { (needs.now.reads || needs.now.writes ≡ true) ⊎ IsSome (option_copied call) }
        requires chained { AreChained 0 (chains_of self.now.kinds.items grants.now) self.now.first.items self.now.next.items }
        ensures { result ≡ list_any (λ entry. spec.gives entry.1 target.now needs.now (option_copied call.entry)) grants.now }
    {
        if self.chain_gives::<ASKED>(grants, NO_KIND, target, needs, call) {
            return true;
        }
        for kind in self.kinds.as_slice() {
            if self.kind_gives::<ASKED>(*kind, grants, target, needs, call) {
                return true;
            }
        }
        false
    }

    /// Whether each call is covered.
    #[inline(never)]
    fn cover_calls(&self, grants: &[(Path, AllowGrant)], target: &Target<'_>, needs: &Needs) -> bool
        requires { AreChained 0 (chains_of self.now.kinds.items grants.now) self.now.first.items self.now.next.items }
        ensures { result ≡ list_all (is_covered grants.now target.now needs.now) needs.now.calls }
    {
        needs.calls.as_slice().iter().all(|call| self.some_gives::<A_CALL>(
            grants,
            target,
            needs,
            Some(call),
        ))
    }

    /// Whether the grants allow a request, whatever the time. Where all calls are covered, some grant is usable. It is a
    /// call of its own, so that a ticket without chains is judged as fast as the plain one.
    #[inline(never)]
    pub(crate) fn allow(
        &self,
        grants: &[(Path, AllowGrant)],
        target: &Target<'_>,
        needs: &Needs,
    ) -> bool
        requires { AreChained 0 (chains_of self.now.kinds.items grants.now) self.now.first.items self.now.next.items }
        ensures { result ≡ grants_allow grants.now target.now needs.now }
    {
        if !needs.calls.as_slice().is_empty() {
            return self.cover_calls(grants, target, needs);
        }
        if needs.reads || needs.writes {
            self.some_gives::<NO_CALL>(grants, target, needs, None)
        } else {
            judging::grants_allow(grants, target, needs)
        }
    }

    /// Equal chains.
    pub(crate) fn copy(&self) -> Result<Chains, OutOfMemory>
        ensures kinds { IfOk result (λ p. p.kinds.items ≡ self.now.kinds.items) }
        ensures first { IfOk result (λ p. p.first.items ≡ self.now.first.items) }
        ensures next { IfOk result (λ p. p.next.items ≡ self.now.next.items) }
    {
        Ok(Chains {
            kinds: self.kinds.clone()?,
            first: self.first.clone()?,
            next: self.next.clone()?,
        })
    }
}
