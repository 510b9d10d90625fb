//! Laws of what rights share: functions that do nothing, whose clauses are the laws.

ghost use Rattle.share_text.specs.Addresses.{SharesAreFromAddresses};
ghost use Rattle.share_text.specs.Retags.{RetagsAreOfTwoTargets};

/// Two tenants share something of a kind exactly where what the one has at some address and what the other has at some address
/// do. So a tenant's ticket may have all grants that some address has: a touch needs one grant alone.
pub fn shares_are_from_addresses()
    ensures { SharesAreFromAddresses }
{}

/// Grants for pools of any tags share something exactly where the grants themselves allow it at two targets of one pool, namespace
/// and object, with tags that a pool can have at each. So what is reported of pools that are tagged anew is what two share while
/// the tags change and the objects stay.
pub fn retags_are_of_two_targets()
    ensures { RetagsAreOfTwoTargets }
{}
