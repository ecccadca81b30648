//! What follows from the definitions alone.
ghost use Rattle.j39_claim.specs.AddressSets.{LowestFreeIsLeast, NextFreeIsNext};
ghost use Rattle.j39_claim.specs.ExactAnswer.{LawfulPicksFollowTheRule};

/// The lowest free address is free, and each lower one of the pool is taken; where there is none, the whole pool is
/// taken.
pub fn lowest_free_is_least()
    ensures { LowestFreeIsLeast }
{}

/// The next free address is the first free one above the one that is lost, or, where none above is free, the least free
/// one; where there is none, the whole pool is taken.
pub fn next_free_is_next()
    ensures { NextFreeIsNext }
{}

/// Whatever free address a unit picks, what it says and is then follows the claim rule.
pub fn lawful_picks_follow_the_rule()
    ensures { LawfulPicksFollowTheRule }
{}
