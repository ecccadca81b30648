//! Laws of who is at an address, where a log breaks off, and which bits and broadcasts count, in words of claims and numbers.
ghost use Rattle.j39_audit_laws.specs.KnownSenders.{AloneIsTheSender, OthersAreUnsure, RightClaimsAreByThePlan};
ghost use Rattle.j39_audit_laws.specs.LogTimes.{BreaksAreByNumbers, BroadcastsArePlanned, DamageMayFillAll};
ghost use Rattle.j39_audit_laws.specs.LogTimes.{NewestIsGreatest, TimesBegin, TimesNeedTiming};

/// Who sends from an address is sure of a unit that claimed it last, also where strangers come, if no other unit may be
/// there. It isn't sure where a NAME of no unit claimed the address.
pub fn senders_are_known_by_claims()
    ensures alone { AloneIsTheSender }
    ensures others { OthersAreUnsure }
{}

/// A claim is as planned exactly where the unit claims addresses and this is one of its own by the plan: its planned
/// one, or where it may move each of 128 to 247 that isn't kept free, and with strangers those that are.
pub fn right_claims_are_by_the_plan()
    ensures { RightClaimsAreByThePlan }
{}

/// A log breaks off just before a frame whose time is more than a second behind the greatest since times began, or
/// before that one by more than twice the logger's error; then times begin anew, as behind a frame without a time. Of a
/// plan without `timing` no line has a time.
pub fn breaks_are_by_numbers()
    ensures breaks { BreaksAreByNumbers }
    ensures newest { NewestIsGreatest }
    ensures first { TimesBegin }
    ensures timing { TimesNeedTiming }
{}

/// No idle bit is seen on a bus whose damaged frames may fill each bit.
pub fn full_buses_show_no_idle_bit()
    ensures { DamageMayFillAll }
{}

/// Packets to all are judged behind the announcement of a message that a flow may bring, where each such flow has a
/// period.
pub fn judged_broadcasts_are_planned()
    ensures { BroadcastsArePlanned }
{}
