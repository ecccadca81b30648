//! A claim of an address, and the contest that it begins.
ghost use Rattle.std.specs.Prelude.{◌≡◌, ◌<◌, ◌&&◌, nat_lt, List, Option, Some, None, if◌then◌else◌};
ghost use Rattle.j39_network.specs.declared.plan.Plan.{Plan as APlan};
ghost use Rattle.j39_follow.specs.Contests.{IsContentionBehind, IsContestBehind, IsHeldSince, IsTakenBehind, Timed};
ghost use Rattle.j39_follow.specs.Contests.{frames_of};
ghost use Rattle.j39_follow.specs.inside.Contesting.{IsBegun, IsClaimAt, IsMet, contest_with as contest_of, defends_in};
ghost use Rattle.j39_follow.specs.inside.Contesting.{is_defended, is_place, is_soon as comes_soon, smaller_of};
ghost use Rattle.j39_follow.specs.inside.Contesting.{opponent_of, since_of};
ghost use Rattle.j39_follow.specs.inside.Recounting.{Knows};

use crate::address::changed_hands::is_same_party;
use crate::address::claimants::Claimant;
use crate::address::contest::{Contention, Contest, contest_left, is_soon, running};
use crate::address::directory::Directory;
use crate::address::who::{Who, likely_named};
use j39_id::addresses::is_in_pool;
use j39_network::Plan;

/// A claim: the NAME, what is known of it, the address that it claims, and the time of the line, if it has one.
#[derive(Clone, Copy)]
pub(crate) struct Claim {
    pub name: u64,
    pub claimant: Claimant,
    pub address: u8,
    pub time: Option<u64>,
}

// Whether this one defends an address in a contest that runs there.
fn is_defender(running: Option<Contest>, party: Who) -> bool
    ensures { result ≡ defends_in running party }
{
    match running {
        Some(contest) => is_same_party(contest.defender, party),
        None => false,
    }
}

// Whether a NAME that claims an address claimed it last, and another one holds it since so short a time.
fn claims_again(since: Option<u64>, claim: Claim) -> bool
    ensures { result ≡ (is_place claim.claimant.address claim.address && comes_soon since claim.time) }
{
    claim.claimant.address == Some(claim.address) && is_soon(since, claim.time)
}

// Whether a NAME that claims an address defends it, where it is held since this time.
fn defends(kept: Option<Contest>, since: Option<u64>, claim: Claim) -> bool
    ensures { result ≡ is_defended kept since claim }
{
    claims_again(since, claim) || is_defender(running(kept, claim.time), claim.claimant.party)
}

// Since when the NAME that holds an address does, if one does.
fn since_of(holder: Option<u64>, since: Option<u64>) -> Option<u64>
    ensures { result ≡ since_of holder since }
{
    match holder {
        Some(_name) => since,
        None => None,
    }
}

// The NAME that is guessed at an address, if it is smaller than the one that claims it.
fn smaller(guess: Option<u64>, claimant: u64) -> Option<u64>
    ensures { result ≡ smaller_of guess claimant }
{
    let Some(name) = guess else {
        return None;
    };
    if name < claimant { Some(name) } else { None }
}

// The NAME that holds an address, if it is smaller than the one that claims it, or this one doesn't defend it.
fn in_the_way(holder: u64, claimant: u64, is_defence: bool) -> Option<u64>
    ensures { result ≡ opponent_of holder claimant is_defence }
{
    if holder < claimant || !is_defence {
        Some(holder)
    } else {
        None
    }
}

// The NAME that a claim meets: one that holds the address, or is guessed there.
fn opponent(plan: &Plan, directory: &Directory, old: Contention, claim: Claim) -> Option<u64>
    ensures { (before : List Timed) (x : Timed) → Knows plan.now directory.now (frames_of before)
        → IsClaimAt plan.now before x claim
        → IsMet plan.now before old x claim result }
{
    match directory.holder(claim.address) {
        Some(holder) => {
            let is_defence = defends(old.contest, old.since, claim);
            in_the_way(holder, claim.name, is_defence)
        },
        None => smaller(directory.guessed(plan, claim.address), claim.name),
    }
}

// The contest that a claim begins where it meets this NAME.
fn contest_with(
    plan: &Plan,
    taken: Option<u64>,
    claim: Claim,
    opponent: u64,
    since: u64,
) -> Option<Contest>
    ensures { result ≡ contest_of plan.now taken claim opponent since }
{
    let defender = likely_named(plan, opponent);
    if is_same_party(defender, claim.claimant.party) {
        return None;
    }
    Some(Contest {
        defender,
        since,
        taken: if claim.name < opponent { taken } else { None },
    })
}

// The contest that a claim begins.
fn begun(plan: &Plan, directory: &Directory, old: Contention, claim: Claim) -> Option<Contest>
    ensures { (before : List Timed) (x : Timed) → Knows plan.now directory.now (frames_of before)
        → IsClaimAt plan.now before x claim
        → IsBegun plan.now before old x claim.address result }
{
    let Some(since) = claim.time else {
        return None;
    };
    if !is_in_pool(claim.address) {
        return None;
    }
    if running(old.contest, claim.time).is_some() {
        return None;
    }
    let Some(opponent) = opponent(plan, directory, old, claim) else {
        return None;
    };
    contest_with(plan, old.taken, claim, opponent, since)
}

// Whether there is a NAME, and it is this one.
fn is_name(holder: Option<u64>, name: u64) -> bool
    ensures { result ≡ is_place holder name }
{
    match holder {
        Some(holder) => holder == name,
        None => false,
    }
}

// When the address was taken, behind a claim of it.
fn taken_behind(directory: &Directory, old: Contention, claim: Claim) -> Option<u64>
    ensures { (plan : APlan) (before : List Timed) (x : Timed) → Knows plan directory.now (frames_of before)
        → IsClaimAt plan before x claim
        → IsTakenBehind plan before old x claim.address result }
{
    let holder = directory.holder(claim.address);
    if is_name(holder, claim.name) {
        return old.taken;
    }
    if defends(old.contest, since_of(holder, old.since), claim) {
        None
    } else {
        claim.time
    }
}

// Since when the address is held, behind a claim of it.
fn since_behind(directory: &Directory, old: Contention, claim: Claim) -> Option<u64>
    ensures { (plan : APlan) (before : List Timed) (x : Timed) → Knows plan directory.now (frames_of before)
        → IsClaimAt plan before x claim
        → IsHeldSince before old x claim.address result }
{
    if is_name(directory.holder(claim.address), claim.name) {
        old.since
    } else {
        claim.time
    }
}

// The contest that is kept at an address behind a claim of it: the one that it begins, or the one from before that it
// doesn't end.
fn contest_behind(
    plan: &Plan,
    directory: &Directory,
    old: Contention,
    claim: Claim,
) -> Option<Contest>
    ensures { (before : List Timed) (x : Timed) → Knows plan.now directory.now (frames_of before)
        → IsClaimAt plan.now before x claim
        → IsContestBehind plan.now before old x claim.address result }
{
    match begun(plan, directory, old, claim) {
        Some(contest) => Some(contest),
        None => contest_left(old.contest, claim.claimant.party),
    }
}

/// What is known of an address behind a claim of it.
pub(crate) fn contention_behind(
    plan: &Plan,
    directory: &Directory,
    old: Contention,
    claim: Claim,
) -> Contention
    ensures { (before : List Timed) (x : Timed) → Knows plan.now directory.now (frames_of before)
        → IsClaimAt plan.now before x claim
        → IsContentionBehind plan.now before old x claim.address result }
{
    let taken = taken_behind(directory, old, claim);
    let contest = contest_behind(plan, directory, old, claim);
    Contention {
        since: since_behind(directory, old, claim),
        taken,
        contest,
    }
}
