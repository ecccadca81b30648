//! A contest for an address.
ghost use Rattle.std.specs.Prelude.{◌≡◌};
ghost use Rattle.j39_follow.specs.Contests.{nothing_contended};
ghost use Rattle.j39_follow.specs.inside.Contesting.{defender_in, is_heard as can_be_heard, is_lasting as lasts_at};
ghost use Rattle.j39_follow.specs.inside.Contesting.{is_soon as comes_soon, remaining_of, running_of};

use crate::address::changed_hands::is_same_party;
use crate::address::who::Who;

// How long a unit waits behind its claim of an address of the pool, in microseconds.
const CLAIM_WAIT: u64 = 250_000;

/// A contest for an address: who defends it, the time of the claim that began it, and when the one that defends it took
/// the address, where it has the larger NAME and may be silent itself. Times are in microseconds.
#[derive(Clone, Copy)]
pub(crate) struct Contest {
    pub defender: Who,
    pub since: u64,
    pub taken: Option<u64>,
}

/// Since when an address is held, when it was taken last by a claim that didn't defend it, and the contest that is kept
/// there.
#[derive(Clone, Copy)]
pub(crate) struct Contention {
    pub since: Option<u64>,
    pub taken: Option<u64>,
    pub contest: Option<Contest>,
}

impl Contention {
    /// The state of an address of which nothing was reported.
    pub fn new() -> Self
        ensures { result ≡ nothing_contended }
    {
        Contention {
            since: None,
            taken: None,
            contest: None,
        }
    }
}

// Whether a contest runs at this time.
fn is_running(contest: Contest, now: u64) -> bool
    ensures { result ≡ lasts_at contest now }
{
    contest.since <= now && now - contest.since < CLAIM_WAIT
}

/// The contest that runs at this time, if one does.
pub(crate) fn running(kept: Option<Contest>, time: Option<u64>) -> Option<Contest>
    ensures { result ≡ running_of kept time }
{
    let Some(contest) = kept else {
        return None;
    };
    let Some(now) = time else {
        return None;
    };
    if is_running(contest, now) {
        Some(contest)
    } else {
        None
    }
}

/// Whether a claim comes no more than 250 ms behind the one by which an address is held, where both times are known.
pub(crate) fn is_soon(since: Option<u64>, time: Option<u64>) -> bool
    ensures { result ≡ comes_soon since time }
{
    let Some(first) = since else {
        return true;
    };
    let Some(now) = time else {
        return true;
    };
    now <= first || now - first <= CLAIM_WAIT
}

// Whether one that took the address at a time, if it did, has waited.
fn is_heard(taken: Option<u64>, now: u64) -> bool
    ensures { result ≡ can_be_heard taken now }
{
    match taken {
        Some(since) => since <= now && now - since >= CLAIM_WAIT,
        None => true,
    }
}

/// Who defends the address in a contest at this time, and isn't silent.
pub(crate) fn defender_of(kept: Option<Contest>, time: Option<u64>) -> Option<Who>
    ensures { result ≡ defender_in kept time }
{
    let Some(contest) = kept else {
        return None;
    };
    let Some(now) = time else {
        return None;
    };
    if is_running(contest, now) && is_heard(contest.taken, now) {
        Some(contest.defender)
    } else {
        None
    }
}

/// What is left of a contest at a frame that reports of this one.
pub(crate) fn contest_left(kept: Option<Contest>, party: Who) -> Option<Contest>
    ensures { result ≡ remaining_of party kept }
{
    match kept {
        Some(contest) => {
            if is_same_party(party, contest.defender) {
                None
            } else {
                Some(contest)
            }
        }
        None => None,
    }
}
