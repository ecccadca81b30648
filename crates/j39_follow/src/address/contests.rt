//! Contests for addresses.
ghost use Rattle.std.specs.Prelude.{◌≡◌, ◌<◌, ◌==◌, ◌||◌, if◌then◌else◌, [], ◌∷◌, ◌++◌, ℕ, List, None, IfOk, OnOk};
ghost use Rattle.std.specs.Prelude.{true};
ghost use Rattle.std.specs.Prelude.{is_some};
ghost use Rattle.j39_network.specs.declared.plan.Plan.{Plan as APlan};
ghost use Rattle.j39_id.specs.FrameMeaning.{cannot_claim, claims_address, name_in};
ghost use Rattle.j39_follow.specs.Contests.{IsContentionBehind, Timed, frames_of};
ghost use Rattle.j39_follow.specs.LogLines.{moment_of};
ghost use Rattle.j39_follow.specs.inside.Contesting.{AreContests, AreRemaining, IsClaimant, claimed_place};
ghost use Rattle.j39_follow.specs.inside.Contesting.{contention_at, defender_at};
ghost use Rattle.j39_follow.specs.inside.Recounting.{Knows};

use crate::address::claim::{Claim, contention_behind};
use crate::address::claimants::{Claimant, Claimants};
use crate::address::contest::{Contention, contest_left, defender_of};
use crate::address::directory::Directory;
use crate::address::known_parties::ADDRESSES;
use crate::address::who::Who;
use crate::line::moment::moment;
use j39_id::{Frame, Ident, carried_name, claims_address};
use j39_network::Plan;
use std::alloc::{AllocError, Global};

/// What is known of the contests for each address, and of the NAMEs that claimed any.
#[derive(Drop)]
pub(crate) struct Contests {
    // 20 KB, so it isn't kept on the stack.
    table: Box<[Contention; ADDRESSES]>,
    claimants: Claimants,
}

// Ends each contest that a frame that reports of this one ends.
fn leave_contests(table: &mut [Contention; ADDRESSES], party: Who)
    ensures { AreRemaining table.old table.new party }
{
    for address in 0..ADDRESSES {
        let old = table[address];
        table[address] = Contention {
            since: old.since,
            taken: old.taken,
            contest: contest_left(old.contest, party),
        };
    }
}

// Puts what is known of one address in its place.
fn put_contention(table: &mut [Contention; ADDRESSES], address: u8, new: Contention)
    ensures { (a : ℕ) → a < 256
        → contention_at table.new a ≡ (if address == a then new else contention_at table.old a) }
{
    table[usize::from(address)] = new;
}

// Notes what a frame of this NAME ends and begins. The table is changed in place: another one takes much of the stack.
fn note_contests(
    table: &mut [Contention; ADDRESSES],
    plan: &Plan,
    directory: &Directory,
    frame: &Frame,
    name: u64,
    claimant: Claimant,
    time: Option<u64>,
)
    requires either { (claims_address frame.now || cannot_claim frame.now) ≡ true }
    requires name { name_in frame.now ≡ name }
    ensures { (log : List Timed) (address : ℕ) → address < 256 → Knows plan.now directory.now (frames_of log)
        → IsClaimant plan.now (frames_of log) name claimant
        → IsContentionBehind plan.now log (contention_at table.old address)
        (record { frame = frame.now; time = time }) address (contention_at table.new address) }
{
    let address = frame.ident.sa;
    let old = table[usize::from(address)];
    leave_contests(table, claimant.party);
    if !claims_address(frame) {
        return;
    }
    let claim = Claim {
        name,
        claimant,
        address,
        time,
    };
    let new = contention_behind(plan, directory, old, claim);
    put_contention(table, address, new);
}

// The address that a frame claims.
fn claimed(frame: &Frame) -> Option<u8>
    ensures { result ≡ claimed_place frame.now }
{
    if claims_address(frame) {
        Some(frame.ident.sa)
    } else {
        None
    }
}

// Whether there is neither of two parties.
fn are_none(source: Option<Who>, receiver: Option<Who>) -> bool
    ensures source { result ≡ true → source ≡ None }
    ensures receiver { result ≡ true → receiver ≡ None }
{
    match source {
        Some(_who) => false,
        None => match receiver {
            Some(_who) => false,
            None => true,
        },
    }
}

impl Contests {
    // Not inlined: the table is on the stack until it is in its box, and no longer.
    #[inline(never)]
    pub fn new(alloc: Global) -> Result<Self, AllocError>
        ensures { IfOk result (λ kept. (plan : APlan) → AreContests plan kept []) }
    {
        Ok(Contests {
            table: Box::new(alloc, [Contention::new(); ADDRESSES])?,
            claimants: Claimants::new(alloc),
        })
    }

    /// Notes a frame that claims an address or reports that a NAME can't, on a line with this time: what it ends and
    /// begins.
    pub fn hear(
        &mut self,
        plan: &Plan,
        directory: &Directory,
        frame: &Frame,
        time: Option<u64>,
    ) -> Result<(), AllocError>
        requires { (claims_address frame.now || cannot_claim frame.now) ≡ true }
        ensures { OnOk result ((log : List Timed) → Knows plan.now directory.now (frames_of log)
            → AreContests plan.now self.old log
            → AreContests plan.now self.new (log ++ record { frame = frame.now; time = time } ∷ [])) }
    {
        let name = carried_name(frame).to_bits();
        let claimant = self.claimants.claimant(plan, name);
        note_contests(
            &mut *self.table,
            plan,
            directory,
            frame,
            name,
            claimant,
            time,
        );
        let claimant = Claimant {
            party: claimant.party,
            address: claimed(frame),
        };
        self.claimants.note(name, claimant)
    }

    // Whether a contest began at an address, and nothing has ended it.
    fn has_begun(&self, address: u8) -> bool
        ensures { result ≡ is_some (contention_at self.now.table.value address).contest }
    {
        self.table[usize::from(address)].contest.is_some()
    }

    // Whether no contest at an address of a frame goes on, on a line of which this time is printed.
    #[inline(never)]
    fn are_over(&self, ident: Ident, time: &[u8]) -> bool
        ensures source { result ≡ true → defender_at self.now ident.sa (moment_of time.now) ≡ None }
        ensures receiver { result ≡ true → defender_at self.now ident.ps (moment_of time.now) ≡ None }
    {
        let now = moment(time);
        let source = self.defender(ident.sa, now);
        let receiver = self.defender(ident.ps, now);
        are_none(source, receiver)
    }

    /// Whether neither of the addresses of a frame is contested on a line of which this time is printed.
    pub fn are_calm(&self, ident: Ident, time: &[u8]) -> bool
        ensures source { result ≡ true → defender_at self.now ident.sa (moment_of time.now) ≡ None }
        ensures receiver { result ≡ true → defender_at self.now ident.ps (moment_of time.now) ≡ None }
    {
        let source = self.has_begun(ident.sa);
        let receiver = self.has_begun(ident.ps);
        if source {
            return self.are_over(ident, time);
        }
        if receiver {
            return self.are_over(ident, time);
        }
        true
    }

    /// Who defends an address in the contest there at this time, and isn't silent.
    pub fn defender(&self, address: u8, time: Option<u64>) -> Option<Who>
        ensures { result ≡ defender_at self.now address time }
    {
        defender_of(self.table[usize::from(address)].contest, time)
    }
}
