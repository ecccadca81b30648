//! What the basis of an audit reports.
ghost use Rattle.std.specs.Prelude.{◌≡◌, ◌≤◌, ◌&&◌, not};
ghost use Rattle.std.specs.FinSet.{contains};
ghost use Rattle.j39_id.specs.Addresses.{in_pool};
ghost use Rattle.j39_audit.specs.Claiming.{has_strangers, is_address_of, is_free_for};
ghost use Rattle.j39_audit.specs.SentMessages.{has_flow_of};
ghost use Rattle.j39_audit.specs.QueueTimes.{queue_time_of};
ghost use Rattle.j39_audit.specs.Settings.{by_load, logger_error, moves, response_of};
ghost use Rattle.j39_audit.specs.inside.Recalling.{settings_of};
ghost use Rattle.j39_audit.specs.inside.ResponseTimes.{IsResponse};

use crate::basis::Basis;
use crate::by_load::Bound;
use j39_id::Address;
use j39_id::addresses::is_in_pool;

// The command takes no greater error of a logger.
const MOST_STAMPS: u64 = 1_000_000;

impl<'a> Basis<'a> {
    /// The same, by load.
    pub fn by_load(&self) -> Basis<'a>
        ensures { settings_of result ≡ by_load (settings_of self.now) }
    {
        Basis {
            plan: self.plan,
            moving: self.moving,
            sent: self.sent,
            part: self.part,
            stamps: self.stamps,
            quiet: self.quiet,
            responses: self.responses,
            queue_times: self.queue_times,
            bound: Bound::Load,
        }
    }

    /// How long behind its moment a message of the flow at a place has been sent at most, where this is known.
    pub fn response(&self, place: usize) -> Option<u64>
        ensures value { result ≡ response_of (settings_of self.now) place }
        ensures few { IsResponse result }
    {
        if place < self.responses.len() {
            self.responses[place]
        } else {
            None
        }
    }

    /// Within how many milliseconds of its moment a message of the flow at a place is queued, where this is known.
    #[tactic(auto, unfolding(crate::specs::QueueTimes::queue_time_of))]
    pub fn queueing_of(&self, place: usize) -> Option<u16>
        ensures { result ≡ queue_time_of (settings_of self.now).plan place }
    {
        if place < self.queue_times.len() {
            self.queue_times[place]
        } else {
            None
        }
    }

    /// The logger's error in microseconds.
    pub fn logger_error(&self) -> u64
        ensures value { result ≡ logger_error (settings_of self.now) }
        ensures few { result ≤ 1000000 }
    {
        self.stamps.min(MOST_STAMPS)
    }

    /// Whether a unit may move to other addresses.
    pub fn moves(&self, unit: usize) -> bool
        ensures { result ≡ moves (settings_of self.now) unit }
    {
        if unit < self.moving.len() {
            self.moving[unit]
        } else {
            false
        }
    }

    /// Whether a unit has a flow of a group.
    pub fn sends(&self, unit: usize, group: usize) -> bool
        ensures { result ≡ has_flow_of (settings_of self.now) unit group }
    {
        match self.sent.get(unit) {
            Some(row) => { if group < row.len() { row[group] } else { false } }
            None => false,
        }
    }

    /// Whether units may come that aren't in the plan.
    pub fn has_strangers(&self) -> bool
        ensures { result ≡ has_strangers (settings_of self.now) }
    {
        self.plan.strangers > 0
    }

    /// Whether an address is one of 128 to 247 that isn't kept free.
    pub fn is_not_kept(&self, address: u8) -> bool
        ensures { result ≡ (in_pool address && not (contains (settings_of self.now).plan.keep_free address)) }
    {
        let Some(free) = Address::new(address) else {
            return false;
        };
        is_in_pool(address) && !self.plan.keep_free.has(free)
    }

    // Whether a unit that moves may go to an address.
    fn is_free(&self, address: u8) -> bool
        ensures { result ≡ is_free_for (settings_of self.now) address }
    {
        let Some(free) = Address::new(address) else {
            return false;
        };
        is_in_pool(address) && (self.has_strangers() || !self.plan.keep_free.has(free))
    }

    /// Whether an address is one of a unit.
    #[tactic(auto, unfolding(crate::specs::Claiming::is_address_of))]
    pub fn is_address(&self, unit: usize, address: u8) -> bool
        ensures { result ≡ is_address_of (settings_of self.now) unit address }
    {
        match self.plan.units.get(unit) {
            Some(planned) => {
                planned.address.number() == address || self.moves(unit) && self.is_free(address)
            }
            None => false,
        }
    }
}
