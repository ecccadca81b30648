//! Requests for groups, and what was asked for by them.
ghost use Rattle.std.specs.Prelude.{◌≡◌, ◌<◌, ◌^◌, IfSome, OnOk, None};
ghost use Rattle.j39_audit.specs.Counting.{Key, key_of};
ghost use Rattle.j39_audit.specs.Requests.{GroupRequests as SomeRequests, asks_for_planned, is_requested_by, is_requested};
ghost use Rattle.j39_audit.specs.Requests.{is_in_time, is_planned_number as is_number};
ghost use Rattle.j39_audit.specs.Requests.{later_time, request_mark, requests_before, requests_behind, with_request};
ghost use Rattle.j39_audit.specs.Requests.{with_request_of};
ghost use Rattle.j39_audit.specs.inside.Recalling.{RecallsRequests, earliest_in, requests_in, settings_of};

use crate::basis::Basis;
use crate::earliest::Earliest;
use crate::mark::{Mark, Word};
use crate::streams::longest_us;
use j39_id::addresses::GLOBAL_ADDRESS;
use j39_id::{Frame, requested_group, requests_group};
use j39_network::{Plan, Timing};
use std::alloc::{AllocError, Global};

// So many milliseconds behind a request the answer to it is there at the latest.
const LONGEST_REPLY_MS: u32 = 1_250;

/// Of each number of a group and destination, whether it was asked for, and the newest time at which it was since times
/// began anew: so by all requests, and by those that are none of the plan's; and the time of the frame at hand.
#[derive(Drop)]
pub(crate) struct HeardRequests {
    pub ever: Earliest,
    pub newest: Earliest,
    pub time: Option<u64>,
}

// The mark of requests besides the plan, or of all, of this number and destination.
fn request_mark(besides: bool, number: u32, destination: u8) -> Mark
    ensures { result ≡ request_mark besides number destination }
{
    Mark {
        word: if besides {
            Word::Besides
        } else {
            Word::Answers
        },
        subject: number as usize,
        group: usize::from(destination),
    }
}

// The later one of two times, as far as they are there.
fn later_time(time: Option<u64>, before: Option<u64>) -> Option<u64>
    ensures { result ≡ later_time time before }
{
    let Some(time) = time else {
        return before;
    };
    match before {
        Some(before) => Some(time.max(before)),
        None => Some(time),
    }
}

// Whether a number is that of a group of the plan.
#[tactic(auto, unfolding(crate::specs::Requests::is_planned_number))]
fn is_planned_number(plan: &Plan, number: u32) -> bool
    ensures { result ≡ is_number plan.now number }
{
    plan.groups.iter().any(|group| group.pgn == number)
}

// Whether a frame asks for a group of the plan.
fn asks_for_planned(plan: &Plan, frame: &Frame) -> bool
    ensures { result ≡ asks_for_planned plan.now frame.now }
{
    requests_group(frame) && is_planned_number(plan, requested_group(frame))
}

// Whether a message of this time comes in time behind a request of that time, if there was one.
fn is_in_time(basis: &Basis<'_>, timing: Timing, time: u64, request: Option<u64>) -> bool
    ensures { result ≡ is_in_time (settings_of basis.now) timing time request }
{
    match request {
        Some(request) => {
            let reply = longest_us(timing, LONGEST_REPLY_MS) + 2 * basis.logger_error();
            time <= request.saturating_add(reply)
        }
        None => false,
    }
}

impl HeardRequests {
    pub fn new(alloc: Global) -> Self
        ensures ever { (key : Key) → earliest_in result.ever key ≡ None }
        ensures newest { (key : Key) → earliest_in result.newest key ≡ None }
        ensures time { result.time ≡ None }
    {
        HeardRequests {
            ever: Earliest::new(alloc),
            newest: Earliest::new(alloc),
            time: None,
        }
    }

    /// Comes to a frame of this time, just before which times begin anew, or go on.
    pub fn come_to(&mut self, anew: bool, time: Option<u64>)
        ensures requests { (r : SomeRequests) → RecallsRequests self.old r
            → RecallsRequests self.new (requests_before anew r) }
        ensures time { self.new.time ≡ time }
    {
        self.time = time;
        if anew {
            self.newest.forget();
        }
    }

    // Takes a request of this mark and time.
    fn take_mark(&mut self, mark: Mark, time: Option<u64>) -> Result<(), AllocError>
        ensures time { self.new.time ≡ self.old.time }
        ensures requests { OnOk result ((r : SomeRequests) → RecallsRequests self.old r
            → RecallsRequests self.new (with_request_of (key_of mark) time r)) }
    {
        let newest = later_time(time, self.newest.of(mark));
        self.ever.set(mark, Some(0))?;
        self.newest.set(mark, newest)
    }

    // Takes a request for this number to this destination, which is one of the plan's or none.
    fn take_number(
        &mut self,
        time: Option<u64>,
        number: u32,
        destination: u8,
        seen: Option<usize>,
    ) -> Result<(), AllocError>
        ensures time { self.new.time ≡ self.old.time }
        ensures requests { OnOk result ((r : SomeRequests) → RecallsRequests self.old r
            → RecallsRequests self.new (with_request time number destination seen r)) }
    {
        self.take_mark(request_mark(false, number, destination), time)?;
        match seen {
            Some(_request) => Ok(()),
            None => self.take_mark(request_mark(true, number, destination), time),
        }
    }

    /// Takes a frame of this time that is seen of this request of the plan, or of none, if it asks for a group.
    #[tactic(auto, unfolding(crate::specs::Requests::requests_behind))]
    pub fn take(
        &mut self,
        plan: &Plan,
        time: Option<u64>,
        frame: &Frame,
        seen: Option<usize>,
    ) -> Result<(), AllocError>
        ensures time { self.new.time ≡ self.old.time }
        ensures requests { OnOk result ((r : SomeRequests) → RecallsRequests self.old r
            → RecallsRequests self.new (requests_behind plan.now time frame.now seen r)) }
    {
        if asks_for_planned(plan, frame) {
            self.take_number(time, requested_group(frame), frame.ident.ps, seen)
        } else {
            Ok(())
        }
    }

    // Whether a message in the frame at hand was asked for by requests of this mark.
    fn is_requested_by(&self, basis: &Basis<'_>, mark: Mark) -> bool
        ensures { result ≡ is_requested_by (settings_of basis.now) self.now.time (key_of mark) (requests_in self.now) }
    {
        let Some(time) = self.time else {
            return self.ever.of(mark).is_some();
        };
        match basis.plan.timing {
            Some(timing) => is_in_time(basis, timing, time, self.newest.of(mark)),
            None => false,
        }
    }

    /// Whether a message of this number in the frame at hand, from this source, was asked for: by any, or by none of
    /// the plan's.
    #[tactic(auto, unfolding(crate::specs::Requests::is_requested))]
    pub fn have_asked_for(&self, basis: &Basis<'_>, besides: bool, number: u32, source: u8) -> bool
        ensures { result ≡ is_requested (settings_of basis.now) self.now.time
            (requests_in self.now) besides number source }
    {
        self.is_requested_by(basis, request_mark(besides, number, GLOBAL_ADDRESS))
            || self.is_requested_by(basis, request_mark(besides, number, source))
    }
}
