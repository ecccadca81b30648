//! Frames that a log has again, by loggers with two sockets or in merged files.
ghost use Rattle.std.specs.Prelude.{◌≡◌, ◌<◌, ◌^◌, Some};
ghost use Rattle.std.specs.Str.{bytes_eq};
ghost use Rattle.j39_audit.specs.Again.{broadcast_again, broadcasts_again, is_again, is_again_behind, is_same_frame};
ghost use Rattle.j39_audit.specs.Again.{is_too_soon};
ghost use Rattle.j39_audit.specs.Again.{later_behind, moments_again, newest_later, shortest_frame, taken_frame};
ghost use Rattle.j39_audit.specs.BegunBroadcasts.{BegunBroadcasts as SomeBroadcasts};
ghost use Rattle.j39_audit.specs.Moments.{Moments as SomeMoments};
ghost use Rattle.j39_audit.specs.inside.Recalling.{AreNear, RecallsBroadcasts, RecallsMoments, begun_in, far_ahead};
ghost use Rattle.j39_audit.specs.inside.Recalling.{newest_in, settings_of};

use crate::basis::Basis;
use crate::broadcasts::{BegunBroadcast, BegunBroadcasts};
use crate::idle::{LONG_BEFORE, bit_us};
use crate::moments::Moments;
use crate::pauses::Newest;
use crate::places::{keep_at, kept_at};
use crate::tally::Sighting;
use j39_id::Frame;
use j39_network::{Plan, Timing};

/// A frame with a time in microseconds and its line, the flow and the request of which it was seen, and the unit for
/// which it counted.
#[derive(Drop)]
pub struct TakenFrame {
    pub frame: Frame,
    pub time: u64,
    pub line: u64,
    pub flow: Option<usize>,
    pub request: Option<usize>,
    pub unit: Option<usize>,
}

// The least microseconds of a frame of so many bytes, with the bits that stand behind each.
fn shortest_frame(timing: Timing, bytes: usize) -> u64
    requires { bytes < 2 ^ 16 }
    ensures value { result ≡ shortest_frame timing bytes }
    ensures few { result < 2 ^ 32 }
{
    u64::from(bit_us(timing.bitrate)) * (67 + 8 * bytes as u64)
}

// Whether two lists of bytes are one.
fn are_same(bytes: &[u8], others: &[u8]) -> bool
    ensures { result ≡ bytes_eq bytes.now others.now }
{
    bytes == others
}

// Whether two frames have one identifier and the same bytes.
fn is_same_frame(frame: &Frame, other: &Frame) -> bool
    ensures { result ≡ is_same_frame frame.now other.now }
{
    frame.ident.to_bits() == other.ident.to_bits()
        && are_same(frame.payload.as_slice(), other.payload.as_slice())
}

// Whether a frame of this time comes sooner behind one of an earlier time than this can have been sent once more.
fn is_too_soon(timing: Timing, frame: &Frame, before: u64, time: u64) -> bool
    ensures { result ≡ is_too_soon timing frame.now before time }
{
    before <= time && time - before < shortest_frame(timing, frame.payload.len())
}

// Whether a frame of this time is the one before, which stands there again.
fn is_again_behind(timing: Timing, one: &TakenFrame, time: u64, frame: &Frame) -> bool
    ensures { result ≡ is_again_behind timing one.now time frame.now }
{
    is_same_frame(&one.frame, frame) && is_too_soon(timing, frame, one.time, time)
}

/// Whether a frame of this time is the one before it, if there is one, which stands there again.
#[tactic(auto, unfolding(crate::specs::Again::is_again))]
pub(crate) fn is_again(
    plan: &Plan,
    taken: &Option<TakenFrame>,
    time: Option<u64>,
    frame: &Frame,
) -> bool
    ensures { result ≡ is_again plan.now taken.now time frame.now }
{
    let Some(one) = taken else {
        return false;
    };
    let Some(time) = time else {
        return false;
    };
    match plan.timing {
        Some(timing) => is_again_behind(timing, one, time, frame),
        None => false,
    }
}

/// What is known of a frame of this time, if it has one, and of this line, that was seen so.
pub(crate) fn taken_frame(
    time: Option<u64>,
    frame: Frame,
    line: u64,
    sighting: Sighting,
) -> Option<TakenFrame>
    ensures { result ≡ taken_frame time frame line sighting }
{
    match time {
        Some(time) => Some(TakenFrame {
            frame,
            time,
            line,
            flow: sighting.flow,
            request: sighting.request,
            unit: sighting.unit,
        }),
        None => None,
    }
}

impl Moments {
    // Keeps a later moment of this newest message of the flow at a place.
    fn put_off(&mut self, place: usize, moment: u64, newest: Newest)
        requires moment { moment < far_ahead }
        requires near { AreNear self.old }
        requires kept { newest_in self.old.pauses place ≡ Some newest }
        ensures near { AreNear self.new }
        ensures moments { (m : SomeMoments) → RecallsMoments self.old m
            → RecallsMoments self.new (record m { newest = newest_later place moment (Some newest) m.newest }) }
    {
        let line = newest.line;
        self.pauses.is_open = true;
        keep_at(
            &mut self.pauses.newest,
            place,
            Some(Newest { moment, line }),
        );
    }

    // So of the flow at a place, if one is kept.
    fn put_off_of(&mut self, place: usize, moment: u64)
        requires moment { moment < far_ahead }
        requires near { AreNear self.old }
        ensures near { AreNear self.new }
        ensures moments { (m : SomeMoments) → RecallsMoments self.old m
            → RecallsMoments self.new (record m { newest = newest_later place moment (m.newest place) m.newest }) }
    {
        if let Some(newest) = self.pauses.newest(place) {
            self.put_off(place, moment, newest);
        }
    }

    /// Takes a frame of this flow that stands there again at this time.
    pub fn take_again(&mut self, basis: &Basis<'_>, flow: Option<usize>, time: u64)
        requires time { time < 2 ^ 61 }
        requires near { AreNear self.old }
        ensures near { AreNear self.new }
        ensures moments { (m : SomeMoments) → RecallsMoments self.old m
            → RecallsMoments self.new (moments_again (settings_of basis.now) flow time m) }
    {
        self.before = Some(time);
        if let Some(place) = flow {
            let moment = time + LONG_BEFORE + basis.logger_error();
            self.put_off_of(place, moment);
        }
    }
}

impl BegunBroadcasts {
    // Keeps a later moment of the frame of this line, if the next packet of this broadcast comes behind it.
    fn put_off(
        &mut self,
        basis: &Basis<'_>,
        unit: usize,
        line: u64,
        moment: u64,
        begun: BegunBroadcast,
    )
        requires { begun_in self.old unit ≡ Some begun }
        ensures { (b : SomeBroadcasts) → RecallsBroadcasts (settings_of basis.now) self.old b
            → RecallsBroadcasts (settings_of basis.now) self.new (later_behind unit line moment begun b) }
    {
        if begun.line == line {
            let left = begun.left;
            self.set(basis, unit, Some(BegunBroadcast { left, moment, line }));
        }
    }

    // So of the broadcast of a unit, if it has one.
    fn put_off_of(&mut self, basis: &Basis<'_>, unit: usize, line: u64, moment: u64)
        ensures { (b : SomeBroadcasts) → RecallsBroadcasts (settings_of basis.now) self.old b
            → RecallsBroadcasts (settings_of basis.now) self.new (broadcast_again unit line moment (b.begun unit) b) }
    {
        if let Some(begun) = kept_at(&self.begun, unit) {
            self.put_off(basis, unit, line, moment, begun);
        }
    }

    /// Takes a frame of this unit and line that stands there again at this time.
    pub fn take_again(&mut self, basis: &Basis<'_>, unit: Option<usize>, line: u64, time: u64)
        requires time { time < 2 ^ 61 }
        ensures { (b : SomeBroadcasts) → RecallsBroadcasts (settings_of basis.now) self.old b
            → RecallsBroadcasts (settings_of basis.now) self.new
            (broadcasts_again (settings_of basis.now) unit line time b) }
    {
        if let Some(unit) = unit {
            let moment = time + LONG_BEFORE + basis.logger_error();
            self.put_off_of(basis, unit, line, moment);
        }
    }
}
