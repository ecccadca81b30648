//! What is wanted of a unit that sends one long message at a time.
ghost use Rattle.std.specs.Prelude.{◌≡◌, ◌+◌, ◌*◌, ◌<◌, ◌≤◌, ◌^◌, All, length, sum_by};
ghost use Rattle.j39_timing.specs.LeastShares.{IsLineBelow};
ghost use Rattle.j39_timing.specs.Waits.{IsWant, IsWanted, as_demand, frames_of_want, frames_wanted};

use crate::lines::Line;

/// Messages of at most `frames` frames that are wanted again and again: in any time `more` beside as many as periods of
/// `period` bits begin in it and in `jitter` bits before. The period isn't 0. So it is of messages whose releases are a
/// period apart, and of which each is wanted at most `jitter` bits after its release: where one of them waits, one comes
/// beside.
#[derive(Clone, Copy)]
pub struct Want {
    pub frames: u16,
    pub period: u32,
    pub jitter: u32,
    pub more: u16,
}

/// What all flows of such a unit want of one of its streams.
#[derive(Drop)]
pub struct Wanted {
    /// How many frames of the message that is under way there are at most.
    pub under_way: u16,
    /// What each flow wants. Of each one message at most waits behind the one that is under way.
    pub wants: Vec<Want>,
}

/// The frames that can be wanted in `span` bits.
pub(crate) fn frames_of_want(want: Want, span: u64) -> u64
    requires want { IsWant want }
    requires span { span < 2 ^ 33 }
    ensures frames { result ≡ frames_of_want span want }
    ensures few { result ≤ 2 ^ 43 }
{
    let messages = (span + u64::from(want.jitter)).div_ceil(u64::from(want.period));
    u64::from(want.frames) * (messages + u64::from(want.more))
}

/// The bits that are wanted at least in each time from `span` bits on: those of the messages that come beside, and a
/// part of the bus where one is wanted in each `step` bits; else what is wanted in `span` bits.
pub(crate) fn want_line(want: Want, bits: u16, step: u64, span: u64) -> Line
    requires want { IsWant want }
    requires bits { bits ≤ 2 ^ 8 }
    requires span { span < 2 ^ 33 }
    ensures below { IsLineBelow result span (λ x. frames_of_want x want * bits) }
    ensures small { (result.known ≤ 2 ^ 51) × (result.part ≤ 2 ^ 49) }
{
    if u64::from(want.period) > step {
        return Line {
            known: frames_of_want(want, span) * u64::from(bits),
            part: 0,
        };
    }
    let message = u64::from(want.frames) * u64::from(bits);
    Line {
        known: message * u64::from(want.more),
        part: message * 4_294_967_296 / u64::from(want.period),
    }
}

// The frames that all of them can ask for in `span` bits.
fn frames_of_wants(wants: &[Want], span: u64) -> u64
    requires sound { All IsWant wants.now }
    requires few { length wants.now ≤ 2048 }
    requires span { span < 2 ^ 33 }
    ensures frames { result ≡ sum_by (frames_of_want span) wants.now }
    ensures few { result ≤ 2 ^ 54 }
{
    let mut frames: u64 = 0;
    for want in wants {
        frames += frames_of_want(*want, span);
    }
    frames
}

// The bits that all of them ask for at least in each time from `span` bits on.
fn line_of_wants(wants: &[Want], bits: u16, step: u64, span: u64) -> Line
    requires sound { All IsWant wants.now }
    requires few { length wants.now ≤ 2048 }
    requires bits { bits ≤ 2 ^ 8 }
    requires span { span < 2 ^ 33 }
    ensures below { IsLineBelow result span (λ x. sum_by (frames_of_want x) wants.now * bits) }
    ensures small { (result.known ≤ 2 ^ 62) × (result.part ≤ 2 ^ 60) }
{
    let mut line = Line { known: 0, part: 0 };
    for want in wants {
        let next = want_line(*want, bits, step, span);
        line = Line {
            known: line.known + next.known,
            part: line.part + next.part,
        };
    }
    line
}

impl Wanted {
    // The frames that can be queued by what is wanted in `span` bits.
    pub(crate) fn frames(&self, span: u64) -> u64
        requires sound { IsWanted self.now }
        requires span { span < 2 ^ 33 }
        ensures frames { result ≡ frames_wanted span (as_demand self.now) }
        ensures few { result ≤ 2 ^ 54 + 2 ^ 8 }
    {
        frames_of_wants(self.wants.as_slice(), span) + u64::from(self.under_way)
    }

    // The bits that are wanted at least in each time from `span` bits on.
    pub(crate) fn line(&self, bits: u16, step: u64, span: u64) -> Line
        requires sound { IsWanted self.now }
        requires bits { bits ≤ 2 ^ 8 }
        requires span { span < 2 ^ 33 }
        ensures below { IsLineBelow result span (λ x. frames_wanted x (as_demand self.now) * bits) }
        ensures small { (result.known ≤ 2 ^ 63) × (result.part ≤ 2 ^ 60) }
    {
        let line = line_of_wants(self.wants.as_slice(), bits, step, span);
        Line {
            known: line.known + u64::from(self.under_way) * u64::from(bits),
            part: line.part,
        }
    }
}
