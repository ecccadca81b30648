//! Twins: frames of one unit that have one identifier, since what they carry is distinguished by their data alone.
ghost use Rattle.std.specs.Prelude.{◌≡◌};
ghost use Rattle.j39_load.specs.Twins.{are_twins, is_same, may_precede};

use crate::frames::FlowFrames;
use crate::queues::keep_order;

// A number, and the same one.
fn is_same(one: Option<u64>, other: Option<u64>) -> bool
    ensures { result ≡ is_same one other }
{
    match one {
        Some(one) => match other {
            Some(other) => other == one,
            None => false,
        },
        None => false,
    }
}

// One of these frames may have the identifier of one of the first.
fn are_twins(own: &FlowFrames, frames: &FlowFrames) -> bool
    ensures { result ≡ are_twins own.now frames.now }
{
    is_same(own.twin_ident, frames.twin_ident) && (keep_order(frames) || !keep_order(own))
}

/// Whether one of these frames may go before one of the first, whatever addresses the units come to hold.
pub(crate) fn may_precede(own: &FlowFrames, frames: &FlowFrames) -> bool
    ensures { result ≡ may_precede own.now frames.now }
{
    frames.least_ident < own.greatest_ident || are_twins(own, frames)
}
