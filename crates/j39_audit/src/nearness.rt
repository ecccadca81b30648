//! How near messages are to one another.
ghost use Rattle.std.specs.Prelude.{◌≡◌, ◌<◌, ◌^◌, if◌then◌else◌, IfSome};
ghost use Rattle.j39_audit.specs.Near.{candidate, excess, is_later_than, step_on};
ghost use Rattle.j39_audit.specs.inside.Recalling.{far_ahead};

use crate::window::Window;

// The earliest moment of a message that comes a step behind another one of this earliest moment, by its lower bound.
#[tactic(auto, unfolding(crate::specs::Near::step_on))]
fn stepped(step: u64, earliest: Option<u64>, lower: Option<u64>) -> Option<u64>
    requires step { step < far_ahead }
    requires earliest { IfSome earliest (λ e. e < far_ahead) }
    ensures { result ≡ step_on step earliest lower }
{
    let Some(moment) = earliest else {
        return lower;
    };
    match lower {
        Some(bound) => Some((moment + step).max(bound)),
        None => Some(moment + step),
    }
}

/// By how much a moment is later than this.
#[tactic(auto, unfolding(crate::specs::Near::excess))]
pub(crate) fn excess(moment: Option<u64>, upper: u64) -> Option<u64>
    ensures { result ≡ excess moment upper }
{
    match moment {
        Some(moment) => {
            if upper < moment {
                Some(moment - upper)
            } else {
                None
            }
        }
        None => None,
    }
}

/// The earliest moment of the next message of a stream, by the earliest one of the newest.
pub(crate) fn candidate(step: u64, earliest: Option<u64>, window: Window) -> Option<u64>
    requires step { step < far_ahead }
    requires earliest { IfSome earliest (λ e. e < far_ahead) }
    ensures { result ≡ candidate step earliest window }
{
    stepped(step, earliest, window.lower)
}

/// What is kept behind it, where this is its earliest moment.
#[tactic(auto, unfolding(crate::specs::Near::is_later_than))]
pub(crate) fn kept_behind(candidate: Option<u64>, window: Window) -> Option<u64>
    requires lower { IfSome window.lower (λ x. x < far_ahead) }
    requires upper { window.upper < far_ahead }
    ensures value { result ≡ (if is_later_than candidate window.upper then window.lower else candidate) }
    ensures near { IfSome result (λ e. e < far_ahead) }
{
    let Some(moment) = candidate else {
        return None;
    };
    if window.upper < moment {
        window.lower
    } else {
        Some(moment)
    }
}
