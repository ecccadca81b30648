//! How far behind one another messages are.
ghost use Rattle.std.specs.Prelude.{◌≡◌, ◌<◌, ◌≤◌, IfSome};
ghost use Rattle.j39_audit.specs.Silence.{lag, latest_next, lies_behind, within_pause};
ghost use Rattle.j39_audit.specs.inside.Recalling.{far_ahead};

use crate::window::Window;

/// By how much a lower bound lies more than a pause behind a moment.
#[tactic(auto, unfolding(crate::specs::Silence::lag))]
pub(crate) fn lag(pause: u64, latest: Option<u64>, lower: Option<u64>) -> Option<u64>
    requires pause { pause < far_ahead }
    requires latest { IfSome latest (λ l. l < far_ahead) }
    ensures { result ≡ lag pause latest lower }
{
    let Some(moment) = latest else {
        return None;
    };
    let Some(bound) = lower else {
        return None;
    };
    if moment + pause < bound {
        Some(bound - (moment + pause))
    } else {
        None
    }
}

// Whether it does.
#[tactic(auto, unfolding(crate::specs::Silence::lies_behind))]
fn lies_behind(pause: u64, latest: Option<u64>, lower: Option<u64>) -> bool
    requires pause { pause < far_ahead }
    requires latest { IfSome latest (λ l. l < far_ahead) }
    ensures { result ≡ lies_behind pause latest lower }
{
    let Some(moment) = latest else {
        return false;
    };
    match lower {
        Some(bound) => moment + pause < bound,
        None => false,
    }
}

// The lesser of a moment a pause later and an upper bound.
#[tactic(auto, unfolding(crate::specs::Silence::within_pause))]
fn within_pause(pause: u64, latest: Option<u64>, upper: u64) -> u64
    requires pause { pause < far_ahead }
    requires latest { IfSome latest (λ l. l < far_ahead) }
    ensures value { result ≡ within_pause pause latest upper }
    ensures most { result ≤ upper }
{
    match latest {
        Some(moment) => upper.min(moment + pause),
        None => upper,
    }
}

/// The latest moment of the newest message behind a message of these bounds.
pub(crate) fn latest_next(pause: u64, latest: Option<u64>, window: Window) -> u64
    requires pause { pause < far_ahead }
    requires latest { IfSome latest (λ l. l < far_ahead) }
    ensures value { result ≡ latest_next pause latest window }
    ensures most { result ≤ window.upper }
{
    if lies_behind(pause, latest, window.lower) {
        window.upper
    } else {
        within_pause(pause, latest, window.upper)
    }
}
