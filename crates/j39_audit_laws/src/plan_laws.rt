//! Laws of which flows an audit judges, in the words of the plan and of `load`.
ghost use Rattle.j39_audit_laws.specs.JudgedFlows.{SilenceIsToldOf, TimedFlowsAreJudged};

/// Silence is told of a flow exactly where no frames are missing in the log, the flow has `pause` and `period` and no
/// `on_request`, its messages have 8 bytes at most, and its sender and its one receiver claim.
pub fn silence_is_told_of_flows_that_show_it()
    ensures { SilenceIsToldOf }
{}

/// By load exactly those flows are judged of which `load` answers a time, within the limit or above it: by no less than
/// this time, of a logger whose clock may be a thousandth fast.
pub fn timed_flows_are_judged_by_load()
    ensures { TimedFlowsAreJudged }
{}
