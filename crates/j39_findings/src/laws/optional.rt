//! The law of optional signals.
ghost use Rattle.j39_network.specs.declared.plan.Plan.{Plan};
ghost use Rattle.j39_network.specs.SignalPlaces.{HasNoOptional};
ghost use Rattle.j39_findings.specs.WithoutOptional.{IsWithoutOptional};

/// Of a plan without optional signals F7 says that a signal ends behind the shortest message of its group, and each
/// message has all signals of its group that aren't repeated.
pub fn plans_without_optional_signals()
    ensures { (plan : Plan) → HasNoOptional plan → IsWithoutOptional plan }
{}
