//! What is wrong with a part of a plan is wrong with the whole, and each plan has findings of its load.
ghost use Rattle.std.specs.Prelude.{ℕ, ◌≤◌, Bool, List, Option};
ghost use Rattle.j39_findings.specs.Findings.{Holds};
ghost use Rattle.j39_findings.specs.Standing.{DecidesWhoStays};
ghost use Rattle.j39_findings.specs.declared.checking.finding.Finding.{Finding};
ghost use Rattle.j39_load.specs.Asked.{Asked};
ghost use Rattle.j39_load.specs.Delays.{AreFlowDelays};
ghost use Rattle.j39_load.specs.LoadFindings.{AreLoadFindings};
ghost use Rattle.j39_load.specs.declared.findings.load_finding.LoadFinding.{LoadFinding};
ghost use Rattle.j39_load.specs.declared.waits.delay.Delay.{Delay};
ghost use Rattle.j39_network.specs.declared.plan.Plan.{Plan};
ghost use Rattle.j39_network.specs.declared.plan.timing.Timing.{Timing};
ghost use Rattle.j39_network.specs.declared.plan.unit_plan.UnitPlan.{UnitPlan};
ghost use Rattle.j39_part_laws.specs.ByAbsence.{AreFoundThere, OnlyAbsenceStays};
ghost use Rattle.j39_part_laws.specs.PartDelays.{DelaysNoLater};
ghost use Rattle.j39_part_laws.specs.PartLoads.{AskNoMore, HasGoodNumbers, counting};
ghost use Rattle.j39_part_laws.specs.PlanParts.{HoldsThere, IsPlanPart, IsPartAt, Places, StayThere};
ghost use Rattle.j39_part_laws.specs.Shares.{AreBounded};

/// Each finding of a part of a plan is one of the whole, at its places there, but for those that come by taking away.
pub fn parts_are_found_in_wholes()
    ensures { (at : Places) (part whole : Plan) → IsPartAt at part whole → (finding : Finding) → Holds part finding
        → HoldsThere at whole finding }
{}

/// A unit that stays in the whole, also beside strangers, stays in each part that it is in, and one that is alone at
/// its address there is alone in the part.
pub fn who_stays_in_a_part()
    ensures { (at : Places) (part whole : Plan) → IsPartAt at part whole → StayThere at part whole }
{}

/// Where streams ask no more than some of others, what is blocking not either, no wait needs more room, and the least
/// wait is at most each one that has room among the others.
pub fn less_asked_waits_no_longer()
    ensures { AreBounded }
{}

/// Of a whole in which no bad number of a group is found each part asks no more of the bus: no frame of it waits
/// longer, and its load is no greater. On the bus of the whole as many frames may come that aren't planned, or more.
/// (Frames that share an identifier are reported by the places of their units, which are others in a part: with such a
/// number two flows could share one there alone.)
pub fn parts_ask_no_more()
    ensures { (at : Places) (part whole : Plan) → IsPartAt at part whole → HasGoodNumbers whole → (timing : Timing)
        (unplanned : ℕ) (range : unplanned ≤ 1000) → timing.unplanned ≤ unplanned → (stays reported : UnitPlan → Bool)
        → DecidesWhoStays whole stays → DecidesWhoStays part reported
        → AskNoMore at part whole timing (counting timing unplanned range) reported stays }
{}

/// A delay that is reported of the whole, in which no bad number of a group is found, bounds that of the flow in each
/// part. So does the time in which long messages to all are whole, and each of them keeps it where each does in the
/// whole.
pub fn delays_hold_in_parts()
    ensures { (at : Places) (part whole : Plan) → IsPartAt at part whole → HasGoodNumbers whole → (timing : Timing)
        (unplanned : ℕ) (range : unplanned ≤ 1000) → timing.unplanned ≤ unplanned → (stays reported : UnitPlan → Bool)
        → DecidesWhoStays whole stays → DecidesWhoStays part reported
        → DelaysNoLater at part whole timing (counting timing unplanned range) reported stays }
{}

/// Each finding on the load of a part is one of the whole, in which no bad number of a group is found, at its places
/// there, but for what is too old. On a live bus fewer claims count in the part.
pub fn loads_of_parts_are_found_in_wholes()
    ensures { (at : Places) (part whole : Plan) → IsPartAt at part whole → HasGoodNumbers whole
        → AreFoundThere at part whole }
{}

/// Where only absence is found of a plan and of its load, only absence is found of each part.
pub fn only_absence_is_found_of_parts()
    ensures { (part whole : Plan) → IsPlanPart part whole → OnlyAbsenceStays part whole }
{}

/// Each plan has a list of all findings of its load, whatever is known of its bus: it is decided who stays, and each
/// flow has a delay, whatever is asked of the bus. So what holds where such a list is empty, or has a finding, holds of
/// plans.
pub fn plans_have_load_findings()
    ensures standing { (plan : Plan) → (stays : UnitPlan → Bool) × DecidesWhoStays plan stays }
    ensures delays { (timing : Timing) (asked : Asked) → (delays : List (Option Delay))
        × AreFlowDelays timing asked delays }
    ensures findings { (plan : Plan) (timing : Option Timing) → (findings : List LoadFinding)
        × AreLoadFindings plan timing findings }
{}
