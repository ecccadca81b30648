//! Laws of the frames of a plan's flows.
ghost use Rattle.std.specs.Prelude.{◌≡◌, ◌≢◌, ◌↔◌, ℕ, ◌+◌, ◌*◌, ◌<◌, ◌≤◌, List, [], length, Bool, false, Option, Some};
ghost use Rattle.j39_load.specs.AskedFlows.{is_asked_too_often, is_more_than_one, whole_parts};
ghost use Rattle.j39_load.specs.AskingTimes.{bit_parts, ms_parts, requesters_each};
ghost use Rattle.j39_timing.specs.AnsweredRequests.{AskNoOftenerThan};
ghost use Rattle.std.specs.List.{slice_get};
ghost use Rattle.j39_id.specs.Pgn.{IsPgn};
ghost use Rattle.j39_findings.specs.Findings.{Clean};
ghost use Rattle.j39_network.specs.Kinds.{AreDistinctUnits};
ghost use Rattle.j39_network.specs.VehiclePlans.{IsVehicleOf};
ghost use Rattle.j39_network.specs.declared.plan.Plan.{Plan as Plans};
ghost use Rattle.j39_network.specs.declared.plan.flow_plan.FlowPlan.{FlowPlan as PlannedFlows};
ghost use Rattle.j39_network.specs.declared.plan.group_plan.GroupPlan.{GroupPlan as PlannedGroups};
ghost use Rattle.j39_network.specs.declared.plan.pace.Pace.{Pace as PlannedPaces};
ghost use Rattle.j39_network.specs.declared.plan.queue.Queue.TheVariants.{Priority};
ghost use Rattle.j39_network.specs.declared.plan.request_plan.RequestPlan.{RequestPlan as PlannedRequests};
ghost use Rattle.j39_network.specs.declared.plan.timing.ErrorRate.{ErrorRate as ErrorRates};
ghost use Rattle.j39_network.specs.declared.plan.timing.Timing.{Timing as Timings};
ghost use Rattle.j39_network.specs.declared.plan.to.To.TheVariants.{All as ToAllUnits, One};
ghost use Rattle.j39_network.specs.declared.plan.unit_plan.UnitPlan.{UnitPlan as PlannedUnits};
ghost use Rattle.j39_load.specs.declared.waits.delay.Delay.{Delay as Delays};
ghost use Rattle.j39_load.specs.AskedMore.{AreAskedMore};
ghost use Rattle.j39_load.specs.FreshNeeds.{AreNeedAgesBounds, AreNeedsFresh};
ghost use Rattle.j39_load.specs.KeepsBroadcasts.{KeepsTurns};
ghost use Rattle.j39_load.specs.KeepsErrors.{AreInTimeWithErrors, AreInTimeWithErrorsInAnyOrder, KeepsErrors};
ghost use Rattle.j39_load.specs.KeepsErrors.{origins_with, planned_with};
ghost use Rattle.j39_load.specs.KeepsPlan.{AreFramesInTime, CanBeKept, IsSingleFlow, KeepsQueues, KeepsToPlan};
ghost use Rattle.j39_load.specs.KeepsPlan.{origins_of};
ghost use Rattle.j39_load.specs.KeptDeadlines.{AreEachInTime, CanBeSentWhole};
ghost use Rattle.j39_load.specs.KeptReceivers.{AreNotGivenUp};
ghost use Rattle.j39_load.specs.KeptTimes.{AreTimesKept};
ghost use Rattle.j39_load.specs.KeptTogether.{CanBeKeptTogether, CanSendAll};
ghost use Rattle.j39_load.specs.KeptWithout.{CanBeKeptWithout};
ghost use Rattle.j39_load.specs.Delays.{announcements_place, packets_place};
ghost use Rattle.j39_load.specs.LoadFindings.{AreLoadFindings, AsksOfBus, load_findings};
ghost use Rattle.j39_load.specs.LiveClaims.{unplanned_end};
ghost use Rattle.j39_load.specs.LongRuns.{IsLongRunLoad};
ghost use Rattle.j39_load.specs.Clocks.{shortest_million};
ghost use Rattle.j39_load.specs.Loads.{bits_at_least, bits_at_most, bits_inside, bits_of_ms, frames_to_all};
ghost use Rattle.j39_load.specs.Loads.{frames_to_one, group_ident, us_of_bits};
ghost use Rattle.j39_load.specs.LosslessTransfers.{IsReceiverOf, TakeFramesReported, TakesFrames};
ghost use Rattle.j39_load.specs.Asked.{asked_of, frames_asked, total_load};
ghost use Rattle.j39_load.specs.PlannedFrames.{AreAllOrdered, AreDeadlinesKept, AreDelaysBounds, AreFramesInAnyOrder};
ghost use Rattle.j39_load.specs.PlannedFrames.{AreFramesOfPlan, AreLateDelaysBounds, AreShortFlowsBounded};
ghost use Rattle.j39_load.specs.PlannedFrames.{AreTimesBounds};
ghost use Rattle.j39_load.specs.PlannedFrames.{ArePlannedFramesInTime, ComeInAnyOrder, ComeInTurn};
ghost use Rattle.j39_load.specs.Ranks.{AreHeldApart, AreHeldByPlan, AreTwinFlows, AreUnitsPlanned, IsAskedBetween};
ghost use Rattle.j39_load.specs.Ranks.{IsShortFlow, LieBetween, RequestLiesBetween};
ghost use Rattle.j39_load.specs.ReadInTime.{AreNeedsRead, AreWritten};
ghost use Rattle.j39_load.specs.RequestLoads.{request_ident};
ghost use Rattle.j39_load.specs.Clocks.{bit_time};
ghost use Rattle.j39_load.specs.SentFrames.{First, FrameSources, Held, Single};
ghost use Rattle.j39_findings.specs.Standing.{DecidesWhoStays};
ghost use Rattle.j39_load.specs.ReportedBytes.{IsStatedOf, LeaveSelector};
ghost use Rattle.j39_load.specs.ValuesInTime.{AreValuesInTime};
ghost use Rattle.j39_load.specs.VehicleLoads.{AreLoadsAlike};
ghost use Rattle.j39_timing.specs.AnyOrder.{Controllers, IsLegalInAnyOrder};
ghost use Rattle.j39_timing.specs.Errors.{Damaged, IsLegalWithErrors, with_errors};
ghost use Rattle.j39_timing.specs.TimedFrames.{IsLegal, Schedule};
ghost use Rattle.j39_network.specs.PlannedUnits.{units_of};
ghost use Rattle.j39_tp.specs.Chunks.{IsSize, MessageParts, packets_of};
ghost use Rattle.j39_tp.specs.Receiver.{Receiving};
ghost use Rattle.j39_tp.specs.declared.sending.outcome.Outcome.TheVariants.{Acked, Sent};
ghost use Rattle.j39_world.specs.HeldAddresses.{ArePlannedApart};

/// The delays of a plan bound the time of its frames. A delay that `Loads::delays` reports holds in every schedule
/// whose planned frames are those of the plan's flows, of which a flow without a period has none, whether units keep
/// order or don't; and where each unit of the plan keeps it, in every legal schedule of such frames (`bounds`). So does
/// one that is above the flow's deadline (`beyond`), an age that is reported of a need, whatever the need asks for
/// (`ages`), and a time in which long messages to all are whole (`whole`); and where `load_findings` finds nothing, it
/// reports a delay of each flow whose messages go in one frame, within the flow's limit (`short`), and a time of each
/// flow with long messages to all of which a deadline is written, within this (`deadlines`). So it is of a plan in
/// which `check_load` finds nothing (`checked`).
pub fn delays_are_bounds()
    ensures bounds { (plan : Plans) (timing : Timings) (stays : PlannedUnits → Bool) (delays : List (Option Delays))
        → AsksOfBus plan timing stays delays → AreDelaysBounds timing (asked_of timing plan stays) delays }
    ensures beyond { (plan : Plans) (timing : Timings) (stays : PlannedUnits → Bool) (delays : List (Option Delays))
        → AsksOfBus plan timing stays delays → AreLateDelaysBounds timing (asked_of timing plan stays) delays }
    ensures ages { (plan : Plans) (timing : Timings) (stays : PlannedUnits → Bool) (delays : List (Option Delays))
        → AsksOfBus plan timing stays delays → AreNeedAgesBounds plan timing (asked_of timing plan stays) delays }
    ensures whole { (plan : Plans) (timing : Timings) (stays : PlannedUnits → Bool) (delays : List (Option Delays))
        → AsksOfBus plan timing stays delays → AreTimesBounds timing (asked_of timing plan stays) delays }
    ensures short { (plan : Plans) (timing : Timings) (stays : PlannedUnits → Bool) (delays : List (Option Delays))
        → AsksOfBus plan timing stays delays
        → load_findings timing (total_load timing (asked_of timing plan stays)) delays ≡ []
        → AreShortFlowsBounded timing (asked_of timing plan stays) delays }
    ensures deadlines { (plan : Plans) (timing : Timings) (stays : PlannedUnits → Bool) (delays : List (Option Delays))
        → AsksOfBus plan timing stays delays
        → load_findings timing (total_load timing (asked_of timing plan stays)) delays ≡ []
        → AreDeadlinesKept timing (asked_of timing plan stays) delays }
    ensures checked { (plan : Plans) (timing : Timings) → AreLoadFindings plan (Some timing) []
        → ArePlannedFramesInTime plan timing }
{}

/// A flow is reported as asked for too often exactly where it comes only as an answer, has a period, and in each time
/// that is a whole number of the periods of the requests for it more of them come than the flow has periods.
pub fn flows_asked_for_too_often_are_reported()
    ensures { (plan : Plans) (timing : Timings) → AreAskedMore plan timing }
{}

/// Of a clean plan with whose load nothing is wrong either, each need that asks for an age has a flow that meets it and
/// brings it no older than that, in every schedule whose planned frames are those of the plan's flows.
pub fn needs_stay_fresh()
    ensures { (plan : Plans) (timing : Timings) → Clean plan → AreLoadFindings plan (Some timing) []
        → AreNeedsFresh plan timing }
{}

/// A value arrives in time. Of a clean plan with whose load nothing is wrong either, each need that asks for an age has
/// a flow that meets it, and in every schedule whose planned frames are those of the plan's flows, and whose frames of
/// this flow carry bytes that were written signal after signal into a blank payload of one of its group's lengths: at
/// each bit the frame of it that has ended last had its release within that age, and each signal in its bytes reads the
/// value that it was last given, or is unset where it was given up.
pub fn needed_values_are_read_in_time()
    ensures { (plan : Plans) (timing : Timings) → Clean plan → AreLoadFindings plan (Some timing) []
        → AreNeedsRead plan timing }
{}

/// Bytes of a flow's message that were written signal after signal can be of its group alone, where none of the signals
/// in them has a bit of the group's selector: so whoever hears them reads them by this group.
pub fn written_bytes_are_reported()
    ensures { (plan : Plans) → Clean plan → (f : ℕ) (flow : PlannedFlows) (group : PlannedGroups)
        → slice_get plan.flows.items f ≡ Some flow
        → slice_get plan.groups.items flow.group ≡ Some group → (bytes : List ℕ) → AreWritten group bytes
        → LeaveSelector group bytes
        → IsStatedOf plan flow group bytes }
{}

/// Of a plan whose units all keep order no frames are of a unit that keeps none: what is promised of every legal
/// schedule holds of it.
pub fn plans_in_order()
    ensures { (plan : Plans) (timing : Timings) (stays : PlannedUnits → Bool)
        → ((u : ℕ) (unit : PlannedUnits) → slice_get plan.units.items u ≡ Some unit → unit.queue ≡ Priority)
        → AreAllOrdered (frames_asked (asked_of timing plan stays)) }
{}

/// Where each unit holds its planned address, or one of 128 to 247 if it may choose and isn't one that stays, the
/// identifiers of a flow's frames lie between the least and the greatest one that are reported of the flow, and so do
/// those of a long message's packets, and of its sender's announcements and packets to all (`flows`); and that of a
/// request lies between those that are reported of it (`requests`).
pub fn identifiers_lie_between()
    ensures flows { (plan : Plans) (timing : Timings) (stays : PlannedUnits → Bool) (held : ℕ → ℕ)
        → DecidesWhoStays plan stays → AreHeldByPlan plan held
        → (flow : PlannedFlows) → AreUnitsPlanned plan flow → (group : PlannedGroups)
        → LieBetween plan timing stays held group flow }
    ensures requests { (plan : Plans) (stays : PlannedUnits → Bool) (held : ℕ → ℕ) → DecidesWhoStays plan stays
        → AreHeldByPlan plan held
        → (r : ℕ) (request : PlannedRequests) → slice_get plan.requests.items r ≡ Some request
        → RequestLiesBetween plan stays held request }
{}

/// A bus that keeps to a clean plan in the plan's own words, whose planned frames are those of flows each message of
/// which goes in one frame, of long messages to one unit or to all, and of requests, keeps the premises of each delay
/// of a flow of the first kind, where units keep order (`legal`) or don't (`any_order`), and where frames are damaged
/// (`with_errors`): so what
/// `delays_are_bounds` and `needs_stay_fresh` promise holds of it.
pub fn frames_that_keep_a_plan()
    ensures legal { (plan : Plans) (timing : Timings) (stays : PlannedUnits → Bool) → Clean plan
        → DecidesWhoStays plan stays
        → (s : Schedule) (planned : ℕ → Bool) (sent : FrameSources) (held : Held) (i : ℕ) → IsSingleFlow plan i
        → IsLegal s → KeepsToPlan plan timing s planned sent held
        → AreFramesOfPlan timing (frames_asked (asked_of timing plan stays)) s planned (origins_of plan sent) i }
    ensures any_order { (plan : Plans) (timing : Timings) (stays : PlannedUnits → Bool) → Clean plan
        → DecidesWhoStays plan stays
        → (s : Schedule) (controllers : Controllers) (planned : ℕ → Bool) (sent : FrameSources) (held : Held) (i : ℕ)
        → IsSingleFlow plan i
        → IsLegalInAnyOrder s controllers → KeepsToPlan plan timing s planned sent held
        → KeepsQueues plan timing s controllers planned sent
        → AreFramesInAnyOrder timing (unplanned_end plan)
        (frames_asked (asked_of timing plan stays)) s controllers planned (origins_of plan sent) i }
    ensures with_errors { (plan : Plans) (timing : Timings) (stays : PlannedUnits → Bool) → Clean plan
        → DecidesWhoStays plan stays
        → (s : Schedule) (d : Damaged) (planned : ℕ
        → Bool) (sent : FrameSources) (held : Held) (rate : ErrorRates) (i : ℕ) → IsLegalWithErrors s d
        → KeepsToPlan plan timing s planned sent held → KeepsErrors timing rate s d planned sent → IsSingleFlow plan i
        → AreFramesOfPlan timing (frames_asked (asked_of timing plan stays)) (with_errors s d) (planned_with s planned)
        (origins_with plan s d rate (length (frames_asked (asked_of timing plan stays))) sent) i }
{}

/// On such a bus the long messages to all of each unit that sends some come in turn, as the times within which they are
/// whole ask for, where the unit queues each frame of them after the end of the one before and keeps its address
/// meanwhile, whether units keep order (`legal`) or don't (`any_order`).
pub fn broadcasts_that_keep_a_plan()
    ensures legal { (plan : Plans) (timing : Timings) (stays : PlannedUnits → Bool) → Clean plan
        → DecidesWhoStays plan stays
        → (s : Schedule) (planned : ℕ → Bool) (sent : FrameSources) (held : Held) (u m : ℕ)
        → m < sent.broadcasts.count u → IsLegal s
        → KeepsToPlan plan timing s planned sent held → KeepsTurns s planned sent held
        → ComeInTurn timing (frames_asked (asked_of timing plan stays)) s planned (origins_of plan sent)
        (announcements_place (asked_of timing plan stays) u)
        × ComeInTurn timing (frames_asked (asked_of timing plan stays)) s planned (origins_of plan sent)
        (packets_place (asked_of timing plan stays) u) }
    ensures any_order { (plan : Plans) (timing : Timings) (stays : PlannedUnits → Bool) → Clean plan
        → DecidesWhoStays plan stays
        → (s : Schedule) (controllers : Controllers) (planned : ℕ → Bool) (sent : FrameSources) (held : Held) (u m : ℕ)
        → m < sent.broadcasts.count u
        → IsLegalInAnyOrder s controllers → KeepsToPlan plan timing s planned sent held
        → KeepsQueues plan timing s controllers planned sent
        → KeepsTurns s planned sent held
        → ComeInAnyOrder timing (unplanned_end plan) (frames_asked (asked_of timing plan stays)) s controllers planned
        (origins_of plan sent)
        (announcements_place (asked_of timing plan stays) u)
        × ComeInAnyOrder timing (unplanned_end plan) (frames_asked (asked_of timing plan stays)) s controllers planned
        (origins_of plan sent)
        (packets_place (asked_of timing plan stays) u) }
{}

/// And a bus can keep to a plan in its own words: where no two units have one planned address, each flow whose messages
/// go in one frame and that has a period can be sent alone, as often as one likes (`short`), also where it comes only
/// as an answer and no more is asked of it than its period lets; and so can messages of one frame of a flow that has
/// long ones too (`long`).
pub fn plans_can_be_kept()
    ensures short { (plan : Plans) (timing : Timings) → ArePlannedApart (units_of plan)
        → (f : ℕ) (flow : PlannedFlows) (pace : PlannedPaces) (group : PlannedGroups)
        → slice_get plan.flows.items f ≡ Some flow → flow.pace ≡ Some pace
        → slice_get plan.groups.items flow.group ≡ Some group → group.most ≤ 8
        → is_asked_too_often plan.requests.items flow ≡ false → (n : ℕ) → CanBeKept plan timing (Single f) n }
    ensures long { (plan : Plans) (timing : Timings) → ArePlannedApart (units_of plan)
        → (f : ℕ) (flow : PlannedFlows) (pace : PlannedPaces) (group : PlannedGroups)
        → slice_get plan.flows.items f ≡ Some flow → flow.pace ≡ Some pace
        → slice_get plan.groups.items flow.group ≡ Some group → group.length ≤ 8 → 8 < group.most
        → is_asked_too_often plan.requests.items flow ≡ false → (n : ℕ) → CanBeKept plan timing (First f) n }
{}

/// And all of it at once: such a flow can be sent as late as its jitter allows, as often as one likes, where the first
/// frame is damaged once, or waits for one that its unit leaves half sent, on a bus that keeps to the plan and to what
/// it reports of damage, and that is legal whether its units keep order or not.
pub fn plans_can_be_kept_together()
    ensures { (plan : Plans) (timing : Timings) → ArePlannedApart (units_of plan)
        → (f : ℕ) (flow : PlannedFlows) (pace : PlannedPaces) (group : PlannedGroups)
        → slice_get plan.flows.items f ≡ Some flow → flow.pace ≡ Some pace
        → slice_get plan.groups.items flow.group ≡ Some group → group.most ≤ 8
        → is_asked_too_often plan.requests.items flow ≡ false
        → IsPgn group.pgn → (rate : ErrorRates) → timing.errors ≡ Some rate
        → (n : ℕ) (half_sent : Bool) → CanBeKeptTogether plan timing rate f pace n half_sent }
{}

/// And such a flow, a request, a long message to one unit and one to all on one bus: where the message to one unit has
/// time before the next one of its flow, all of them can be sent, and the bus keeps to the plan, whether its units keep
/// order or not.
pub fn plans_can_be_kept_whole()
    ensures { (plan : Plans) (timing : Timings) → ArePlannedApart (units_of plan)
        → (f : ℕ) (flow : PlannedFlows) (pace : PlannedPaces) (group : PlannedGroups)
        → slice_get plan.flows.items f ≡ Some flow → flow.pace ≡ Some pace
        → slice_get plan.groups.items flow.group ≡ Some group → group.most ≤ 8
        → IsPgn group.pgn → (g : ℕ) (other : PlannedFlows) (its : PlannedPaces) (second : PlannedGroups)
        → slice_get plan.flows.items g ≡ Some other
        → other.pace ≡ Some its → slice_get plan.groups.items other.group ≡ Some second → 8 < second.most
        → (v : ℕ) → other.to ≡ One v → (unit : PlannedUnits) → slice_get plan.units.items v ≡ Some unit
        → (r : ℕ) (asked : PlannedRequests) (ms : ℕ) → slice_get plan.requests.items r ≡ Some asked
        → asked.period ≡ Some ms
        → (packets : ℕ) → 7 * packets < second.most + 7
        → (h : ℕ) (to_all : PlannedFlows) (third_pace : PlannedPaces) (third : PlannedGroups)
        → slice_get plan.flows.items h ≡ Some to_all
        → to_all.pace ≡ Some third_pace → slice_get plan.groups.items to_all.group ≡ Some third → 8 < third.most
        → to_all.to ≡ ToAllUnits
        → (more : ℕ) → 2 ≤ more → third.length ≤ 7 * more → 7 * more < third.most + 7
        → is_asked_too_often plan.requests.items flow ≡ false
        → is_asked_too_often plan.requests.items other ≡ false
        → is_asked_too_often plan.requests.items to_all ≡ false
        → (6 + (packets + more)) * (160 + bits_of_ms timing timing.broadcast_gap) * bit_time timing.bitrate
        ≤ 1000 * its.period
        → CanSendAll plan timing f g r to_all.sender packets more }
{}

/// And a vehicle can lack a unit: two flows of other units whose messages go in one frame, the first of them to this
/// unit, can be sent in whichever order, as often as one likes, on a bus that keeps to the plan, whether its units keep
/// order or not, and to which this unit sends nothing.
pub fn plans_can_be_kept_without_a_unit()
    ensures { (plan : Plans) (timing : Timings) → ArePlannedApart (units_of plan)
        → (u f : ℕ) (flow : PlannedFlows) (pace : PlannedPaces) (group : PlannedGroups)
        → slice_get plan.flows.items f ≡ Some flow → flow.pace ≡ Some pace
        → slice_get plan.groups.items flow.group ≡ Some group → group.most ≤ 8
        → IsPgn group.pgn → flow.to ≡ One u → flow.sender ≢ u
        → (g : ℕ) (other : PlannedFlows) (its : PlannedPaces) (second : PlannedGroups)
        → slice_get plan.flows.items g ≡ Some other → other.pace ≡ Some its
        → slice_get plan.groups.items other.group ≡ Some second → second.most ≤ 8
        → IsPgn second.pgn → other.sender ≢ u
        → is_asked_too_often plan.requests.items flow ≡ false
        → is_asked_too_often plan.requests.items other ≡ false
        → (first : ℕ → Bool) (n : ℕ) → CanBeKeptWithout plan timing u f g first n }
{}

/// And where no two units have one planned address, a long message to all of a flow can be sent to its end on a bus
/// that keeps to the plan, whether its units keep order or not, and on which units take turns.
pub fn long_messages_can_be_sent_whole()
    ensures { (plan : Plans) (timing : Timings) → ArePlannedApart (units_of plan)
        → (f : ℕ) (flow : PlannedFlows) (pace : PlannedPaces) (group : PlannedGroups)
        → slice_get plan.flows.items f ≡ Some flow → flow.pace ≡ Some pace
        → slice_get plan.groups.items flow.group ≡ Some group → 8 < group.most → flow.to ≡ ToAllUnits
        → (packets : ℕ) → 2 ≤ packets → group.length ≤ 7 * packets → 7 * packets < group.most + 7
        → is_asked_too_often plan.requests.items flow ≡ false
        → CanBeSentWhole plan timing f flow.sender packets }
{}

/// A time in bits that is reported is within so many milliseconds exactly where no more bits are reported than last no
/// longer (`reported`). And where clocks agree (`drift` is 0) so many milliseconds have the bits of the bus's own, by
/// whichever clock (`least`, `most`, `inside`), and a time that is reported is that of its bits (`exact`).
pub fn clocks_are_counted()
    ensures stated { (timing : Timings) (bits ms : ℕ)
        → (us_of_bits timing bits ≤ 1000 * ms) ↔ (bits ≤ bits_inside timing ms) }
    ensures least { (timing : Timings) (ms : ℕ) → timing.drift ≡ 0 → bits_at_least timing ms ≡ bits_of_ms timing ms }
    ensures most { (timing : Timings) (ms : ℕ) → timing.drift ≡ 0 → bits_at_most timing ms ≡ bits_of_ms timing ms }
    ensures inside { (timing : Timings) (ms : ℕ) → timing.drift ≡ 0 → bits_inside timing ms ≡ bits_of_ms timing ms }
    ensures exact { (timing : Timings) (bits : ℕ) → timing.drift ≡ 0
        → us_of_bits timing bits ≡ bits * bit_time timing.bitrate }
{}

/// What `load` counts bounds the planned frames of a bus whose clocks agree (`drift` is 0): on each bus that keeps to a
/// clean plan in the plan's own words no more bits of them are queued than `total_load` a second, and a number more
/// that is the same however long the bus runs; so it is with the bits of damaged attempts and of the error frames
/// behind them.
pub fn loads_hold_in_the_long_run()
    ensures { (plan : Plans) (timing : Timings) (stays : PlannedUnits → Bool) → Clean plan
        → DecidesWhoStays plan stays
        → IsLongRunLoad plan timing (total_load timing (asked_of timing plan stays)) }
{}

/// Of a clean plan, whatever is found of its load: on each bus that keeps to it in the plan's own words each frame of a
/// flow each message of which goes in one frame has been sent within the time that is reported of the flow from its
/// release, also where this is above the flow's deadline, whether units keep order or not.
pub fn kept_plans_keep_reported_times()
    ensures { (plan : Plans) (timing : Timings) (stays : PlannedUnits → Bool) (delays : List (Option Delays))
        → Clean plan
        → AsksOfBus plan timing stays delays → AreTimesKept plan timing delays }
{}

/// Of a clean plan with whose load nothing is wrong either: on each bus that keeps to it in the plan's own words,
/// whether units keep order or not, each frame has been sent within the period of its flow from its release, and within
/// its deadline where one is written (`sound`). So it is where frames are damaged no more often than the plan reports,
/// where all units keep order (`with_errors`) and where they do or don't (`damaged_in_any_order`).
pub fn kept_plans_are_in_time()
    ensures sound { (plan : Plans) (timing : Timings) → Clean plan → AreLoadFindings plan (Some timing) []
        → AreFramesInTime plan timing }
    ensures with_errors { (plan : Plans) (timing : Timings) → Clean plan → AreLoadFindings plan (Some timing) []
        → AreInTimeWithErrors plan timing }
    ensures damaged_in_any_order { (plan : Plans) (timing : Timings) → Clean plan
        → AreLoadFindings plan (Some timing) []
        → AreInTimeWithErrorsInAnyOrder plan timing }
{}

/// Of such a plan no receiver gives up a long message to all that has a deadline, on each bus that keeps to it in the
/// plan's own words, whether units keep order or not, where each packet is queued within `broadcast_gap_most` of the
/// end of the frame before: it has ended within 750 ms of that end.
pub fn kept_plans_lose_no_receiver()
    ensures { (plan : Plans) (timing : Timings) → Clean plan → AreLoadFindings plan (Some timing) []
        → AreNotGivenUp plan timing }
{}

/// Of such a plan each long message to all of a flow with a deadline is whole within it from its release, on each bus
/// that keeps to it in the plan's own words, whether units keep order or not, and on which each message is sent to its
/// end and units take turns: also a message that is wanted while another one of its flow is under way.
pub fn kept_plans_meet_deadlines()
    ensures { (plan : Plans) (timing : Timings) → Clean plan → AreLoadFindings plan (Some timing) []
        → AreEachInTime plan timing }
{}

/// Of such a plan each need that asks for an age has a flow that meets it, and on each bus that keeps to the plan in
/// its own words, while this flow keeps its pause, what was received last of it had its release within this age, and
/// each signal in its bytes reads what was last written to it.
pub fn kept_plans_bring_values_in_time()
    ensures { (plan : Plans) (timing : Timings) → Clean plan → AreLoadFindings plan (Some timing) []
        → AreValuesInTime plan timing }
{}

/// While units hold different addresses, frames of two flows of a clean plan between units that are on, each message of
/// which goes in one frame, have two identifiers, unless both groups are distinguished by their data: then they have
/// one wherever the units are (`flows`). And no request between units that are on has that of such a frame
/// (`requests`).
pub fn short_flows_have_different_identifiers()
    ensures flows { (plan : Plans) → Clean plan → (named : ℕ → Bool) (held : ℕ → ℕ) → AreHeldApart named held
        → (f h : ℕ) (flow other : PlannedFlows) (group second : PlannedGroups) → f ≢ h
        → IsShortFlow plan named f flow group
        → IsShortFlow plan named h other second → group_ident held group flow ≡ group_ident held second other
        → AreTwinFlows group flow second other }
    ensures requests { (plan : Plans) → Clean plan → (named : ℕ → Bool) (held : ℕ → ℕ) → AreHeldApart named held
        → (f : ℕ) (flow : PlannedFlows) (group : PlannedGroups) → IsShortFlow plan named f flow group
        → (request : PlannedRequests) → IsAskedBetween named request
        → group_ident held group flow ≢ request_ident held request }
{}

/// A long message of which nothing is lost takes as many frames as are counted for it. Where the sender and the
/// receiver of the transport protocol hear each other's packets at once, a message to one unit is the request to send,
/// its packets, a clear to send for each as many of them as the unit takes at once, and the acknowledgement of its end
/// (`to_one`), and one to all its announcement and its packets (`to_all`); then both sides have ended, and the message
/// has arrived. And no long message of a flow takes more than are reported of the flow's messages (`reported`).
pub fn long_messages_take_the_frames_reported()
    ensures to_one { (units : List PlannedUnits) (v : ℕ) (message : MessageParts) (receiver : Receiving)
        → IsSize (length message.bytes) → IsReceiverOf units (One v) receiver
        → TakesFrames message (One v) receiver (frames_to_one units (packets_of (length message.bytes)) v) Acked }
    ensures to_all { (message : MessageParts) (receiver : Receiving) → IsSize (length message.bytes)
        → TakesFrames message ToAllUnits receiver (frames_to_all (packets_of (length message.bytes))) Sent }
    ensures stated { (timing : Timings) (units : List PlannedUnits) (stays : PlannedUnits → Bool) (flow : PlannedFlows)
        (pace : PlannedPaces) (group : PlannedGroups) → TakeFramesReported timing units stays flow pace group }
{}

/// The plan of each vehicle asks the same of its bus, and the same is wrong with it, whatever the serial numbers of its
/// boxes are, where no two units of the plan may be one.
pub fn serial_numbers_change_no_load()
    ensures { (plan vehicle : Plans) → IsVehicleOf plan vehicle → AreDistinctUnits plan → AreLoadsAlike plan vehicle }
{}

/// Requests of which it isn't found that they ask for too much come no oftener together than once in the flow's period,
/// by whichever clocks (`together`); and a period in bits is no longer than this (`period`).
pub fn requests_ask_no_oftener()
    ensures together { (timing : Timings) (period : ℕ) (periods : List ℕ) → 0 < whole_parts periods
        → 0 < shortest_million timing
        → is_more_than_one period periods ≡ false
        → AskNoOftenerThan (requesters_each timing periods) (ms_parts timing period) }
    ensures period { (timing : Timings) (ms : ℕ) → bits_at_least timing ms * bit_parts timing ≤ ms_parts timing ms }
{}
