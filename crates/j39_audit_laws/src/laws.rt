//! Laws of the lines by which the audit command accuses.
ghost use Rattle.std.specs.Prelude.{map, ◌≡◌, ◌↔◌, ◌∷◌, [], ◌+◌, ◌-◌, ◌*◌, ◌<◌, ◌≤◌, ℕ, Bool, true, false, List};
ghost use Rattle.std.specs.Prelude.{Option, Some, None};
ghost use Rattle.std.specs.List.{AllByRecursion};
ghost use Rattle.j39_audit.specs.Near.{IsTooNear, is_too_near};
ghost use Rattle.j39_audit.specs.Silence.{IsTooFar, is_silent};
ghost use Rattle.j39_audit.specs.Asking.{longest_answer_ms};
ghost use Rattle.j39_audit.specs.BegunBroadcasts.{late_by};
ghost use Rattle.j39_audit.specs.Settings.{AreMoving, Settings};
ghost use Rattle.j39_audit.specs.declared.broadcasts.BegunBroadcast.{BegunBroadcast as ABroadcast};
ghost use Rattle.j39_audit.specs.declared.window.Window.{Window as AWindow};
ghost use Rattle.j39_audit.specs.declared.mark.Word.{Word as AWord};
ghost use Rattle.j39_audit.specs.declared.mark.Word.TheVariants.{Address, Cannot, Layout, NoFlow, Priority, Urgent};
ghost use Rattle.j39_audit.specs.declared.mark.Word.TheVariants.{Nobody, Short, Stranger};
ghost use Rattle.j39_audit_laws.specs.Answering.{AnswersRequests, AreLinesOfUnit, IsDeafAt, KeepsRequests};
ghost use Rattle.j39_audit_laws.specs.Answering.{NotesTheDeaf, UnitLines};
ghost use Rattle.j39_audit_laws.specs.Answering.{is_reported_deaf};
ghost use Rattle.j39_audit_laws.specs.AuditedRuns.{ArePartsKept, IsNotWrittenOf};
ghost use Rattle.j39_audit_laws.specs.ByLoad.{IsNoneNearByLoad, IsNoneSilentByLoad};
ghost use Rattle.j39_audit_laws.specs.ExactClocks.{ExactClocks};
ghost use Rattle.j39_audit_laws.specs.FoundForSure.{FoundAreWritten, NoneIsUnsure, UnsureIsNone};
ghost use Rattle.j39_audit_laws.specs.FoundLines.{FoundAreListed, LinesAreOfLog, NobodyIsUnplanned};
ghost use Rattle.j39_audit_laws.specs.InTurn.{IsInTurn, NotesTheLate};
ghost use Rattle.j39_audit_laws.specs.KeptLogs.{AreLogsNotNear, PeriodsAreNotNear};
ghost use Rattle.j39_audit_laws.specs.KeptParts.{KeepersAreNotAccused, KeptPlansAreNotAccused};
ghost use Rattle.j39_audit_laws.specs.KeptStreams.{SentInTimeAreNotNear, SentInTimeAreNotSilent, StreamsAreNotNear};
ghost use Rattle.j39_audit_laws.specs.KeptStreams.{StreamsAreNotSilent};
ghost use Rattle.j39_audit_laws.specs.LogBounds.{IsMarkedBound, IsTimedBound, Lines};
ghost use Rattle.j39_audit_laws.specs.OneAudit.{AuditHasOneText};
ghost use Rattle.j39_audit_laws.specs.OwnPart.{AreItsOwn, ClaimsWhereItMay, IsNotNamed, LooksAsPlanned};
ghost use Rattle.j39_audit_laws.specs.OwnPart.{LooksPlannedOrAsked, SaysCannotWhereItHasTo, SentBy};
ghost use Rattle.j39_audit_laws.specs.OwnPart.{WaitsForPlanned};
ghost use Rattle.j39_audit_laws.specs.MarkRecords.{AreFew, IsMarkOf, KeepsTime, ShowsIdle, longest_reach};
ghost use Rattle.j39_audit_laws.specs.Pausing.{ComesInTime, IsBoundAt, NotesTheSilent, NotesTheSilentEnd};
ghost use Rattle.j39_audit_laws.specs.SilentFlows.{SilentAreFound};
ghost use Rattle.j39_audit_laws.specs.Stepping.{AreMomentsWithin, AreStepsApart, NotesTheNear};
ghost use Rattle.j39_audit_laws.specs.WholeLogs.{AreWholeLogsNotNear};
ghost use Rattle.j39_audit.specs.declared.by_load.Bound.TheVariants.{Bus};
ghost use Rattle.j39_audit.specs.Responses.{response};
ghost use Rattle.j39_findings.specs.Findings.{Clean};
ghost use Rattle.j39_load.specs.BusTimes.{timing_of};
ghost use Rattle.j39_load.specs.LoadFindings.{AsksOfBus};
ghost use Rattle.j39_load.specs.declared.waits.delay.Delay.{Delay as Delays};
ghost use Rattle.j39_id.specs.Lines.{Line as ALine};
ghost use Rattle.j39_network.specs.declared.plan.Plan.{Plan as Plans};
ghost use Rattle.j39_network.specs.declared.plan.timing.Timing.{Timing as Timings};
ghost use Rattle.j39_network.specs.declared.plan.unit_plan.UnitPlan.{UnitPlan as PlannedUnits};
ghost use Rattle.j39_network.specs.declared.steps.Step.{Step as Steps};
ghost use Rattle.j39_timing.specs.Errors.{Damaged, IsBusWithErrors};
ghost use Rattle.j39_timing.specs.TimedFrames.{Schedule};
ghost use Rattle.j39_world.specs.Run.{Run};
ghost use Rattle.j39_world.specs.World.{World, all_off};

/// For a plan, a log and the options the definition allows one text, with one verdict.
pub fn an_audit_has_one_text()
    ensures { AuditHasOneText }
{}

/// A word that accuses is reported with as many lines of the log as have what it is for, each counted once, and with
/// the first of them (`exact`), and has its line in the text if there is one (`listed`): so this is written exactly
/// where such a line is in the log.
pub fn lines_are_of_the_log()
    ensures exact { LinesAreOfLog }
    ensures listed { FoundAreListed }
{}

/// What is found at a line of a log is written: its line is in the text, with as many lines of the log as have it and
/// the first of them, and the verdict is that there are findings.
pub fn what_is_found_is_written()
    ensures { FoundAreWritten }
{}

/// Where the plan allows strangers, no line `stranger` and no line `nobody` is written, whatever the log has.
pub fn nobody_is_accused_where_strangers_come()
    ensures { NobodyIsUnplanned }
{}

/// Where no unit may move, no two are planned at one address, no others come, and each claim is of its unit's own
/// address, no frame is passed over as unsure: each from an address that isn't a claim counts for the unit that is
/// planned there, or it is found to be nobody's (`each`). So none is counted as unsure (`none`).
pub fn no_frame_is_unsure()
    ensures each { NoneIsUnsure }
    ensures none { UnsureIsNone }
{}

/// Whatever others do, and however the log was cut: a unit that says that it can't claim an address only where it has
/// to, behind a smaller NAME that claimed an address of it, gets no line `cannot` (`cannot`), and none `address` where
/// it claims by the plan, and only its own addresses, or where it has to give way one that isn't kept free (`address`).
/// Frames from an address at which it alone may be have to be its own, and so have claims of its NAMEs.
pub fn who_claims_by_the_plan_is_not_accused()
    ensures cannot { (s : Settings) (log : List ALine) (sent : SentBy) (u : ℕ) → AreMoving s.plan s.moving
        → AreItsOwn s log sent u → SaysCannotWhereItHasTo s log sent u → IsNotNamed s log Cannot u }
    ensures address { (s : Settings) (log : List ALine) (sent : SentBy) (u : ℕ) → AreMoving s.plan s.moving
        → AreItsOwn s log sent u → ClaimsWhereItMay s log sent u → IsNotNamed s log Address u }
{}

/// Nor does one get a line `layout`, `no_flow` or `priority` each of whose messages with a number of one of its groups
/// is of one of its flows, or, for `no_flow`, was asked for; nor `urgent`, where all that isn't planned has
/// `unplanned_priority` or a larger number.
pub fn who_sends_by_the_plan_is_not_accused()
    ensures layout { (s : Settings) (log : List ALine) (sent : SentBy) (u : ℕ) → AreMoving s.plan s.moving
        → AreItsOwn s log sent u → LooksAsPlanned s log sent u → IsNotNamed s log Layout u }
    ensures no_flow { (s : Settings) (log : List ALine) (sent : SentBy) (u : ℕ) → AreMoving s.plan s.moving
        → AreItsOwn s log sent u → LooksPlannedOrAsked s log sent u → IsNotNamed s log NoFlow u }
    ensures priority { (s : Settings) (log : List ALine) (sent : SentBy) (u : ℕ) → AreMoving s.plan s.moving
        → AreItsOwn s log sent u → LooksAsPlanned s log sent u → IsNotNamed s log Priority u }
    ensures urgent { (s : Settings) (log : List ALine) (sent : SentBy) (u : ℕ) → AreMoving s.plan s.moving
        → AreItsOwn s log sent u → WaitsForPlanned s log sent u → IsNotNamed s log Urgent u }
{}

/// In the words of a bus: none of these six lines is written of a unit whose planned frames are those of the plan's
/// flows and requests, and carry what these bring, whose claims are its own, and of which all else has
/// `unplanned_priority` or a larger number and looks like no group of it, or like one of its flows. So it is whatever
/// others do, and however the log of the bus was cut.
pub fn who_keeps_its_part_is_not_accused()
    ensures { KeepersAreNotAccused }
{}

/// So none of these lines is written of any unit in a log of a bus that keeps to its plan, and the planned frames of
/// which carry what flows bring.
pub fn kept_plans_are_not_accused()
    ensures { KeptPlansAreNotAccused }
{}

/// Of the frames of any world of any run of a plan without findings, with all lawful choices, cut in front anywhere,
/// or in a part of a log with any of them missing, with any times or none, no line `short`, `stranger`, `nobody`,
/// `address`, `cannot`, `layout`, `no_flow` or `priority` is written.
pub fn runs_are_not_accused()
    ensures { (plan : Plans) (steps : List Steps) (w : World) → Clean plan → Run plan all_off steps w
        → AllByRecursion (λ (word : AWord). IsNotWrittenOf word plan w)
        (Short ∷ Stranger ∷ Nobody ∷ Address ∷ Cannot ∷ Layout ∷ NoFlow ∷ Priority ∷ []) }
{}

/// Who sent the frames of such a log can be reported so that what the laws above ask of each unit, but
/// `WaitsForPlanned`, is kept.
pub fn runs_keep_all_parts()
    ensures { (plan : Plans) (steps : List Steps) (w : World) → Clean plan → Run plan all_off steps w
        → ArePartsKept plan w }
{}

/// A message is reported as too near where there is no room for a step between each two of some messages in a row up to
/// it, and only there: one that is reported has such messages before it (`reported`), the first one that has is
/// reported (`first`), and so one is reported of the first so many messages exactly where there is one that has
/// (`some`).
pub fn near_is_exact()
    ensures stated { (step : ℕ) (windows : ℕ → AWindow) (j : ℕ) → is_too_near step windows j ≡ true
        → IsTooNear step windows j }
    ensures first { (step : ℕ) (windows : ℕ → AWindow) (j : ℕ) → ((k : ℕ) → k < j → is_too_near step windows k ≡ false)
        → (is_too_near step windows j ≡ true) ↔ IsTooNear step windows j }
    ensures some { (step : ℕ) (windows : ℕ → AWindow) (n : ℕ)
        → ((j : ℕ) × (j < n) × (is_too_near step windows j ≡ true)) ↔ ((j : ℕ) × (j < n) × IsTooNear step windows j) }
{}

/// Of the messages of a stream behind one another those are noted that are reported as too near, each by how much and
/// at its line.
pub fn the_near_are_noted()
    ensures { NotesTheNear }
{}

/// Of moments that are a step apart, in whatever order the messages come on the log, none is reported as too near:
/// whatever the bounds are, if no message from one on had its moment before the lower bound of this one, and none up to
/// it after its upper bound.
pub fn who_keeps_a_step_is_not_near()
    ensures { (step : ℕ) (windows : ℕ → AWindow) (n : ℕ) (moment : ℕ → ℕ) → AreMomentsWithin n windows moment
        → AreStepsApart n step moment
        → (j : ℕ) → j < n → is_too_near step windows j ≡ false }
{}

/// A flow is reported as silent where from the upper bound of a message no pause between each two leads up to a later
/// lower bound, and only there, likewise. What comes last may be no message, but the moment at which another one should
/// have come.
pub fn silent_is_exact()
    ensures stated { (pause : ℕ) (windows : ℕ → AWindow) (j : ℕ) (lower : Option ℕ)
        → is_silent pause windows j lower ≡ true
        → IsTooFar pause windows j lower }
    ensures first { (pause : ℕ) (windows : ℕ → AWindow) (j : ℕ)
        → ((k : ℕ) → k < j → is_silent pause windows k (windows k).lower ≡ false)
        → (lower : Option ℕ) → (is_silent pause windows j lower ≡ true) ↔ IsTooFar pause windows j lower }
    ensures some { (pause : ℕ) (windows : ℕ → AWindow) (n : ℕ)
        → ((j : ℕ) × (j < n) × (is_silent pause windows j (windows j).lower ≡ true))
        ↔ ((j : ℕ) × (j < n) × IsTooFar pause windows j (windows j).lower) }
{}

/// Of the messages of a flow with a pause that doesn't end between them those are noted at which it is reported as
/// silent (`messages`), and where the pause ends, by the last frame of its ends, so is the last of them (`end`), each
/// by how much and at the line of the message before.
pub fn the_silent_are_noted()
    ensures messages { NotesTheSilent }
    ensures end { NotesTheSilentEnd }
{}

/// Of a flow of which at each moment a message had its own within the last pause, none is reported as silent, in
/// whatever order its messages come on the log: neither at a message nor at a moment at which another one should have
/// come.
pub fn who_keeps_a_pause_is_not_silent()
    ensures { (is_message : ℕ → Bool) (pause from to : ℕ) (frame moment : ℕ → ℕ) (windows : ℕ → AWindow)
        → ComesInTime is_message pause moment from to
        → (j : ℕ) → ((i : ℕ) → i < j → from ≤ 1000 * (windows i).upper) → (lower : Option ℕ)
        → ((x : ℕ) → lower ≡ Some x → (1000 * x ≤ to) × IsBoundAt is_message frame moment windows j x)
        → is_silent pause windows j lower ≡ false }
{}

/// In a log of a bus a flow with a pause is reported as silent, by the bus or by load alone, if behind a message of it
/// none came for longer than its pause, the response time that is counted on and what clocks and times of lines may
/// differ, and frames of its ends show that these were there. No end of its pause may come in that time, and no message
/// that deviates may stand for one of it later.
pub fn who_is_long_silent_is_reported()
    ensures { SilentAreFound }
{}

/// Where two frames behind one another do not touch, what begins from the second one on was queued no earlier than its
/// time, less its length, the bit before it, what damage may fill and what the line's time may differ: on each bus that
/// is never idle while a frame waits, whoever goes first there, and on which no more than a few attempts are damaged in
/// the time that they take (`marks`). Where clocks don't drift, that is the idle mark of an audit (`exact`).
pub fn idle_marks_are_right()
    ensures marks { (s : Schedule) (d : Damaged) (us few within bytes : ℕ) (clock : ℕ → ℕ) (g f before time : ℕ)
        → us ≤ 8 → KeepsTime us clock
        → IsBusWithErrors s d → ((p : ℕ) → p < s.count → s.bits p ≤ 160) → AreFew d few
        → ShowsIdle s us few within bytes clock g f before time
        → IsMarkOf s clock f (time - (longest_reach us bytes few + within)) }
    ensures exact { ExactClocks }
{}

/// Who keeps its own stream's period and jitter is never reported as too near by the idle bits that a log shows, and
/// who keeps its pause and jitter never as silent, however long its frames wait for others: on each such bus, whatever
/// others do, by exact clocks of the unit and the bus, and one of the logger that may differ by a thousandth.
pub fn no_stream_is_reported_wrongly()
    ensures near { StreamsAreNotNear }
    ensures silent { StreamsAreNotSilent }
{}

/// So in a whole log of such a bus no flow is accused by `near`, in the plan's own words, the messages of which keep
/// its period and its jitter, whatever all others do: one with messages of one frame, or with long ones to one unit.
pub fn whole_logs_of_kept_periods_are_not_near()
    ensures { PeriodsAreNotNear }
{}

/// Nor is one reported by load that keeps its period, and its pause, and each message of which has been sent within the
/// response time that is counted on, where units and the bus have exact clocks, and the logger's may differ by a
/// thousandth: neither as too near nor as silent, whatever lines of it a log lacks before.
pub fn who_is_sent_in_time_is_not_reported()
    ensures near { SentInTimeAreNotNear }
    ensures silent { SentInTimeAreNotSilent }
{}

/// On each bus that keeps to a clean plan in the plan's own words, where clocks of units and the bus don't drift, no
/// flow each message of which goes in one frame is reported as too near by the response time that `load` answers,
/// whether units keep order or not, and whatever its other messages are that a log lacks.
pub fn kept_plans_are_not_near_by_load()
    ensures { (plan : Plans) (timing : Timings) (stays : PlannedUnits → Bool) (delays : List (Option Delays))
        → Clean plan
        → AsksOfBus plan timing stays delays → timing.drift ≡ 0 → IsNoneNearByLoad plan timing delays }
{}

/// So an audit of a log of such a bus reports nothing of such a flow by load: no line `near_or_late` is written of it,
/// whatever frames are missing in the log, and however it was cut.
pub fn logs_of_kept_plans_are_not_near_by_load()
    ensures { (s : Settings) (timing : Timings) (stays : PlannedUnits → Bool) (delays : List (Option Delays))
        → Clean s.plan
        → AsksOfBus s.plan timing stays delays → timing_of s.plan ≡ Some timing → timing.drift ≡ 0
        → s.responses ≡ map (response timing) delays
        → AreLogsNotNear s timing delays }
{}

/// And in a whole log of such a bus, without damage, neither `near` nor `near_or_late` is written of it.
pub fn whole_logs_of_kept_plans_are_not_near()
    ensures { (s : Settings) (timing : Timings) (stays : PlannedUnits → Bool) (delays : List (Option Delays))
        → Clean s.plan
        → AsksOfBus s.plan timing stays delays → timing_of s.plan ≡ Some timing → timing.drift ≡ 0
        → s.responses ≡ map (response timing) delays
        → s.bound ≡ Bus → AreWholeLogsNotNear s timing delays }
{}

/// Nor is one reported as silent by load, while it keeps its pause, where a log has all its messages up to a line.
pub fn kept_pauses_are_not_silent_by_load()
    ensures { (plan : Plans) (timing : Timings) (stays : PlannedUnits → Bool) (delays : List (Option Delays))
        → Clean plan
        → AsksOfBus plan timing stays delays → timing.drift ≡ 0 → IsNoneSilentByLoad plan timing delays }
{}

/// Of each unit the request for claims behind a frame that is kept is reported by the one before it (`kept`), and where
/// a frame counts for a unit whose request is overdue by then, that is noted at the line of the request, and nothing
/// else is (`noted`).
pub fn the_deaf_are_noted()
    ensures kept { KeepsRequests }
    ensures noted { NotesTheDeaf }
{}

/// A unit is reported as deaf at one of its frames exactly where there was a request to it, the first one behind what
/// it answered, it claimed nothing since and the log has no gap since, and the bus was idle when its claim had to be
/// ready.
pub fn deaf_is_exact()
    ensures { (t : Timings) (l : UnitLines) (n : ℕ) → (is_reported_deaf t l n ≡ true) ↔ IsDeafAt t l n }
{}

/// Who claims within 250 ms when it is asked, or, where it was off, before it sends again, is never reported as deaf,
/// whatever others do and however long its claims wait for them: on each such bus, by exact clocks of the unit and the
/// bus, and one of the logger that may differ by a thousandth.
pub fn who_answers_is_not_deaf()
    ensures { (s : Schedule) (d : Damaged) (log : Lines) (t : Timings) (l : UnitLines) (n : ℕ) (is_claim : ℕ → Bool)
        (frame : ℕ → ℕ)
        → log.us ≤ 8 → KeepsTime log.us log.clock
        → IsBusWithErrors s d → ((p : ℕ) → p < s.count → s.bits p ≤ 160) → AreFew d log.few
        → AreLinesOfUnit s log l n is_claim frame → AnswersRequests s log.us longest_answer_ms l n is_claim frame
        → is_reported_deaf t l n ≡ false }
{}

/// Of a planned broadcast each frame but the last is noted behind which the next packet comes too late, by how much and
/// at the line of this frame.
pub fn the_late_are_noted()
    ensures { NotesTheLate }
{}

/// Who queues each packet of a broadcast within the plan's `broadcast_gap_most` behind the end of the frame of it
/// before is never reported as late with it, however long its frames wait for others: on each such bus, whatever others
/// do, by exact clocks of the unit and the bus, and one of the logger that may differ by a thousandth.
pub fn who_sends_in_turn_is_not_silent()
    ensures { (s : Schedule) (d : Damaged) (log : Lines) (t : Timings) (one : ABroadcast) (g p : ℕ) (idle : Option ℕ)
        → log.us ≤ 8 → KeepsTime log.us log.clock
        → IsBusWithErrors s d → ((q : ℕ) → q < s.count → s.bits q ≤ 160) → AreFew d log.few
        → IsTimedBound s log g one.moment → IsInTurn s log.us t.broadcast_gap_most g p
        → ((x : ℕ) → idle ≡ Some x → IsMarkedBound s log 0 p x) → late_by t idle one ≡ None }
{}
