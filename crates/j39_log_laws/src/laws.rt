//! Laws of all runs of a plan, and of the logs of their frames.
ghost use Rattle.std.specs.Prelude.{◌≡◌, ℕ, List, false};
ghost use Rattle.j39_network.specs.declared.plan.Plan.{Plan as Plans};
ghost use Rattle.j39_network.specs.declared.steps.Step.{Step as Steps};
ghost use Rattle.j39_world.specs.Opening.{AreNamesDistinct};
ghost use Rattle.j39_network.specs.PlannedUnits.{units_of};
ghost use Rattle.j39_world.specs.Run.{Run};
ghost use Rattle.j39_world.specs.Sound.{IsQuiet};
ghost use Rattle.j39_log_laws.specs.KeepsEnds.{KeepsEnds};
ghost use Rattle.j39_world.specs.SoundPlan.{IsSending};
ghost use Rattle.j39_network.specs.Staying.{IsAloneThere};
ghost use Rattle.j39_world.specs.World.{World, all_off};
ghost use Rattle.j39_log_laws.specs.Between.{EachGoesBetweenUnits, EndsKeepAddresses, MessagesGoBetweenHolders};
ghost use Rattle.j39_log_laws.specs.Makes.{KindsAreOfFields};
ghost use Rattle.j39_log_laws.specs.HolderReports.{EachIsReported, FramesReportHolders, HaveOwnNumbers};
ghost use Rattle.j39_log_laws.specs.HolderReports.{IsHolderReported};
ghost use Rattle.j39_log_laws.specs.ReportedFlows.{AreReportedAsBegun, EachClaims};
ghost use Rattle.j39_log_laws.specs.VehicleRuns.{AreVehiclesReportedAsBegun, FramesReportOfVehicle};
ghost use Rattle.j39_log_laws.specs.VehicleRuns.{VehicleMessagesGoBetweenHolders};
ghost use Rattle.j39_findings.specs.Findings.{Clean};
ghost use Rattle.j39_network.specs.Kinds.{AreDistinctUnits};
ghost use Rattle.j39_network.specs.VehiclePlans.{IsVehicleOf};

/// In every world of every run of a plan whose NAMEs differ and that plans none of the network's own groups, with all
/// lawful choices: by the frames sent so far the NAME of each unit that is on holds its address, or a claim of that
/// address is undelivered to it.
pub fn frames_report_holders()
    ensures { (plan : Plans) (steps : List Steps) (w : World) → AreNamesDistinct (units_of plan) → HaveOwnNumbers plan
        → Run plan all_off steps w → FramesReportHolders plan w }
{}

/// So they report the holder of each such address where no claim is undelivered (`quiet`), and of a plan that isn't
/// live while a unit sends a message (`sending`). Of a plan without findings they always report the holder of an
/// address at which a unit is alone (`alone`).
pub fn quiet_frames_report_holders()
    ensures quiet { (plan : Plans) (steps : List Steps) (w : World) → AreNamesDistinct (units_of plan)
        → HaveOwnNumbers plan
        → Run plan all_off steps w → IsQuiet w.claims → EachIsReported plan w }
    ensures sending { (plan : Plans) (steps : List Steps) (w : World) → plan.live ≡ false
        → AreNamesDistinct (units_of plan) → HaveOwnNumbers plan
        → Run plan all_off steps w → IsSending w → EachIsReported plan w }
    ensures alone { (plan : Plans) (steps : List Steps) (w : World) → Clean plan → AreNamesDistinct (units_of plan)
        → HaveOwnNumbers plan
        → Run plan all_off steps w → (u : ℕ) → IsAloneThere plan.keep_free (units_of plan) u
        → IsHolderReported plan w u }
{}

/// In every world of every run of a plan that isn't live, or that has no findings: while a unit is
/// between the beginning of a message and its rest, it is on and holds an address, and so is the one unit that the
/// message is for, if it is for one, of a live plan while that one hasn't gone off since; a flow goes from the one to
/// the other; and, of a plan that isn't live, no unit's address changes.
pub fn ends_keep_addresses()
    ensures { (plan : Plans) (steps : List Steps) (w : World) → KeepsEnds plan → Run plan all_off steps w
        → EndsKeepAddresses plan w }
{}

/// In every world of every run of such a plan whose NAMEs differ and that plans none of the network's own groups, each
/// frame that a step sends, unless it reports of addresses, comes from the address of the unit that sends it, and goes
/// to all, or to the address of the unit that it is for: these are the ends of the message that it is of. By the frames
/// up to it the two units hold these addresses. So in the log of a run units of the plan stand behind both addresses of
/// each such frame.
pub fn messages_go_between_holders()
    ensures sent { (plan : Plans) (steps : List Steps) (w : World) → KeepsEnds plan → AreNamesDistinct (units_of plan)
        → HaveOwnNumbers plan
        → Run plan all_off steps w → MessagesGoBetweenHolders plan w }
    ensures logged { (plan : Plans) (steps : List Steps) (w : World) → KeepsEnds plan → AreNamesDistinct (units_of plan)
        → HaveOwnNumbers plan
        → Run plan all_off steps w → EachGoesBetweenUnits plan w }
{}

/// In every world of every run of a plan without findings whose units all claim, with all lawful choices: where
/// `follow` reports a frame that a step sends as a group's message in one frame, by the log of all frames up to it,
/// this step began or sent it, byte for byte, by the flow that it is reported with, or by one of the same unit and
/// group that looks like it in one frame.
pub fn single_frames_are_reported_as_begun()
    ensures { (plan : Plans) (steps : List Steps) (w : World) → Clean plan → EachClaims plan → Run plan all_off steps w
        → AreReportedAsBegun plan w }
{}

/// In every world of every run of a vehicle, with all lawful choices, where no two units of the plan of its type may be
/// one: the log of its frames reports of no other box of a unit than the vehicle's. What is said above of its messages
/// by its own plan, in which each unit has the serial number of its box, is so by the plan of its type, by which the
/// log is followed.
pub fn types_stand_for_runs_of_vehicles()
    ensures names { (plan vehicle : Plans) (steps : List Steps) (w : World) → IsVehicleOf plan vehicle
        → AreDistinctUnits plan → HaveOwnNumbers plan
        → Run vehicle all_off steps w → FramesReportOfVehicle plan vehicle w }
    ensures sent { (plan vehicle : Plans) (steps : List Steps) (w : World) → IsVehicleOf plan vehicle
        → AreDistinctUnits plan → KeepsEnds plan
        → HaveOwnNumbers plan → Run vehicle all_off steps w → VehicleMessagesGoBetweenHolders plan vehicle w }
    ensures logged { (plan vehicle : Plans) (steps : List Steps) (w : World) → IsVehicleOf plan vehicle
        → AreDistinctUnits plan → KeepsEnds plan
        → HaveOwnNumbers plan → Run vehicle all_off steps w → EachGoesBetweenUnits plan w }
    ensures begun { (plan vehicle : Plans) (steps : List Steps) (w : World) → IsVehicleOf plan vehicle → Clean plan
        → EachClaims plan
        → Run vehicle all_off steps w → AreVehiclesReportedAsBegun plan vehicle w }
{}

/// Two NAMEs are of one kind exactly where all their fields are the same but the identity number.
pub fn kinds_are_of_fields()
    ensures { KindsAreOfFields }
{}
