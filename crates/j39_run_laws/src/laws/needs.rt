//! The law of what units need.
ghost use Rattle.std.specs.Prelude.{List};
ghost use Rattle.j39_findings.specs.Findings.{Clean};
ghost use Rattle.j39_network.specs.declared.plan.Plan.{Plan as Plans};
ghost use Rattle.j39_network.specs.declared.steps.Step.{Step as Steps};
ghost use Rattle.j39_world.specs.Needed.{Delivered, ReportsNeeded, LastWrite, ReadsAsWritten, bytes_of};
ghost use Rattle.j39_world.specs.Run.{Run};
ghost use Rattle.j39_world.specs.SentArriving.{HasArrivedAlone, NeededAlone};
ghost use Rattle.j39_world.specs.World.{World, all_off};

/// What one unit writes another one reads, by all frames between them. In every world of every run of a plan without
/// findings: a message of a flow that meets a need, whose bytes were written signal after signal into a blank payload
/// of one of its group's lengths, and that is begun there while the need's unit is on, is reported once by this unit
/// where nothing of it is lost; and in what it reported each signal reads the value that it was last given, or is unset
/// where it was given up.
pub fn a_needed_value_arrives()
    ensures reported { (plan : Plans) (steps : List Steps) (w : World) → Clean plan → Run plan all_off steps w
        → (d : Delivered plan w) → ReportsNeeded plan w d }
    ensures read { (plan : Plans) (steps : List Steps) (w : World) → Clean plan → Run plan all_off steps w
        → (d : Delivered plan w) (x : LastWrite d.message) → ReadsAsWritten d.message x x.write.place }
{}

/// So it is of one that is sent in a frame alone: where it arrives as `sent_frames_arrive` says, the need's unit has
/// reported it (`reported`), and each signal in it reads as it was written (`read`).
pub fn a_sent_value_arrives()
    ensures reported { (plan : Plans) (steps : List Steps) (w : World) → Run plan all_off steps w
        → (n : NeededAlone plan w)
        → HasArrivedAlone w n.frame.passage.after n.message.flow.sender n.message.need.unit
        (record { flow = n.message.place; bytes = bytes_of n.message }) }
    ensures read { (plan : Plans) (steps : List Steps) (w : World) → Clean plan → Run plan all_off steps w
        → (n : NeededAlone plan w) (x : LastWrite n.message) → ReadsAsWritten n.message x x.write.place }
{}
