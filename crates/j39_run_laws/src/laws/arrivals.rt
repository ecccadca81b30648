//! The laws of messages that arrive.
ghost use Rattle.std.specs.Prelude.{List};
ghost use Rattle.j39_network.specs.declared.plan.Plan.{Plan as Plans};
ghost use Rattle.j39_network.specs.declared.steps.Step.{Step as Steps};
ghost use Rattle.j39_world.specs.Arriving.{ArrivesUnanswered, Answered, CanArriveAnswered, CanArriveUnanswered};
ghost use Rattle.j39_world.specs.Arriving.{HasArrivedAnswered, IsAlone};
ghost use Rattle.j39_world.specs.Run.{Run};
ghost use Rattle.j39_world.specs.SentArriving.{SentFramesArrive, SentFramesCanArrive};
ghost use Rattle.j39_world.specs.World.{World, all_off};

/// In every world of every run of every plan, a message to all or of one frame that is begun there arrives at each of
/// some of its receivers where nothing of it is lost there, none of these hears nothing in time, its sender isn't made
/// idle, and neither it nor one of these goes off: once its sender can send no more and these can take no more of this
/// sender, it rests, and each of these has since reported it once as a message that was begun, and no other message
/// that this sender began, whatever becomes of it at its other receivers, whatever other messages go beside it and
/// whatever is lost of them, of what the sender answers its receivers, and before. Its receivers are the one unit that
/// it is for, or, of a message to all, each other unit that was on when it was begun (`arrives`). From each such
/// beginning some run spares it to all of them and takes all (`possible`).
pub fn unanswered_messages_arrive()
    ensures arrives { (plan : Plans) (steps : List Steps) (w : World) → Run plan all_off steps w
        → ArrivesUnanswered plan w }
    ensures possible { (plan : Plans) (steps : List Steps) (w : World) → Run plan all_off steps w
        → CanArriveUnanswered plan w }
{}

/// In every world of every run of every plan, a message of several frames to one unit that is begun there arrives where
/// no frame of it and no answer to it is lost, neither of the two hears nothing of it in time or goes off, its sender
/// isn't made idle, and from its beginning on its receiver isn't between the beginning and the rest of a message of the
/// same group to its sender alone, not even of one that has ended: once its sender can send no more and neither of the
/// two can take more of the other, its sender rests acknowledged, and its receiver has since reported it once as a
/// message that was begun, and no other message that this sender began, whatever other messages go beside it and
/// whatever is lost of them and before. From each such beginning some run does so.
pub fn answered_messages_arrive()
    ensures arrives { (plan : Plans) (steps : List Steps) (w : World) → Run plan all_off steps w
        → (m : Answered plan w) → IsAlone plan w m → HasArrivedAnswered plan w m }
    ensures possible { (plan : Plans) (steps : List Steps) (w : World) → Run plan all_off steps w
        → CanArriveAnswered plan w }
{}

/// In every world of every run of every plan, a frame that is sent alone there arrives at each of its receivers that
/// doesn't lose it, where neither the sender nor this receiver goes off: once this one can take no more of the sender,
/// it has reported since some of the frames that were sent so before, then this one, and then some of those that were
/// sent so since, in this order and nothing twice, whatever else goes beside them and is lost (`arrives`). From each
/// such sending on some run spares it to each of its receivers and takes all (`possible`).
pub fn sent_frames_arrive()
    ensures arrives { (plan : Plans) (steps : List Steps) (w : World) → Run plan all_off steps w
        → SentFramesArrive plan w }
    ensures possible { (plan : Plans) (steps : List Steps) (w : World) → Run plan all_off steps w
        → SentFramesCanArrive plan w }
{}
