//! Laws of vehicles: what gateways send on from bus to bus arrives unaltered, how often it comes, and how old it is.
#![tactic(auto)]

mod gateways;
mod handing_on;
mod times;

ghost use Rattle.std.specs.Prelude.{[]};
ghost use Rattle.std.specs.Global.{Global};
ghost use Rattle.j39_vehicle.specs.declared.vehicle.Vehicle.{Vehicle};
ghost use Rattle.j39_vehicle_findings.specs.VehicleFindings.{AreFindings};
ghost use Rattle.j39_vehicle_laws.specs.Copied.{CopiesCanBeSent, ReadingsAreStates};
ghost use Rattle.j39_vehicle_laws.specs.Forwarding.{ForwardedMessage};
ghost use Rattle.j39_vehicle_laws.specs.Passing.{PassedMessagesArrive};
ghost use Rattle.j39_vehicle_laws.specs.PlainForwards.{CopiesHaveRecords, InputsAreNamed, SharedQueuesKeepOrder};
ghost use Rattle.j39_vehicle_laws.specs.PlainForwards.{SignalsMeanTheSame, SourcesAreOne};
ghost use Rattle.j39_vehicle_laws.specs.Unaltered.{IsUnaltered};
ghost use Rattle.j39_vehicle_laws.specs.Values.{HavingIsOfValues, OneValueIsPassedOn};

pub use gateways::what_is_read_was_written;
pub use handing_on::{
    a_frame_is_handed_on, ages_add_over_gateways, forwarded_frames_keep_to_their_streams,
    gateways_keep_streams, steady_clocks_are_clocks,
};
use j39_run_laws::{
    answered_messages_arrive, reports_are_sound, sent_frames_are_sound, sent_frames_arrive,
    unanswered_messages_arrive,
};
pub use times::{
    a_message_is_sent_on, a_value_is_brought, ages_are_bounds, direct_forwards_have_room,
    gateways_keep_to_plans, sound_vehicles_keep_ages,
};

/// Of a vehicle without findings, in each run of it, whatever the serial numbers of its boxes are, in which gateways
/// keep what they have to keep of the messages that they send on: a message of a flow of a need that the need's unit
/// reports carries, forward by forward along its trace, one that was begun by the unit from which the need wants it, or
/// none. Where only copies are on the way its bytes are the same. Where all that goes into signals on the way is copied
/// or exact, the need's signal reads no value in it, or the one that the trace's last signal reads in the message of
/// the origin.
pub fn nothing_is_altered()
    ensures { (v : Vehicle) → AreFindings v [] → IsUnaltered v }
{
    reports_are_sound();
    sent_frames_are_sound();
}

/// Where the tests say that a signal has another one, each value that the other reads is one of its own (`has`).
/// And what is one value with a second one, and this with a third, is one with the third, where the second signal's
/// values are divided by 1 or more (`passed`).
pub fn values_are_passed_on()
    ensures has { HavingIsOfValues }
    ensures passed { OneValueIsPassedOn }
{}

/// Of a vehicle without findings, what can be a message of the group that a copy hears can be one of the group that
/// it sends: by its length, and by what distinguishes groups of one PGN.
pub fn copies_can_be_sent()
    ensures { (v : Vehicle) → AreFindings v [] → CopiesCanBeSent v }
{}

/// Of a vehicle without findings, in the words of its file. The first input of a forward is of the group and of the
/// unit that it names, and none of the gateway's own (`inputs`; of each vehicle). What is sent has one source for each
/// of its signals (`sources`), which has the same unit of measurement and the same number (`meanings`), and records as
/// far apart (`records`). And of the gateway's units on one bus none has a queue without order where there are two
/// (`queues`).
pub fn forwards_are_as_named()
    ensures inputs { (v : Vehicle) → InputsAreNamed v }
    ensures records { (v : Vehicle) → AreFindings v [] → CopiesHaveRecords v }
    ensures meanings { (v : Vehicle) → AreFindings v [] → SignalsMeanTheSame v }
    ensures sources { (v : Vehicle) → AreFindings v [] → SourcesAreOne v }
    ensures queues { (v : Vehicle) → AreFindings v [] → SharedQueuesKeepOrder v }
{}

/// What a signal reads in a message is its state there, where the message is as long as its group's are and the
/// signal ends inside the shortest of these or is optional.
pub fn readings_are_states()
    ensures { ReadingsAreStates }
{}

/// Where on each bus of its trace, of the plan's boxes or of those of a vehicle of the type, a message is begun and
/// nothing of it is lost, and each gateway begins it once its unit has reported the message before, the unit that it is
/// for reports it.
pub fn passed_messages_arrive()
    ensures { (v : Vehicle) → PassedMessagesArrive v }
{
    unanswered_messages_arrive();
    answered_messages_arrive();
    sent_frames_arrive();
}

/// The premises of `nothing_is_altered` can be met: in a run of a vehicle without findings a need's unit reports a
/// message that a gateway sent on from another bus, and in which the need's signal reads a value.
pub fn a_message_is_forwarded()
    ensures { Global → ForwardedMessage }
{}
