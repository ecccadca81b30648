//! Laws of times over gateways.
ghost use Rattle.std.specs.Prelude.{[]};
ghost use Rattle.j39_network.specs.declared.plan.Plan.{Plan};
ghost use Rattle.j39_network.specs.declared.plan.timing.Timing.{Timing};
ghost use Rattle.j39_vehicle.specs.declared.vehicle.Vehicle.{Vehicle};
ghost use Rattle.j39_vehicle_times.specs.TimeFindings.{AreTimeFindings};
ghost use Rattle.j39_vehicle_times.specs.declared.bus_delays.Delays.{Delays};
ghost use Rattle.j39_vehicle_laws.specs.ForwardedStreams.{AreForwardsTimely, AreStreamsKept};
ghost use Rattle.j39_vehicle_laws.specs.MessagesSentOn.{CanMessagesBeSentOn, DoCopiesCarryValues};
ghost use Rattle.j39_vehicle_laws.specs.PlainTimes.{AgesAreUnasked, AnswersStayAnswers, ClocksAreOfBitrates};
ghost use Rattle.j39_vehicle_laws.specs.PlainTimes.{DeadlinesHaveRoom};
ghost use Rattle.j39_vehicle_laws.specs.ValuesArrive.{DoValuesArrive};
ghost use Rattle.j39_vehicle_laws.specs.ValuesBrought.{CanValuesBeBrought};
ghost use Rattle.j39_vehicle_laws.specs.VehicleAges.{AreAgesKept, AreForwardedPausesKept, AreVehicleNeedsKept};
ghost use Rattle.j39_vehicle_laws.specs.VehicleAges.{AreVehicleStreamsKept, IsSoundVehicle};
ghost use Rattle.j39_vehicle_laws.specs.YoungValues.{AreAgesBounds};

/// Each age that is known of what a flow brings over gateways bounds it, where the frames of some buses keep to their
/// streams: of those on its way, and of those from which messages are sent on directly to such a bus (`Scope`).
/// No flow of these may come only as an answer to requests that have a period.
pub fn ages_are_bounds()
    ensures { (v : Vehicle) (delays : Delays) → AreAgesBounds v delays }
{}

/// What gateways send on directly keeps to the streams that the plan of its bus has for it, where jitter and periods
/// have room for it; also where buses send on to one another. Nothing is said of buses to which answers to requests
/// that have a period are sent on, or as which something is sent on (`IsScope`).
pub fn gateways_keep_to_plans()
    ensures { (v : Vehicle) (delays : Delays) → AreStreamsKept v delays }
{}

/// A vehicle of which nothing is found is good for this: each age that is known bounds how old what the frame of its
/// flow that ended last brings is, and this is a value of the origin in time: it reads there as it reads in a frame of
/// the origin's, where all on the way is copied or exact, and where all is copied its bytes are the same (`ages`).
/// Where gateways pass values on, too, its signal reads each value that the origin's reads (`arrives`). So each need
/// that asks for an age has a flow that keeps it, from the unit that the need names (`needs`); a flow that is sent on
/// directly keeps the pause that the plan of its bus has for it (`pauses`); and the planned frames of each bus keep to
/// its streams, those that are sent on directly too (`streams`), since jitters and periods have room for them
/// (`timely`). Nothing is asked of when messages are queued that are sent on directly, but that gateways are prompt;
/// and nothing of buses that aren't on the way, unless messages are sent on directly from there to one that counts
/// (`Scope`).
pub fn sound_vehicles_keep_ages()
    ensures ages { (v : Vehicle) (delays : Delays) → IsSoundVehicle v delays → AreAgesKept v delays }
    ensures arrives { (v : Vehicle) (delays : Delays) → IsSoundVehicle v delays → DoValuesArrive v }
    ensures needs { (v : Vehicle) (delays : Delays) → IsSoundVehicle v delays → AreVehicleNeedsKept v delays }
    ensures pauses { (v : Vehicle) (delays : Delays) → IsSoundVehicle v delays → AreForwardedPausesKept v delays }
    ensures streams { (v : Vehicle) (delays : Delays) → IsSoundVehicle v delays → AreVehicleStreamsKept v delays }
    ensures timely { (v : Vehicle) (delays : Delays) → IsSoundVehicle v delays → AreForwardsTimely v delays }
{}

/// Of a vehicle of whose times nothing is found, in the words of its plans: what goes on directly keeps what `load` of
/// the next bus takes for granted of it, also where no age is reported. A flow that is sent only where it is asked for
/// comes of one that is (`answers`), and what has a deadline is queued within the jitter of its flow (`deadlines`).
/// What has an age isn't sent only where it is asked for (`ages`), and the clock of each bus without `drift` runs by
/// its bitrate (`clocks`), in each vehicle.
pub fn direct_forwards_have_room()
    ensures answers { (v : Vehicle) (delays : Delays) → AreTimeFindings v delays [] → AnswersStayAnswers v }
    ensures deadlines { (v : Vehicle) (delays : Delays) → AreTimeFindings v delays [] → DeadlinesHaveRoom v delays }
    ensures ages { (v : Vehicle) (delays : Delays) → AgesAreUnasked v delays }
    ensures clocks { (v : Vehicle) → ClocksAreOfBitrates v }
{}

/// What is asked of what is seen of a vehicle can be kept, for as long as one likes, where a direct forward sends the
/// messages of a flow with a period on to another bus, as messages of a flow that is sent on no further: all at once,
/// that gateways are prompt and pass values on, and that flows keep their pauses, whatever value a message has that the
/// forward can carry (`sent`). A copy carries any (`copies`). No direct forward may send flows on that come only as
/// answers to requests that have a period.
pub fn a_message_is_sent_on()
    ensures sent { (v : Vehicle) (delays : Delays) → CanMessagesBeSentOn v delays }
    ensures copies { (v : Vehicle) → DoCopiesCarryValues v }
{}

/// And on one bus what is asked for a value to arrive in time can be kept, for as long as one likes: where no two units
/// have one planned address, a flow with a pause each message of which goes in one frame can be sent at each period, on
/// a bus that keeps to the plan, whether its units keep order or not, with bytes in which whatever one likes was
/// written.
pub fn a_value_is_brought()
    ensures { (plan : Plan) (timing : Timing) → CanValuesBeBrought plan timing }
{}
