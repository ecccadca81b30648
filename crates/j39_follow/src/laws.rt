//! Laws of what frames report of addresses, and of the text of a log.
ghost use Rattle.j39_follow.specs.Alike.{FollowAndReadSeeAlike};
ghost use Rattle.j39_follow.specs.ContestOrigins.{ContestsAreShort};
ghost use Rattle.j39_follow.specs.ContestTimes.{ContestsLastAWait};
ghost use Rattle.j39_follow.specs.CountedOnce.{NeedsAreMetOnce, RequestsAreAnsweredOnce};
ghost use Rattle.j39_follow.specs.FollowText.{LogHasOneFollowText};
ghost use Rattle.j39_follow.specs.GroupLines.{GroupsAreReportedAlike};
ghost use Rattle.j39_follow.specs.Holders.{HasOneHolder, HoldsOneAddress};
ghost use Rattle.j39_follow.specs.ReceivedAsSent.{ReceivesItsMessage, ReceivesOneMessage};
ghost use Rattle.j39_follow.specs.UnitsOfNames.{NamesAreOfTheirUnits};
ghost use Rattle.j39_follow.specs.VehicleLogs.{TypesStandForVehicles};

/// After any frames an address has one holder or none, and a NAME holds one address at most.
pub fn holders_are_one_to_one()
    ensures holder { HasOneHolder }
    ensures address { HoldsOneAddress }
{}

/// Where no two units of a plan may be one, each NAME that a box of a unit may have is taken for this unit's: so a plan
/// of a type knows the boxes of each vehicle.
pub fn names_are_of_their_units()
    ensures { NamesAreOfTheirUnits }
{}

/// For a plan and a log the definition allows one text of `follow`, with one verdict.
pub fn a_followed_log_has_one_text()
    ensures { LogHasOneFollowText }
{}

/// Of a log in which no line ends in a direction and none is of another interface `follow` and `read` see the same
/// frames in one order, and count as many lines as skipped and as bad.
pub fn follow_and_read_see_alike()
    ensures { FollowAndReadSeeAlike }
{}

/// Of a plan without private groups, and a log in which no line ends in a direction and none is of another interface,
/// the messages that `follow` reports of groups are reported by `read` too, line after line, but for those whose
/// packets came out of order and of which the receiver says that it has them whole; and all that `read` reports are,
/// where no address changes hands.
pub fn groups_are_reported_alike()
    ensures { GroupsAreReportedAlike }
{}

/// Where no two units of a plan may be one, `follow` by this plan writes of the log of a vehicle what it writes by the
/// plan of this vehicle, with the serial numbers of boxes behind their claims and Cannots.
pub fn types_stand_for_vehicles()
    ensures { TypesStandForVehicles }
{}

/// Whoever `follow` takes to be behind an address stands there, or less than 250 ms ago another NAME claimed the
/// address, and it is the party of a NAME that held the address up to there, or where none held it the unit that would
/// claim it first.
pub fn contests_are_short()
    ensures { ContestsAreShort }
{}

/// Where an address of 128 to 247 is claimed that another unit held, this one is taken to be behind it for 250 ms by
/// the log's time, unless it took the address by a claim less than 250 ms ago itself; before and behind that time it is
/// whoever stands there.
pub fn contests_last_a_wait()
    ensures { ContestsLastAWait }
{}

/// No message counts twice at the end of a log. Each time that a request is asked counts one answer or one refusal at
/// most, and each of these counts once at most (`requests`); a need was met as often as messages came of flows that
/// meet it (`needs`).
pub fn messages_count_once()
    ensures requests { RequestsAreAnsweredOnce }
    ensures needs { NeedsAreMetOnce }
{}

/// Where a receiver says that it has a message whole, whose packets came out of order, one message at most is reported
/// (`one`); and of a sender that keeps to the message that it announced last, this one, byte for byte (`as_sent`).
pub fn received_messages_are_as_sent()
    ensures one { ReceivesOneMessage }
    ensures as_sent { ReceivesItsMessage }
{}
