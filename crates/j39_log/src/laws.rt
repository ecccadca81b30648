//! The laws of the text of a log.
ghost use Rattle.j39_log.specs.OlderPlans.{GroupsAreFoundByNumber, SignalsAlone, ValuesAreShownWhole};
ghost use Rattle.j39_log.specs.NamedReports.{StatesAlone};
ghost use Rattle.j39_log.specs.ReadText.{LogHasOneText};

/// For a plan and a log the definition allows one text, with one verdict.
pub fn a_log_has_one_text()
    ensures { LogHasOneText }
{}

/// A plan without the keys of version 3 is read as versions 1 and 2 are: the group of a frame or message is the first
/// of its number and its one length, a value is shown as a whole number, and a group is reported by its signals alone.
pub fn older_plans_are_read_as_before()
    ensures groups { GroupsAreFoundByNumber }
    ensures values { ValuesAreShownWhole }
    ensures texts { SignalsAlone }
{}

/// In a plan in which no signal has a number, and none a name of a raw number, a group reads the states of its signals,
/// as in versions 1 to 3.
pub fn plans_without_names_are_read_as_before()
    ensures { StatesAlone }
{}
