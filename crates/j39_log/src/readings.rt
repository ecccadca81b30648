//! What a group of a plan reads in bytes.
ghost use Rattle.std.specs.Prelude.{◌≡◌, ◌≤◌, ◌++◌, length, OnOk};
ghost use Rattle.j39_search.specs.ListPlaces.{ValueAt};
ghost use Rattle.j39_network.specs.declared.plan.group_plan.GroupPlan.{GroupPlan as APlannedGroup};
ghost use Rattle.j39_log.specs.NamedReports.{named_reading_lines};

use crate::group_report::write_readings;
use crate::groups::Groups;
use j39_text::{TextBuffer, WriteResult};

/// Writes what the signals, the records and the texts of the group at a place read in these bytes.
pub fn write_group_readings(
    text: &mut TextBuffer,
    groups: &Groups<'_>,
    place: usize,
    bytes: &[u8],
) -> WriteResult
    requires { ValueAt (λ (group : APlannedGroup). group.length ≤ length bytes.now) groups.now.groups.items place }
    ensures { OnOk result (ValueAt (λ (group : APlannedGroup). text.new ≡ text.old
        ++ named_reading_lines groups.now group bytes.now)
        groups.now.groups.items place) }
{
    write_readings(
        text,
        groups.group(place),
        groups.names(place),
        groups.lines(place),
        groups.layout(place),
        bytes,
    )
}
