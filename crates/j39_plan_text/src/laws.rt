//! The laws of what check, addresses, load and show write.
ghost use Rattle.std.specs.Prelude.{ℕ, List};
ghost use Rattle.j39_network.specs.Kinds.{AreDistinctUnits};
ghost use Rattle.j39_network.specs.VehiclePlans.{IsVehicleOf};
ghost use Rattle.j39_network.specs.declared.plan.Plan.{Plan};
ghost use Rattle.j39_plan_text.specs.AddressesText.{HasOneAddressesReport};
ghost use Rattle.j39_plan_text.specs.CheckText.{HasOneRefusal, HasOneReport, IsNotRefused};
ghost use Rattle.j39_plan_text.specs.LoadText.{HasOneLoadReport};
ghost use Rattle.j39_plan_text.specs.ShownLines.{HasOneShowReport, ShowsOnePlan};
ghost use Rattle.j39_variants.specs.declared.line.ProductLine.{ProductLine};
ghost use Rattle.j39_plan_text.specs.FindingLines.{RunReadsBack, RunShowsConflict};
ghost use Rattle.j39_plan_text.specs.VehicleReports.{AreReportedAlike};

use j39_run_laws::{who_stays, who_stays_with_strangers};

/// A plan has one text of check, with one verdict; so has a file that is refused, and no file that describes a plan is
/// refused.
pub fn check_has_one_text()
    ensures report { (plan : Plan) → HasOneReport plan }
    ensures refusal { (bytes : List ℕ) → HasOneRefusal bytes }
    ensures apart { (bytes : List ℕ) → IsNotRefused bytes }
{}

/// A plan has one text of addresses, with one verdict: whoever reports of each unit whether it stays reports the same.
pub fn addresses_have_one_text()
    ensures { (plan : Plan) → HasOneAddressesReport plan }
{}

/// A plan has one text of load, with one verdict.
pub fn load_has_one_text()
    ensures { (plan : Plan) → HasOneLoadReport plan }
{}

/// A plan has one text of show, with one verdict.
pub fn show_has_one_text()
    ensures { (line : ProductLine) → HasOneShowReport line }
{}

/// Of a plan without choices show writes the values of its one plan alone.
pub fn plans_without_choices_are_shown_alone()
    ensures { (line : ProductLine) → ShowsOnePlan line }
{}

/// The lines that are written below a finding are a schedule of the run that shows its conflict, and there are none
/// below a finding that reports of no conflict.
pub fn written_runs_read_back()
    ensures { RunReadsBack }
{}

/// Below each finding of two fixed units that have one address and can't be one stands a schedule that can be run, and
/// whoever runs it meets no refusal and leaves the unit of the larger NAME on and without an address.
pub fn written_runs_show_the_conflict()
    ensures { RunShowsConflict }
{}

/// What check, addresses and load write of a plan they write of the plan of each vehicle, whatever the serial numbers
/// of its boxes are, where no two units of the plan may be one: also of one with other findings.
pub fn serial_numbers_change_no_text()
    ensures { (plan vehicle : Plan) → IsVehicleOf plan vehicle → AreDistinctUnits plan → AreReportedAlike plan vehicle }
{
    who_stays();
    who_stays_with_strangers();
}
