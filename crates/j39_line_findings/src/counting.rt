//! Which findings count what is there.
ghost use Rattle.std.specs.Prelude.{◌≡◌};
ghost use Rattle.j39_line_findings.specs.Conditions.{goes_by_conditions};

use crate::flow_ends::has_end_in_pool;
use crate::line_finding::LineFinding;
use j39_findings::Finding;
use j39_load::LoadFinding;
use j39_variants::ProductLine;

/// Whether a variant has the finding by what is there and what isn't, and not by how much is.
pub fn goes_by_conditions(line: &ProductLine, finding: LineFinding) -> bool
    ensures { result ≡ goes_by_conditions line.now finding }
{
    match finding {
        LineFinding::OfPlan(Finding::TooFewAddresses(_)) => false,
        LineFinding::OfPlan(Finding::FlowContested(flow)) => !has_end_in_pool(line, flow),
        LineFinding::OfPlan(_) | LineFinding::OfLoad(LoadFinding::NoPeriod(_)) => true,
        LineFinding::OfLoad(_) => false,
    }
}
