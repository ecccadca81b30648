//! What is written of a plan's addresses.
ghost use Rattle.std.specs.Prelude.{◌≡◌, IfOk};
ghost use Rattle.j39_plan_text.specs.AddressesText.{IsAddressesReport, is_of_addresses};

use crate::plan_report::write_findings;
use crate::stays_lines::write_stays;
use j39_findings::{Finding, Standing, check};
use j39_load::check_load;
use j39_network::Plan;
use j39_run_laws::{who_stays, who_stays_with_strangers};
use j39_stream::Verdict;
use j39_text::{ReportResult, TextBuffer};
use std::alloc::Global;

/// Whether a finding is one on the NAMEs or the addresses of units.
pub fn is_of_addresses(finding: &Finding) -> bool
    ensures { result ≡ is_of_addresses finding.now }
{
    matches!(
        finding,
        Finding::SameName(..)
            | Finding::SameFixedAddress(..)
            | Finding::TooFewAddresses(..)
            | Finding::KeptAddress(..)
            | Finding::SilentAddress(..)
            | Finding::SilentInPool(..)
    )
}

/// What is written of a plan's addresses, with the verdict.
pub fn stays_report(alloc: Global, plan: &Plan) -> ReportResult
    ensures { IfOk result (λ report. IsAddressesReport plan.now report.0 report.1) }
{
    let mut text = TextBuffer::new(alloc);
    let findings = check(alloc, plan)?;
    if findings.iter().any(is_of_addresses) {
        let others = check_load(alloc, plan)?;
        write_findings(alloc, &mut text, plan, &findings, others.as_slice())?;
        return Ok((text, Verdict::Findings));
    }
    who_stays();
    who_stays_with_strangers();
    write_stays(&mut text, &Standing::new(plan), plan.units.as_slice())?;
    Ok((text, Verdict::Done))
}
