//! Which findings of a line are asked for.
ghost use Rattle.std.specs.Prelude.{◌≡◌, IfOk, length};
ghost use Rattle.j39_findings.specs.declared.checking.finding.Finding.TheVariants.{AnswerAstray, NeedUnmet};
ghost use Rattle.j39_findings.specs.declared.checking.finding.Finding.TheVariants.{PrivateUnsent};
ghost use Rattle.j39_findings.specs.declared.checking.finding.Finding.TheVariants.{RequestUnanswered, RequestUnheard};
ghost use Rattle.j39_load.specs.declared.findings.load_finding.LoadFinding.TheVariants.{NoPeriod};
ghost use Rattle.j39_line_findings.specs.declared.line_finding.LineFinding.TheVariants.{OfPlan, OfLoad};
ghost use Rattle.j39_line_witnesses.specs.Candidates.{candidates, candidates_of_parts, candidates_of_requests};
ghost use Rattle.j39_line_witnesses.specs.Candidates.{is_of_parts, of_each_place};

use j39_findings::{Finding, check};
use j39_line_findings::{LineFinding, has_end_in_pool};
use j39_load::LoadFinding;
use j39_variants::ProductLine;
use std::alloc::{AllocError, Global};

// Whether a finding of the whole file is one of each variant in which all that it names is there.
fn is_of_parts(line: &ProductLine, finding: &Finding) -> bool
    ensures { result ≡ is_of_parts line.now finding.now }
{
    match *finding {
        Finding::TooFewAddresses(_)
        | Finding::PrivateUnsent(_)
        | Finding::NeedUnmet(_)
        | Finding::RequestUnanswered(_)
        | Finding::RequestUnheard(_)
        | Finding::AnswerAstray(_) => false,
        Finding::FlowContested(flow) => !has_end_in_pool(line, flow),
        _ => true,
    }
}

fn of_parts(alloc: Global, line: &ProductLine) -> Result<Vec<LineFinding>, AllocError>
    ensures { IfOk result (λ v. v.items ≡ candidates_of_parts line.now) }
{
    let found = check(alloc, &line.plan)?;
    let those: Vec<Finding> = found
        .iter()
        .copied()
        .filter(|finding| is_of_parts(line, finding))
        .collect(alloc)?;
    those
        .iter()
        .map(|finding| LineFinding::OfPlan(*finding))
        .collect(alloc)
}

fn of_groups(alloc: Global, line: &ProductLine) -> Result<Vec<LineFinding>, AllocError>
    ensures { IfOk result (λ v. v.items ≡ of_each_place (λ g. OfPlan (PrivateUnsent g))
        (length line.now.plan.groups.items)) }
{
    (0..line.plan.groups.len())
        .map(|group| LineFinding::OfPlan(Finding::PrivateUnsent(group)))
        .collect(alloc)
}

fn of_flows(alloc: Global, line: &ProductLine) -> Result<Vec<LineFinding>, AllocError>
    ensures { IfOk result (λ v. v.items ≡ of_each_place (λ f. OfLoad (NoPeriod f)) (length line.now.plan.flows.items)) }
{
    (0..line.plan.flows.len())
        .map(|flow| LineFinding::OfLoad(LoadFinding::NoPeriod(flow)))
        .collect(alloc)
}

fn of_needs(alloc: Global, line: &ProductLine) -> Result<Vec<LineFinding>, AllocError>
    ensures { IfOk result (λ v. v.items ≡ of_each_place (λ d. OfPlan (NeedUnmet d))
        (length line.now.plan.needs.items)) }
{
    (0..line.plan.needs.len())
        .map(|need| LineFinding::OfPlan(Finding::NeedUnmet(need)))
        .collect(alloc)
}

fn unanswered(alloc: Global, count: usize) -> Result<Vec<LineFinding>, AllocError>
    ensures { IfOk result (λ v. v.items ≡ of_each_place (λ r. OfPlan (RequestUnanswered r)) count) }
{
    (0..count)
        .map(|request| LineFinding::OfPlan(Finding::RequestUnanswered(request)))
        .collect(alloc)
}

fn unheard(alloc: Global, count: usize) -> Result<Vec<LineFinding>, AllocError>
    ensures { IfOk result (λ v. v.items ≡ of_each_place (λ r. OfPlan (RequestUnheard r)) count) }
{
    (0..count)
        .map(|request| LineFinding::OfPlan(Finding::RequestUnheard(request)))
        .collect(alloc)
}

fn astray(alloc: Global, count: usize) -> Result<Vec<LineFinding>, AllocError>
    ensures { IfOk result (λ v. v.items ≡ of_each_place (λ r. OfPlan (AnswerAstray r)) count) }
{
    (0..count)
        .map(|request| LineFinding::OfPlan(Finding::AnswerAstray(request)))
        .collect(alloc)
}

fn of_requests(alloc: Global, line: &ProductLine) -> Result<Vec<LineFinding>, AllocError>
    ensures { IfOk result (λ v. v.items ≡ candidates_of_requests line.now) }
{
    let count = line.plan.requests.len();
    let mut all = unanswered(alloc, count)?;
    all.extend_from_slice(&unheard(alloc, count)?)?;
    all.extend_from_slice(&astray(alloc, count)?)?;
    Ok(all)
}

/// Each finding that some variant of the line can have by what is there and what isn't: of those of the whole file
/// those that name what has to be there, and of each group, flow, need and request those that say what isn't.
pub fn candidates(alloc: Global, line: &ProductLine) -> Result<Vec<LineFinding>, AllocError>
    ensures { IfOk result (λ v. v.items ≡ candidates line.now) }
{
    let mut all = of_parts(alloc, line)?;
    all.extend_from_slice(&of_groups(alloc, line)?)?;
    all.extend_from_slice(&of_flows(alloc, line)?)?;
    all.extend_from_slice(&of_needs(alloc, line)?)?;
    all.extend_from_slice(&of_requests(alloc, line)?)?;
    Ok(all)
}
