//! All that is known of a variant of a line of vehicles.
ghost use Rattle.std.specs.Prelude.{◌≡◌, IfOk, map};
ghost use Rattle.j39_line_findings.specs.LineFound.{AreVariantFindings};
ghost use Rattle.j39_line_findings.specs.VariantAnswers.{IsVariantAnswer};
ghost use Rattle.j39_line_findings.specs.InFile.{finding_in_file, load_finding_in_file};
ghost use Rattle.j39_line_findings.specs.declared.line_finding.LineFinding.TheVariants.{OfPlan, OfLoad};
ghost use Rattle.j39_findings.specs.declared.checking.finding.Finding.TheVariants.{NeedUnmet};

use crate::line_finding::{LineFinding, finding_in_file, load_finding_in_file};
use crate::there::{Present, missed_needs};
use j39_answer::PlanAnswer;
use j39_findings::Finding;
use j39_load::LoadFinding;
use j39_network::Plan;
use j39_variants::{ProductLine, plan_of};
use std::alloc::{AllocError, Global};

fn in_file(
    alloc: Global,
    there: &Present,
    findings: &[Finding],
) -> Result<Vec<LineFinding>, AllocError>
    ensures { IfOk result (λ v. v.items ≡ map (λ finding. OfPlan (finding_in_file there.now finding)) findings.now) }
{
    findings
        .iter()
        .map(|finding| LineFinding::OfPlan(finding_in_file(there, *finding)))
        .collect(alloc)
}

fn others_in_file(
    alloc: Global,
    there: &Present,
    others: &[LoadFinding],
) -> Result<Vec<LineFinding>, AllocError>
    ensures { IfOk result (λ v. v.items ≡ map (λ finding. OfLoad (load_finding_in_file there.now finding)) others.now) }
{
    others
        .iter()
        .map(|finding| LineFinding::OfLoad(load_finding_in_file(there, *finding)))
        .collect(alloc)
}

fn missed(alloc: Global, needs: &[usize]) -> Result<Vec<LineFinding>, AllocError>
    ensures { IfOk result (λ v. v.items ≡ map (λ d. OfPlan (NeedUnmet d)) needs.now) }
{
    needs
        .iter()
        .map(|need| LineFinding::OfPlan(Finding::NeedUnmet(*need)))
        .collect(alloc)
}

/// The plan of a variant, all that is known of this plan, and what of the file is there.
#[derive(Drop)]
pub struct VariantAnswer {
    pub there: Present,
    pub plan: Plan,
    pub answer: PlanAnswer,
}

impl VariantAnswer {
    /// What is known of a variant: the places of the alternatives that it takes, choice by choice.
    pub fn new(alloc: Global, line: &ProductLine, variant: &[usize]) -> Result<Self, AllocError>
        ensures { IfOk result (IsVariantAnswer line.now variant.now) }
    {
        let plan = plan_of(alloc, line, variant)?;
        let there = Present::new(alloc, line, variant)?;
        let answer = PlanAnswer::new(alloc, &plan)?;
        Ok(VariantAnswer {
            there,
            plan,
            answer,
        })
    }

    /// What is wrong with the plan of the variant of which this is known, at its places in the file, and each need that
    /// is asked for and isn't in it.
    pub fn findings(
        &self,
        alloc: Global,
        line: &ProductLine,
        variant: &[usize],
    ) -> Result<Vec<LineFinding>, AllocError>
        requires { IsVariantAnswer line.now variant.now self.now }
        ensures { IfOk result (λ v. AreVariantFindings line.now variant.now v.items) }
    {
        let others = self.answer.load_findings();
        let needs = missed_needs(alloc, line, variant)?;
        let mut findings = in_file(alloc, &self.there, &self.answer.findings)?;
        findings.extend_from_slice(&others_in_file(alloc, &self.there, others)?)?;
        findings.extend_from_slice(&missed(alloc, &needs)?)?;
        Ok(findings)
    }
}
