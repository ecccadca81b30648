//! At which full variants of a line is looked.
ghost use Rattle.std.specs.Prelude.{◌≡◌, IfOk, true};
ghost use Rattle.j39_line_findings.specs.declared.full.LineNevers.TheVariants.{Kept};
ghost use Rattle.j39_line_check.specs.LookedVariants.{IsLooking, IsLookingWith, HasTimes, has_bad_number};
ghost use Rattle.j39_line_check.specs.LookedVariants.{is_bad_number};
ghost use Rattle.j39_line_check.specs.declared.looking.Looking.TheVariants.{Many};

use crate::counted::counted_findings;
use crate::full_sets::{looked_at, number_of_variants, widest_sets};
use j39_findings::{Finding, check};
use j39_line_bounds::LineTimes;
use j39_line_findings::{FullAlternatives, LineNevers, Witnessed, alternatives_of};
use j39_network::Plan;
use j39_variants::ProductLine;
use std::alloc::{AllocError, Global};

/// So many full variants are looked at.
pub const LOOKED_LIMIT: u64 = 1024;

/// Full variants that are looked at, and what is found of them that counts what is there.
#[derive(Drop)]
pub struct FullVariants {
    /// The alternatives that they take alone: one that is full for a need takes those for it.
    pub full: FullAlternatives,
    /// Each once, in order.
    pub variants: Vec<Vec<usize>>,
    /// Each finding by the place of its witness among the variants.
    pub reported: Vec<Witnessed>,
    /// What is reported of their times, where these are asked for.
    pub times: LineTimes,
}

/// Which full variants of a line are looked at.
#[derive(Drop)]
pub enum Looking {
    /// These.
    Few(FullVariants),
    /// None: so many are too many, and those of the line without its nevers don't do in their place.
    Many(u64),
}

// The full variants of a line, with or without its nevers.
fn look_with(
    alloc: Global,
    line: &ProductLine,
    nevers: LineNevers,
    timed: bool,
) -> Result<Looking, AllocError>
    ensures looking { IfOk result (IsLookingWith line.now nevers) }
    ensures times { timed ≡ true → IfOk result (HasTimes line.now) }
{
    let alternatives = alternatives_of(alloc, line)?;
    let full = FullAlternatives::new(alloc, line, nevers, &alternatives)?;
    let sets = widest_sets(alloc, line, &full)?;
    let count = number_of_variants(line, &sets);
    if LOOKED_LIMIT < count {
        return Ok(Looking::Many(count));
    }
    let variants = looked_at(alloc, line, nevers, &sets)?;
    let (reported, times) = counted_findings(alloc, line, &full, &variants, timed)?;
    Ok(Looking::Few(FullVariants {
        full,
        variants,
        reported,
        times,
    }))
}

fn is_bad_number(finding: &Finding) -> bool
    ensures { result ≡ is_bad_number finding.now }
{
    matches!(finding, Finding::BadPgn(_))
}

// Whether a group of the file has a bad number.
fn has_bad_number(alloc: Global, plan: &Plan) -> Result<bool, AllocError>
    ensures { IfOk result (λ found. found ≡ has_bad_number plan.now) }
{
    let findings = check(alloc, plan)?;
    Ok(findings.iter().any(is_bad_number))
}

// The same of a line that has too many full variants, where those of it without its nevers stand in for them.
fn look_without_nevers(
    alloc: Global,
    line: &ProductLine,
    count: u64,
    timed: bool,
) -> Result<Looking, AllocError>
    ensures looking { IfOk result (λ looking. IsLookingWith line.now Kept (Many count) → IsLooking line.now looking) }
    ensures times { timed ≡ true → IfOk result (HasTimes line.now) }
{
    let bad = has_bad_number(alloc, &line.plan)?;
    if bad {
        return Ok(Looking::Many(count));
    }
    match look_with(alloc, line, LineNevers::LeftOut, timed)? {
        Looking::Few(found) => {
            if found.reported.is_empty() {
                return Ok(Looking::Few(found));
            }
            Ok(Looking::Many(count))
        }
        Looking::Many(_) => Ok(Looking::Many(count)),
    }
}

/// The full variants of a line, and what is found of them. Where they are too many, those of the line without its
/// nevers, where these aren't, nothing is found of them, and no group of the file has a bad number. With what is
/// reported of their times, where these are asked for.
pub fn look(alloc: Global, line: &ProductLine, timed: bool) -> Result<Looking, AllocError>
    ensures looking { IfOk result (IsLooking line.now) }
    ensures times { timed ≡ true → IfOk result (HasTimes line.now) }
{
    match look_with(alloc, line, LineNevers::Kept, timed)? {
        Looking::Few(found) => Ok(Looking::Few(found)),
        Looking::Many(count) => look_without_nevers(alloc, line, count, timed),
    }
}
