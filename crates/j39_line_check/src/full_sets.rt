//! The sets of full alternatives of a line, and the variants that take alternatives of them alone.
ghost use Rattle.std.specs.Prelude.{◌≡◌, ◌∷◌, ◌++◌, ◌-◌, ◌^◌, [], ℕ, List, IfOk, OnOk, filter, map, min, not, sum};
ghost use Rattle.std.specs.List.{list_any};
ghost use Rattle.j39_variants.specs.Variants.{is_possible};
ghost use Rattle.j39_variants.specs.declared.line.Alternative.{Alternative as Alternatives};
ghost use Rattle.j39_line_findings.specs.FullVariants.{line_with};
ghost use Rattle.j39_line_findings.specs.declared.full.FullAlternatives.{FullAlternatives as FullOnes};
ghost use Rattle.j39_line_check.specs.FullSets.{AreLookedAt, full_sets};
ghost use Rattle.j39_line_check.specs.SetVariants.{AreWidest, is_set_inside, variants_of_set, with_each_choice};

use crate::set_variants::{has_each_choice, is_set_inside, variants_of_set, variants_of_sets};
use j39_line_findings::{FullAlternatives, LineNevers};
use j39_variants::{Alternative, Choice, ProductLine, is_possible};
use std::alloc::{AllocError, Global};

fn is_inside_any(set: &[Alternative], kept: &[Vec<Alternative>]) -> bool
    ensures { result ≡ list_any (λ other. is_set_inside set.now other.items) kept.now }
{
    kept.iter().any(|other| is_set_inside(set, other))
}

fn leave_out_inside(kept: &mut Vec<Vec<Alternative>>, set: &[Alternative])
    ensures { kept.new.items ≡ filter (λ other. not (is_set_inside other.items set.now)) kept.old.items }
{
    kept.retain(|other| !is_set_inside(other, set));
}

// Adds a set, where it counts beside those kept.
fn add_set(
    alloc: Global,
    kept: &mut Vec<Vec<Alternative>>,
    choices: &[Choice],
    set: &[Alternative],
) -> Result<(), AllocError>
    ensures { OnOk result ((sets : List (List Alternatives))
        → AreWidest (with_each_choice choices.now sets) (map (λ s. s.items) kept.old.items)
        → AreWidest (with_each_choice choices.now (sets ++ set.now ∷ [])) (map (λ s. s.items) kept.new.items)) }
{
    if !has_each_choice(choices, set) || is_inside_any(set, kept) {
        return Ok(());
    }
    leave_out_inside(kept, set);
    kept.push(set.to_vec(alloc)?)?;
    Ok(())
}

fn add_sets(
    alloc: Global,
    kept: &mut Vec<Vec<Alternative>>,
    choices: &[Choice],
    sets: &[Vec<Alternative>],
) -> Result<(), AllocError>
    ensures { OnOk result ((before : List (List Alternatives))
        → AreWidest (with_each_choice choices.now before) (map (λ s. s.items) kept.old.items)
        → AreWidest (with_each_choice choices.now (before ++ map (λ s. s.items) sets.now))
        (map (λ s. s.items) kept.new.items)) }
{
    for set in sets {
        add_set(alloc, kept, choices, set)?;
    }
    Ok(())
}

/// The sets of full alternatives of a line that count: of equal ones one, and none that is inside another, or has none
/// of some choice.
pub fn widest_sets(
    alloc: Global,
    line: &ProductLine,
    full: &FullAlternatives,
) -> Result<Vec<Vec<Alternative>>, AllocError>
    ensures { IfOk result (λ kept. AreWidest (with_each_choice line.now.choices.items (full_sets line.now full.now))
        (map (λ s. s.items) kept.items)) }
{
    let mut kept = Vec::new(alloc);
    add_set(alloc, &mut kept, &line.choices, &full.all)?;
    if line.plan.timing.is_none() {
        return Ok(kept);
    }
    add_sets(alloc, &mut kept, &line.choices, &full.of_needs)?;
    Ok(kept)
}

/// How many variants the sets have, at most so many as 64 bits hold: one of several sets counts for each.
pub fn number_of_variants(line: &ProductLine, sets: &[Vec<Alternative>]) -> u64
    ensures { result ≡ min (sum (map (variants_of_set line.now.choices.items) (map (λ s. s.items) sets.now)))
        (2 ^ 64 - 1) }
{
    let mut count: u64 = 0;
    for set in sets {
        count = count.saturating_add(variants_of_set(&line.choices, set));
    }
    count
}

fn is_built(line: &ProductLine, nevers: LineNevers, variant: &[usize]) -> bool
    ensures { result ≡ is_possible (line_with nevers line.now).nevers.items variant.now }
{
    match nevers {
        LineNevers::Kept => is_possible(&line.nevers, variant),
        LineNevers::LeftOut => true,
    }
}

fn keep_built(line: &ProductLine, nevers: LineNevers, variants: &mut Vec<Vec<usize>>)
    ensures { variants.new.items ≡ filter (λ v. is_possible
        (line_with nevers line.now).nevers.items v.items) variants.old.items }
{
    variants.retain(|variant| is_built(line, nevers, variant));
}

/// The possible variants that take alternatives of one of these sets alone, each once, in order.
pub fn looked_at(
    alloc: Global,
    line: &ProductLine,
    nevers: LineNevers,
    sets: &[Vec<Alternative>],
) -> Result<Vec<Vec<usize>>, AllocError>
    ensures { IfOk result (λ all. (full : FullOnes)
        → AreWidest (with_each_choice line.now.choices.items (full_sets line.now full)) (map (λ s. s.items) sets.now)
        → AreLookedAt (line_with nevers line.now) full (map (λ v. v.items) all.items)) }
{
    let mut variants = variants_of_sets(alloc, &line.choices, sets)?;
    keep_built(line, nevers, &mut variants);
    Ok(variants)
}
