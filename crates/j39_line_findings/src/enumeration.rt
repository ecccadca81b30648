//! Variants that go on as others begin.
ghost use Rattle.std.specs.Prelude.{◌≡◌, ◌∷◌, ◌++◌, [], IfOk, OnOk, map};
ghost use Rattle.j39_line_findings.specs.AllVariants.{longer, with_each};

use std::alloc::{AllocError, Global};

// Places, and one more behind them.
fn with_place(alloc: Global, taken: &[usize], place: usize) -> Result<Vec<usize>, AllocError>
    ensures { IfOk result (λ v. v.items ≡ taken.now ++ place ∷ []) }
{
    let mut longer = taken.to_vec(alloc)?;
    longer.push(place)?;
    Ok(longer)
}

// Adds these places with each of so many behind them.
fn add_each(
    alloc: Global,
    all: &mut Vec<Vec<usize>>,
    taken: &[usize],
    count: usize,
) -> Result<(), AllocError>
    ensures { OnOk result (map (λ v. v.items) all.new.items ≡ map (λ v. v.items) all.old.items
        ++ with_each count taken.now) }
{
    for place in 0..count {
        all.push(with_place(alloc, taken, place)?)?;
    }
    Ok(())
}

/// Places that are taken, with each of so many behind them.
pub fn longer(
    alloc: Global,
    taken: &[Vec<usize>],
    count: usize,
) -> Result<Vec<Vec<usize>>, AllocError>
    ensures { IfOk result (λ all. map (λ v. v.items) all.items ≡ longer count (map (λ v. v.items) taken.now)) }
{
    let mut all = Vec::new(alloc);
    for places in taken {
        add_each(alloc, &mut all, places, count)?;
    }
    Ok(all)
}
