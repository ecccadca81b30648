//! Which places of a graph lead back to themselves. A row has the places to which one leads.
ghost use Rattle.std.specs.Prelude.{◌≡◌, ◌<◌, [], All, IfOk, OnOk, false, length};
ghost use Rattle.std.specs.Bool.{Decides};
ghost use Rattle.std.specs.List.{slice_index_or};
ghost use Rattle.j39_vehicle_findings.specs.PathTables.{row_at};
ghost use Rattle.j39_vehicle_findings.specs.inside.Spreading.{IsSpread, IsWayTo, ReachesOne, Spreads, StayInside};

use std::alloc::{AllocError, Global};

/// The flag at a place, false where there is none.
pub fn flag_at(flags: &[bool], place: usize) -> bool
    ensures { result ≡ slice_index_or flags.now place false }
{
    match flags.get(place) {
        Some(flag) => *flag,
        None => false,
    }
}

/// The row of a place, empty where there is none.
pub fn row_of(rows: &[Vec<usize>], place: usize) -> &[usize]
    ensures { result.now ≡ row_at rows.now place }
{
    match rows.get(place) {
        Some(row) => row.as_slice(),
        None => &[],
    }
}

// Reaches a place where it isn't reached yet, and lets it wait.
fn reach_one(
    next: usize,
    reached: &mut Vec<bool>,
    waiting: &mut Vec<usize>,
) -> Result<(), AllocError>
    requires { next < length reached.old.items }
    ensures { OnOk result (ReachesOne next reached.old.items waiting.old.items reached.new.items waiting.new.items) }
{
    if flag_at(reached, next) {
        return Ok(());
    }
    waiting.push(next)?;
    reached[next] = true;
    Ok(())
}

// Reaches these places, and lets those wait that weren't reached before.
fn reach(
    places: &[usize],
    reached: &mut Vec<bool>,
    waiting: &mut Vec<usize>,
) -> Result<(), AllocError>
    requires { All (λ m. m < length reached.old.items) places.now }
    ensures { OnOk result (Spreads places.now reached.old.items waiting.old.items reached.new.items waiting.new.items) }
{
    'reach: for place in 0..places.len() {
        reach_one(places[place], reached, waiting)?;
    }
    Ok(())
}

// Reaches all to which those lead that wait.
fn reach_all(
    rows: &[Vec<usize>],
    start: usize,
    reached: &mut Vec<bool>,
    waiting: &mut Vec<usize>,
) -> Result<(), AllocError>
    requires inside { StayInside rows.now }
    requires spread { IsSpread rows.now start reached.old.items waiting.old.items }
    ensures { OnOk result (IsSpread rows.now start reached.new.items []) }
{
    'spread: while let Some(place) = waiting.pop() {
        reach(row_of(rows, place), reached, waiting)?;
    }
    Ok(())
}

/// Whether a place leads back to itself. Each place to which it leads is reached once.
pub fn comes_back(alloc: Global, rows: &[Vec<usize>], start: usize) -> Result<bool, AllocError>
    requires { StayInside rows.now }
    ensures { IfOk result (λ back. Decides back (IsWayTo rows.now start start)) }
{
    let mut reached = vec![in alloc; false; rows.len()]?;
    let mut waiting = Vec::new(alloc);
    reach(row_of(rows, start), &mut reached, &mut waiting)?;
    reach_all(rows, start, &mut reached, &mut waiting)?;
    Ok(flag_at(&reached, start))
}
