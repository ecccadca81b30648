//! By which forwards what a flow brings comes from its origin.
ghost use Rattle.std.specs.Prelude.{◌≡◌, ◌≢◌, ◌++◌, [], IfOk, OnErr, OnOk};
ghost use Rattle.j39_vehicle_text.specs.NeedLines.{back_text, way_back, reported_way_text};

use j39_text::{TextBuffer, WriteResult};
use j39_vehicle_findings::{Point, Routes};
use std::alloc::{AllocError, Global};

// The forwards by which the trace of a flow and a signal goes on, from the flow back.
fn way_back(alloc: Global, routes: &Routes<'_>, start: Point) -> Result<Vec<usize>, AllocError>
    ensures way { IfOk result (λ back. back.items ≡ way_back routes.now.vehicle.now start) }
    ensures memory { OnErr result (routes.now.vehicle.now.forwards.items ≢ []) }
{
    let mut back = Vec::new(alloc);
    let mut point = start;
    'trace: for _step in 0..routes.vehicle.forwards.len() {
        let Some(forward) = routes.next_forward(point) else {
            return Ok(back);
        };
        back.push(forward)?;
        let Some(before) = routes.goes_on(point, forward) else {
            return Ok(back);
        };
        point = before;
    }
    Ok(back)
}

// Writes the places of forwards, the last one first.
fn write_back(text: &mut TextBuffer, back: &[usize]) -> WriteResult
    ensures { OnOk result (text.new ≡ text.old ++ back_text back.now) }
{
    let mut left = back.len();
    'back: while left > 0 {
        left -= 1;
        text.place(" ", back[left])?;
    }
    Ok(())
}

// Writes by which forwards something comes, where there are any.
#[tactic(auto, unfolding(crate::specs::NeedLines::reported_way_text))]
fn write_forwards(text: &mut TextBuffer, back: &[usize]) -> WriteResult
    ensures { OnOk result (text.new ≡ text.old ++ reported_way_text back.now) }
{
    if back.is_empty() {
        return Ok(());
    }
    text.word(" by")?;
    write_back(text, back)
}

/// Writes by which forwards what a flow brings comes, from its origin on.
pub(super) fn write_way(
    alloc: Global,
    text: &mut TextBuffer,
    routes: &Routes<'_>,
    start: Point,
) -> WriteResult
    ensures { OnOk result (text.new ≡ text.old ++ reported_way_text (way_back routes.now.vehicle.now start)) }
{
    let back = way_back(alloc, routes, start)?;
    write_forwards(text, &back)
}
