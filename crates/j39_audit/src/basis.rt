//! What an audit goes by.
ghost use Rattle.std.specs.Prelude.{◌≡◌, ◌≢◌, ◌<◌, ◌&&◌, ℕ, true, false, not, All, IfOk, length, slice_index_or};
ghost use Rattle.std.proofs.Props.{props};
ghost use Rattle.j39_findings.specs.Standing.{stays_of};
ghost use Rattle.j39_id.specs.Name.{is_arbitrary};
ghost use Rattle.j39_audit.specs.QueueTimes.{AreQueueTimes};
ghost use Rattle.j39_audit.specs.Settings.{AreMoving};
ghost use Rattle.j39_audit.specs.inside.ResponseTimes.{IsResponse};
ghost use Rattle.j39_audit.specs.inside.Sending.{AreSent, is_sender_of};

use crate::by_load::Bound;
use j39_findings::Standing;
use j39_network::{FlowPlan, Plan, UnitPlan};
use std::alloc::{AllocError, Global};

/// The plan, which of its units may move to other addresses, of which groups each has flows, whether frames of the bus
/// may be missing in the log, by how many microseconds the time of a line may differ from the end of its frame, how
/// many milliseconds without a frame are a gap, how long each flow takes to be sent, within how many milliseconds of
/// its moment each one's message is queued, and by what it is known how early the moment of a message may have been.
#[derive(Clone, Copy)]
pub(crate) struct Basis<'a> {
    pub plan: &'a Plan,
    pub moving: &'a [bool],
    pub sent: &'a [Vec<bool>],
    pub part: bool,
    pub stamps: u64,
    pub quiet: u64,
    pub responses: &'a [Option<u64>],
    pub queue_times: &'a [Option<u16>],
    pub bound: Bound,
    pub ghost sent_so: { AreSent plan.now sent.now },
    pub ghost queued_so: { AreQueueTimes plan.now queue_times.now },
    pub ghost few_us: { All IsResponse responses.now } by { Prim.hlevel props },
}

// Whether a unit may choose an address, and doesn't stay at the planned one.
fn may_move(standing: &Standing, unit: &UnitPlan) -> bool
    ensures { result ≡ (is_arbitrary unit.now.name && not (stays_of standing.now unit.now)) }
{
    unit.name.is_arbitrary() && !standing.stays(unit)
}

/// Which units do.
pub(crate) fn moving_of(alloc: Global, plan: &Plan) -> Result<Vec<bool>, AllocError>
    ensures { IfOk result (λ moving. AreMoving plan.now moving.items) }
{
    let standing = Standing::new(plan);
    let mut moving = Vec::new(alloc);
    for unit in &plan.units {
        moving.push(may_move(&standing, unit))?;
    }
    Ok(moving)
}

// A row that reports of none of so many groups.
fn none_sent(alloc: Global, count: usize) -> Result<Vec<bool>, AllocError>
    ensures size { IfOk result (λ row. length row.items ≡ count) }
    ensures none { IfOk result (λ row. (g : ℕ) → slice_index_or row.items g false ≡ false) }
{
    let mut row = Vec::new(alloc);
    for _group in 0..count {
        row.push(false)?;
    }
    Ok(row)
}

// Notes the group of a flow, if it is the unit's.
fn note_sent(row: &mut Vec<bool>, flow: &FlowPlan, unit: usize)
    requires { flow.now.group < length row.old.items }
    ensures size { length row.new.items ≡ length row.old.items }
    ensures others { (g : ℕ) → g ≢ flow.now.group
        → slice_index_or row.new.items g false ≡ slice_index_or row.old.items g false }
    ensures other { flow.now.sender ≢ unit → (g : ℕ)
        → slice_index_or row.new.items g false ≡ slice_index_or row.old.items g false }
    ensures here { flow.now.sender ≡ unit → slice_index_or row.new.items flow.now.group false ≡ true }
{
    if flow.sender == unit {
        row[flow.group] = true;
    }
}

// Of which groups a unit has flows.
fn sent_by(alloc: Global, plan: &Plan, unit: usize) -> Result<Vec<bool>, AllocError>
    ensures { IfOk result (λ row. (g : ℕ) → slice_index_or row.items g false ≡ is_sender_of plan.now unit g) }
{
    let mut row = none_sent(alloc, plan.groups.len())?;
    for place in 0..plan.flows.len() {
        note_sent(&mut row, &plan.flows[place], unit);
    }
    Ok(row)
}

/// Of which groups each unit has flows.
pub(crate) fn sent_of(alloc: Global, plan: &Plan) -> Result<Vec<Vec<bool>>, AllocError>
    ensures { IfOk result (λ rows. AreSent plan.now rows.items) }
{
    let mut rows = Vec::new(alloc);
    for unit in 0..plan.units.len() {
        let row = sent_by(alloc, plan, unit)?;
        rows.push(row)?;
    }
    Ok(rows)
}
