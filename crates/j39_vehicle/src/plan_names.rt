//! The names of the files that have the plans of a vehicle's buses.
ghost use Rattle.std.specs.Prelude.{◌≡◌, ◌<◌, ◌+◌, ℕ, IfOk, IfErr, IfSome, length, string_bytes, take};
ghost use Rattle.std.specs.Option.{MatchOption};
ghost use Rattle.std.specs.Str.{IsCharBoundary};
ghost use Rattle.j39_vehicle.specs.PlanNames.{IsFolderOf, IsLastSlash, IsPlanFile, LacksSlash};

use std::alloc::{AllocError, Global};

#[tactic(auto, using(std::proofs::lemmas::Str::Pattern::rfind_char))]
fn last_slash(name: &str) -> Option<usize>
    ensures boundary { IfSome result (IsCharBoundary name.now) }
    ensures last { MatchOption result (LacksSlash name.now) (IsLastSlash name.now) }
{
    name.rfind('/')
}

// What stands before the last `/` of a name.
fn before_slash(name: &str) -> Option<&str>
    ensures { MatchOption result (LacksSlash name.now) (λ f. (k : ℕ) × IsLastSlash name.now k
        × (f.now ≡ take k name.now)) }
{
    match last_slash(name) {
        Some(place) => {
            let (front, _) = name.split_at(place);
            Some(front)
        }
        None => None,
    }
}

// A name up to its last `/`.
fn folder(alloc: Global, name: &str) -> Result<String, AllocError>
    ensures named { IfOk result (λ s. IsFolderOf name.now (string_bytes s)) }
    ensures memory { IfErr result (λ _. 0 < length name.now) }
{
    let mut folder = String::new(alloc);
    if let Some(front) = before_slash(name) {
        folder.push_str(front)?;
        folder.push('/')?;
    }
    Ok(folder)
}

/// The name by which the plan of a bus is opened: as the vehicle file has it, where it begins with `/`, and else in the
/// folder of the vehicle file.
pub fn plan_file(alloc: Global, vehicle: &str, plan: &str) -> Result<String, AllocError>
    ensures named { IfOk result (λ name. IsPlanFile vehicle.now plan.now (string_bytes name)) }
    ensures memory { IfErr result (λ _. 0 < length vehicle.now + length plan.now) }
{
    let mut name = if plan.starts_with('/') {
        String::new(alloc)
    } else {
        folder(alloc, vehicle)?
    };
    name.push_str(plan)?;
    Ok(name)
}
