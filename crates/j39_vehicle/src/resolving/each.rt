//! The tables of a kind, one after another.
ghost use Rattle.std.specs.Prelude.{◌≡◌, IfOk, length};
ghost use Rattle.std.specs.List.{AllZip};
ghost use Rattle.j39_toml.specs.Outcome.{GivesGrowing};
ghost use Rattle.j39_vehicle.specs.Resolved.{each_found, FoundGrows};

use crate::reading::VehicleError;
use std::alloc::Global;

/// How what a table names is found.
pub trait Resolve<S, T> {
    ghost use Rattle.std.specs.Prelude.{ℕ, List};
    ghost use Rattle.j39_vehicle.specs.VehicleErrors.{VehicleFault};

    // The faults of the table of a place.
    ghost faults: { Self → ℕ → S → List VehicleFault };

    // Where room is asked for.
    ghost Grows: { Self → ℕ → S → Type 0 };

    // What the table stands for.
    ghost StandsFor: { Self → S → T → Type 0 };

    fn resolve(&self, alloc: Global, index: usize, table: &S) -> Result<T, VehicleError>
        ensures { GivesGrowing (Grows self.now index table.now) result (faults self.now index table.now)
            (StandsFor self.now table.now) };
}

/// What the tables stand for, in order.
pub fn resolve_each<S, T: Drop, R: Resolve<S, T>>(
    alloc: Global,
    resolver: &R,
    tables: &[S],
) -> Result<Vec<T>, VehicleError>
    ensures gives { GivesGrowing (FoundGrows (R.faults resolver.now) (R.Grows resolver.now) tables.now) result
        (each_found (R.faults resolver.now) 0 tables.now)
        (λ v. AllZip (R.StandsFor resolver.now) tables.now v.items) }
    ensures count { IfOk result (λ v. length v.items ≡ length tables.now) }
{
    let mut found = Vec::new(alloc);
    for (index, table) in tables.iter().enumerate() {
        let item = resolver.resolve(alloc, index, table)?;
        found.push(item)?;
    }
    Ok(found)
}
