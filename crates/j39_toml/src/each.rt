//! The elements of an array of tables.
ghost use Rattle.std.specs.Prelude.{◌≡◌, [], map, IfOk, length};
ghost use Rattle.toml.specs.View.{view, items_view};
ghost use Rattle.j39_toml.specs.InOrder.{Each, EachGrows, each_faults, labels_of};
ghost use Rattle.j39_toml.specs.Outcome.{GivesGrowing};

use crate::FileError;
use std::alloc::Global;
use toml::Value;

/// How an element of an array of tables is read, behind those before it.
pub trait ReadElement<T, F> {
    ghost use Rattle.std.specs.Prelude.{ℕ, List};
    ghost use Rattle.toml.specs.Data.{Data};

    // What an element has that later ones may not repeat, or may name: its label, as a rule.
    ghost Label: { Type 0 };

    // That of what was read, and that of the element.
    ghost label: { T → Label };

    ghost data_label: { Data → Label };

    // The faults of the element of a place, behind those with some labels.
    ghost faults: { Self → ℕ → List Label → Data → List F };

    // Where room is asked for in reading the element of a place, behind those with some labels.
    ghost Grows: { Self → ℕ → List Label → Data → Type 0 };

    // What the element reports.
    ghost Describes: { Self → Data → T → Type 0 };

    fn read(
        &self,
        alloc: Global,
        index: usize,
        seen: &[T],
        value: &Value,
    ) -> Result<T, FileError<F>>
        ensures gives { GivesGrowing (Grows self.now index (map label seen.now) (view value.now)) result
            (faults self.now index (map label seen.now) (view value.now)) (Describes self.now (view value.now)) }
        ensures labelled { IfOk result (λ x. label x ≡ data_label (view value.now)) };
}

/// What the elements of an array report, in order.
pub fn read_each<T: Drop, F: Copy, R: ReadElement<T, F>>(
    alloc: Global,
    reader: &R,
    values: &[Value],
) -> Result<Vec<T>, FileError<F>>
    ensures gives { GivesGrowing (EachGrows (R.faults reader.now) (R.Grows reader.now) (items_view values.now)) result
        (each_faults (R.faults reader.now) R.data_label 0 [] (items_view values.now))
        (λ v. Each (R.Describes reader.now) (items_view values.now) v.items) }
    ensures labels { IfOk result (λ v. map R.label v.items ≡ labels_of R.data_label (items_view values.now)) }
    ensures count { IfOk result (λ v. length v.items ≡ length values.now) }
{
    let mut items = Vec::new(alloc);
    for (index, value) in values.iter().enumerate() {
        let item = reader.read(alloc, index, &items, value)?;
        items.push(item)?;
    }
    Ok(items)
}
