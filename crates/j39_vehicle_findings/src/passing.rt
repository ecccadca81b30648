//! The values of a list that pass a test, by their places.
ghost use Rattle.std.specs.Prelude.{◌≡◌, ◌≢◌, ◌++◌, [], IfOk, OnErr, OnOk};
ghost use Rattle.j39_search.specs.ListPlaces.{found_if};
ghost use Rattle.j39_vehicle_findings.specs.PassingPlaces.{passing};

use std::alloc::{AllocError, Global};

/// A test of a value.
pub trait PlaceTest<T> {
    ghost use Rattle.std.specs.Prelude.{◌≡◌, Bool};

    ghost passes: { Self → T → Bool };

    fn holds(&self, value: &T) -> bool
        ensures { result ≡ passes self.now value.now };
}

// Adds the place where its value passes.
fn keep_if(places: &mut Vec<usize>, passes: bool, place: usize) -> Result<(), AllocError>
    ensures { OnOk result (places.new.items ≡ places.old.items ++ found_if passes place) }
{
    if passes {
        places.push(place)?;
    }
    Ok(())
}

/// The places of the values that pass, in rising order.
pub fn passing_places<T, R: PlaceTest<T>>(
    alloc: Global,
    test: &R,
    values: &[T],
) -> Result<Vec<usize>, AllocError>
    ensures places { IfOk result (λ places. places.items ≡ passing (R.passes test.now) values.now) }
    ensures memory { OnErr result (values.now ≢ []) }
{
    let mut places = Vec::new(alloc);
    for (place, value) in values.iter().enumerate() {
        keep_if(&mut places, test.holds(value), place)?;
    }
    Ok(places)
}
