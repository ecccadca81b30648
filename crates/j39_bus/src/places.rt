//! Lists of empty places.
ghost use Rattle.std.specs.Prelude.{◌≡◌, None, replicate, IfOk};

use std::alloc::{AllocError, Global};

/// A list of so many places with nothing in them.
pub(crate) fn empty_places<T: Drop>(
    alloc: Global,
    count: usize,
) -> Result<Vec<Option<T>>, AllocError>
    ensures { IfOk result (λ places. places.items ≡ replicate count None) }
{
    let mut places = Vec::with_capacity(alloc, count)?;
    for _ in 0..count {
        places.push_reserved(None);
    }
    Ok(places)
}
