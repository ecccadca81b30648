//! What is kept of places, as of units or of flows.
ghost use Rattle.std.specs.Prelude.{◌≡◌, ◌≢◌, ◌<◌, ℕ, IfOk, None, length, slice_index_or};

use std::alloc::{AllocError, Global};

/// Nothing of so many places.
pub(crate) fn nothing_kept<T: Copy>(
    alloc: Global,
    count: usize,
) -> Result<Vec<Option<T>>, AllocError>
    ensures size { IfOk result (λ kept. length kept.items ≡ count) }
    ensures none { IfOk result (λ kept. (n : ℕ) → slice_index_or kept.items n None ≡ None) }
{
    let mut kept = Vec::new(alloc);
    for _place in 0..count {
        kept.push(None)?;
    }
    Ok(kept)
}

/// What is kept of a place.
pub(crate) fn kept_at<T: Copy>(kept: &Vec<Option<T>>, place: usize) -> Option<T>
    ensures { result ≡ slice_index_or kept.now.items place None }
{
    if place < kept.len() {
        kept[place]
    } else {
        None
    }
}

/// Keeps this of a place.
pub(crate) fn keep_at<T: Copy>(kept: &mut Vec<Option<T>>, place: usize, one: Option<T>)
    requires { place < length kept.old.items }
    ensures size { length kept.new.items ≡ length kept.old.items }
    ensures others { (n : ℕ) → n ≢ place → slice_index_or kept.new.items n None ≡ slice_index_or kept.old.items n None }
    ensures here { slice_index_or kept.new.items place None ≡ one }
{
    kept[place] = one;
}

/// Forgets what is kept of a place.
pub(crate) fn forget_at<T: Copy>(kept: &mut Vec<Option<T>>, place: usize)
    ensures size { length kept.new.items ≡ length kept.old.items }
    ensures others { (n : ℕ) → n ≢ place → slice_index_or kept.new.items n None ≡ slice_index_or kept.old.items n None }
    ensures here { place < length kept.old.items → slice_index_or kept.new.items place None ≡ None }
{
    if place < kept.len() {
        kept[place] = None;
    }
}

/// Forgets what is kept of each place.
pub(crate) fn forget_each<T: Copy>(kept: &mut Vec<Option<T>>)
    ensures size { length kept.new.items ≡ length kept.old.items }
    ensures none { (n : ℕ) → slice_index_or kept.new.items n None ≡ None }
{
    for place in 0..kept.len() {
        kept[place] = None;
    }
}
