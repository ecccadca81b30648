//! Faults of a file, and their places.
use crate::Cause;

/// A table, and the key of it that is at fault where there is one.
#[derive(Clone, Copy)]
pub struct Place<T, K> {
    pub table: T,
    pub key: Option<K>,
}

/// What is wrong, and where.
#[derive(Clone, Copy)]
pub struct TableFault<T, K> {
    pub cause: Cause,
    pub place: Place<T, K>,
}
