//! What each pair of addresses heard.

pub(crate) mod collected;
pub(crate) mod collecting;
pub(crate) mod collections;
pub(crate) mod heard_pairs;
