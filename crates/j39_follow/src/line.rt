//! What a line of a log says beside its frame.

pub(crate) mod log_line;
pub(crate) mod moment;
pub(crate) mod stamp;
pub(crate) mod words;
