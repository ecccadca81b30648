//! What units ask for, and what they answer.

pub(crate) mod acknowledgement;
pub(crate) mod asking;
pub(crate) mod event;
pub(crate) mod exchange;
pub(crate) mod exchanges;
pub(crate) mod noting;
pub(crate) mod replies;
pub(crate) mod request_ends;
