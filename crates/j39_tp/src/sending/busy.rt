//! A sender that has a message already.
use crate::Message;

/// A message that a sender doesn't take, since it has one.
#[derive(Drop)]
pub struct Busy {
    /// The message that was handed in.
    pub message: Message,
}
