//! Receiving messages.

mod heard;
mod manner;
mod progress;
mod receiver;
mod reception;

pub use heard::Heard;
pub use receiver::Receiver;
