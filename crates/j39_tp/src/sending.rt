//! Sending messages.

mod busy;
mod dest;
mod outcome;
mod phase;
mod reaction;
mod sender;
mod stage;
mod transfer;

pub use busy::Busy;
pub use dest::Dest;
pub use outcome::Outcome;
pub use phase::Phase;
pub use reaction::Reaction;
pub use sender::Sender;
pub use transfer::Transfer;
