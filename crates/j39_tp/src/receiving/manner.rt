//! Whether a receiver answers.

/// Whether a receiver answers, and how many packets it then lets be sent for each CTS.
#[derive(Clone, Copy)]
pub enum Manner {
    Answering { window: u8 },
    Listening,
}
