//! Long messages to all.

/// Frames of the long messages of a unit to all.
#[derive(Clone, Copy)]
pub(crate) enum BroadcastPart {
    Packets,
    Announcements,
}

/// The long messages of a flow to all. Their unit sends one such message at a time.
#[derive(Clone, Copy, PartialEq, Eq)]
pub struct Broadcast {
    /// The unit that sends them, by its place.
    pub sender: usize,
    /// How many packets the longest has.
    pub packets: u8,
    /// How many packets the shortest has.
    pub least_packets: u8,
    /// Whether others of the flow's messages go in one frame.
    pub has_short: bool,
    /// How far apart the releases at which one is wanted are at least, in milliseconds.
    pub period: u16,
    /// The least distance of those releases in bits.
    pub apart: u32,
    /// A message is ready to be sent at most so many bits after its release.
    pub jitter: u32,
    /// It is wanted at most so many bits behind the moment from which this is counted how often it is: its release, or
    /// the request that it answers.
    pub late: u32,
    /// How many requests that have a period ask for it, where the flow comes only as an answer.
    pub askers: u16,
    /// Within so many bits of its release each has to be whole, where a deadline is written.
    pub deadline: Option<u32>,
}
