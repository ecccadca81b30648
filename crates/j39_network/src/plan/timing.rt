//! What is known of the bus itself.
ghost use Rattle.std.specs.Prelude.{◌≤◌};

/// How fast a bus is (SAE J1939-11 and SAE J1939-14 know 250,000 and 500,000 bits a second).
#[derive(Clone, Copy)]
pub enum Bitrate {
    /// 125,000 bits a second.
    Kbit125,
    /// 250,000 bits a second.
    Kbit250,
    /// 500,000 bits a second.
    Kbit500,
    /// 1,000,000 bits a second.
    Mbit1,
}

/// How many frames are damaged at most.
#[derive(Clone, Copy)]
pub struct ErrorRate {
    /// So many attempts that are damaged begin at most in any window.
    pub count: u16,
    /// The window, in milliseconds.
    pub every: u16,
    pub ghost count_positive: { 1 ≤ count },
    pub ghost count_range: { count ≤ 100 },
    pub ghost every_positive: { 1 ≤ every },
}

/// What is known of the bus that a plan is for.
#[derive(Clone, Copy)]
pub struct Timing {
    pub bitrate: Bitrate,
    /// How many frames of no planned flow, and of a smaller identifier, are queued at most while a planned frame waits,
    /// together with the time before in which planned frames that may go before it wait without a break.
    pub unplanned: u16,
    /// Frames of no planned flow have this priority or a larger number.
    pub unplanned_priority: u8,
    /// Frames of long messages have this priority or a larger number.
    pub transport_priority: u8,
    /// The frames of a long message to all are queued so many milliseconds apart at least.
    pub broadcast_gap: u16,
    /// And so many milliseconds apart at most.
    pub broadcast_gap_most: u16,
    /// Each clock, of a unit and of the bus, differs from true time by so many parts in a million at most.
    pub drift: u16,
    /// How many frames are damaged at most; without it none is.
    pub errors: Option<ErrorRate>,
    pub ghost unplanned_range: { unplanned ≤ 1000 },
    pub ghost unplanned_priority_range: { unplanned_priority ≤ 6 },
    pub ghost transport_priority_range: { transport_priority ≤ 7 },
    pub ghost broadcast_gap_least: { 10 ≤ broadcast_gap },
    pub ghost broadcast_gap_range: { broadcast_gap ≤ 200 },
    pub ghost broadcast_gap_order: { broadcast_gap ≤ broadcast_gap_most },
    pub ghost broadcast_gap_most_range: { broadcast_gap_most ≤ 750 },
    pub ghost drift_range: { drift ≤ 20000 },
}
