//! When long messages to all are whole.

/// When the long messages of a flow to all are whole, times in bits.
#[derive(Clone, Copy)]
pub struct WholeTime {
    /// How many frames the longest has.
    pub frames: u16,
    /// So long after the release at which one is wanted each receiver has it whole at most, where that is known.
    pub bits: Option<u64>,
    /// Within so long of this release each has to be whole, where a deadline is written.
    pub limit: Option<u32>,
    /// Whether each message is whole in this time, also where one of its flow is under way as it is wanted: messages
    /// aren't wanted more often than they can be sent.
    pub each: bool,
}

impl WholeTime {
    ghost use Rattle.std.specs.Prelude.{◌≡◌};
    ghost use Rattle.j39_load.specs.LoadFindings.{time_of_each};

    /// So long after its release each message is whole, where that is known.
    pub fn time_of_each(&self) -> Option<u64>
        ensures { result ≡ time_of_each self.now }
    {
        if self.each { self.bits } else { None }
    }
}
