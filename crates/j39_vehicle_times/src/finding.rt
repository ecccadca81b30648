//! What can be wrong with the times of what gateways send on.
ghost use Rattle.std.specs.Prelude.{◌≡◌};

/// One thing that is wrong with the times of what the gateways of a vehicle send on, named by places from 0. Findings
/// are in order by their number, then by their places.
#[derive(Clone, Copy)]
pub enum TimeFinding {
    /// G10: what the direct forward hears may come more often than its output may be sent.
    TooOften(usize),
    /// G11: the direct forward isn't shown to queue its output within the jitter of this.
    TooLate(usize),
    /// G12: what the direct forward hears may stay away for longer than its output may.
    TooRare(usize),
    /// G13: flows meet the need, and what none of them brings is shown to be young enough.
    NeedTooOld(usize),
}

impl TimeFinding {
    ghost use Rattle.j39_vehicle_times.specs.TimeFindings.{time_finding_number};

    /// The number under which it is known, without the G.
    pub fn number(&self) -> u8
        ensures { result ≡ time_finding_number self.now }
    {
        match self {
            TimeFinding::TooOften(_) => 10,
            TimeFinding::TooLate(_) => 11,
            TimeFinding::TooRare(_) => 12,
            TimeFinding::NeedTooOld(_) => 13,
        }
    }
}
