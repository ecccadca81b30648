//! What is wrong with what a plan asks of its bus.
ghost use Rattle.std.specs.Prelude.{◌≡◌};

/// What is wrong with what the flows of a plan ask of its bus. Flows and needs are named by their places from 0.
#[derive(Clone, Copy)]
pub enum LoadFinding {
    /// It isn't known how often a flow is sent.
    NoPeriod(usize),
    /// All flows can take so many bits in a second, more than the bus carries.
    Overload(u64),
    /// The frames of a flow aren't shown to be on the bus in time.
    LateFlow(usize),
    /// What a unit needs isn't shown to be young enough when it comes.
    NeedTooOld(usize),
    /// Requests ask for a flow that only answers them oftener together than once in its period.
    AskedTooOften(usize),
}

impl LoadFinding {
    ghost use Rattle.j39_load.specs.LoadFindings.{load_finding_number};

    /// The number under which it is known, without the F.
    pub fn number(self) -> u8
        ensures { result ≡ load_finding_number self }
    {
        match self {
            LoadFinding::NoPeriod(_) => 16,
            LoadFinding::Overload(_) => 17,
            LoadFinding::LateFlow(_) => 18,
            LoadFinding::NeedTooOld(_) => 20,
            LoadFinding::AskedTooOften(_) => 31,
        }
    }
}
