//! That what is asked of buses and of logs can be kept.
ghost use Rattle.j39_audit.specs.Settings.{Settings};
ghost use Rattle.j39_audit_laws.specs.LoggedBuses.{CanPlansBeLogged};

/// What laws of audits ask of a bus, of its frames on the wire and of a whole log of it can be kept, all at once: where
/// no two units have one planned address, by a bus with two frames of a flow each message of which goes in one frame,
/// and a log of two lines with these. The bus keeps to the plan, whether its units keep order or not, and the flow to
/// its period. Its frames carry what the flow brings, so that each unit keeps its own part. The log has both, in the
/// order of their ends, each at its time, and what is of a unit alone is its own.
pub fn a_whole_log_can_be_kept()
    ensures { (s : Settings) → CanPlansBeLogged s }
{}
