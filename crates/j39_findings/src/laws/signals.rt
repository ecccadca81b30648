//! The law of a plan's signals.
ghost use Rattle.j39_network.specs.declared.plan.Plan.{Plan};
ghost use Rattle.j39_findings.specs.Findings.{Clean};
ghost use Rattle.j39_network.specs.SoundSignals.{SoundSignals};

/// The signals of a clean plan are sound, those of each record too. Each group's payload that begins blank and is
/// written signal after signal, by raw numbers of values or by all ones, ends with the raw number last put for each
/// signal, all ones where there was none. So a signal last given a value reads that value; one never given, or given
/// up, reads `Absent`, or for the raw kind the value of all ones.
pub fn signals_are_sound()
    ensures { (plan : Plan) → Clean plan → SoundSignals plan }
{}
