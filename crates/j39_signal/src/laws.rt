//! Laws of signals: facts about the definitions, each the contract of a function that does nothing.
ghost use Rattle.j39_signal.specs.Laid.{BlanksAreOnes, LaidOutKeepWrites, ValuesReadBack, AllOnesReadGivenUp};
ghost use Rattle.j39_signal.specs.State.{OthersCountUp};

/// Signals are sound: signals that lay out a payload read back what was last written, whatever was written to the
/// others.
///
/// A payload that is written signal after signal ends with the raw number last put for each signal, and where there was
/// none with that which it began with: all ones in a blank payload. A signal last given a value reads that value; all
/// ones read `Absent`, or for the raw kind the value of all ones.
pub fn signals_are_sound()
    ensures kept { LaidOutKeepWrites }
    ensures blank { BlanksAreOnes }
    ensures value { ValuesReadBack }
    ensures given_up { AllOnesReadGivenUp }
{}

/// But for a signed signal the value of a raw number is the offset plus the step times the raw number.
pub fn others_count_up()
    ensures { OthersCountUp }
{}
