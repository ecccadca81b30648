//! The laws of what a plan file describes.
ghost use Rattle.std.specs.Prelude.{ℕ, List};
ghost use Rattle.j39_plan.specs.OnePlan.{HasOneAnswer};
ghost use Rattle.j39_plan.specs.GroupTables.{OlderLengths, OlderGroupRules};
ghost use Rattle.j39_plan.specs.SignalTables.{OlderSignalRules};
ghost use Rattle.j39_plan.specs.FlowTables.{OlderFlowRules};
ghost use Rattle.j39_plan.specs.TimingTables.{OlderTimingRules};
ghost use Rattle.j39_plan.specs.UnitTables.{OlderUnitRules};
ghost use Rattle.j39_plan.specs.PlanFaults.{OlderArrays, OlderBus};
ghost use Rattle.j39_plan.specs.Since.{OlderKnow};
ghost use Rattle.j39_plan.specs.Versions.{FourthReadsAsThird, ThirdReadsAsSecond};

/// But for want of memory, the definition allows one answer for a file: it describes one plan, or it has one first
/// fault, or it is no TOML text, and never two of these. Two plans are one where they keep the same addresses free,
/// report of as many strangers, are both live or neither is, and have the same units, groups, signals, flows, needs and
/// requests, place by place, labels by their bytes.
pub fn a_file_describes_one_plan()
    ensures { (bytes : List ℕ) → HasOneAnswer bytes }
{}

/// An older version knows of each table what a later one knows of it and what is known since its own time, in the same
/// order (`known`). So in a plan of version 1 or 2 a group and a flow have the keys that they had before there was a
/// third, and groups messages of one length without records; and a signal has the keys, the ranges and the kinds. In
/// one of version 3 too a unit, a signal, a flow and the bus have the keys that they had before there was a fourth, and
/// there are no strangers, no live buses, no needs and no requests.
pub fn older_versions_know_what_they_knew()
    ensures known { OlderKnow }
    ensures groups { OlderGroupRules }
    ensures lengths { OlderLengths }
    ensures signals { OlderSignalRules }
    ensures flows { OlderFlowRules }
    ensures units { OlderUnitRules }
    ensures timing { OlderTimingRules }
    ensures arrays { OlderArrays }
    ensures bus { OlderBus }
{}

/// A plan of version 4 in which nothing stands that this version alone knows is read as the same plan of version 3, and
/// one of version 3 in which nothing stands that the second doesn't know as the same plan of version 2: one plan is
/// read, or one fault is reported.
pub fn plans_without_later_keys()
    ensures fourth { FourthReadsAsThird }
    ensures third { ThirdReadsAsSecond }
{}
