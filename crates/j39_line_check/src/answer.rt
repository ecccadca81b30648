//! What is reported of a line of vehicles.
ghost use Rattle.std.specs.Prelude.{◌≡◌};
ghost use Rattle.j39_line_check.specs.LineChecks.{many_of};

use j39_line_findings::LineFinding;

/// A finding, and a possible variant that has it.
#[derive(Drop)]
pub struct ReportedFinding {
    pub finding: LineFinding,
    /// The places of the alternatives that it takes, choice by choice.
    pub variant: Vec<usize>,
}

/// At which variants is looked for what counts what is there.
#[derive(Drop)]
pub enum LookedAt {
    /// At the full variants of the line, and at those that are full for a need; or at those of the line without what
    /// isn't built, where the line has too many, and nothing is found of these.
    Full(Vec<Vec<usize>>),
    /// So many are too many: what counts what is there isn't reported.
    TooMany(u64),
}

impl LookedAt {
    /// How many full variants there are, where they are too many.
    pub fn many(&self) -> Option<u64>
        ensures { result ≡ many_of self.now }
    {
        match self {
            LookedAt::TooMany(count) => Some(*count),
            LookedAt::Full(_) => None,
        }
    }
}

/// What is found of a line.
#[derive(Drop)]
pub enum LineAnswer {
    /// No variant is possible.
    NoVariant,
    /// What some possible variant has, each once, by number and then by places in the file; and at which variants was
    /// looked.
    Found(Vec<ReportedFinding>, LookedAt),
}
