//! What a command found.

/// What a command found.
#[derive(Clone, Copy)]
pub enum Verdict {
    /// The command did what it was asked.
    Done,
    /// The plan has findings.
    Findings,
    /// The bus or the reader refuses the plan or a step.
    Refused,
    /// The input can't be read.
    Unreadable,
}
