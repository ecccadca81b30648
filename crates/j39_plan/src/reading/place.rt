//! Places in a plan file.

/// A table of a plan file, its indices counted from 0.
#[derive(Clone, Copy)]
pub enum Table {
    Top,
    Timing,
    /// How many frames are damaged at most.
    TimingErrors,
    Unit(usize),
    /// The NAME of a unit.
    UnitName(usize),
    Group(usize),
    /// The selector of a group.
    GroupWhen(usize),
    /// A signal, behind the index of its group.
    Signal(usize, usize),
    /// A text, behind the index of its group.
    Text(usize, usize),
    Flow(usize),
    Need(usize),
    Request(usize),
    /// Alternatives of which each vehicle has one.
    Choice(usize),
    /// Alternatives that no vehicle has together.
    Never(usize),
}
