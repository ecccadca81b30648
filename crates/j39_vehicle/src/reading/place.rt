//! Places in a vehicle file.

/// A table of a vehicle file, its indices counted from 0.
#[derive(Clone, Copy)]
pub enum Table {
    Top,
    Bus(usize),
    Gateway(usize),
    Forward(usize),
    /// A signal, behind the index of its forward.
    Signal(usize, usize),
    Need(usize),
}
