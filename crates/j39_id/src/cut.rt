//! What a cutter answers.

/// What a cutter answers to a byte or to the end.
#[derive(Clone, Copy)]
pub enum Cut {
    /// No line ends here.
    More,
    /// A line ends here, whose bytes the cutter gives.
    Line,
    /// The line has more than 8,192 bytes. Its end is not reported.
    Long,
}
