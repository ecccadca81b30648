//! Flows of a plan.
use j39_id::Pgn;
use j39_network::To;
use j39_signal::Selector;

/// A flow of a plan, with the PGN, the priority, the lengths and the selector of its group.
#[derive(Clone, Copy)]
pub struct Flow {
    pub pgn: Pgn,
    pub priority: u8,
    /// The length of the shortest message in bytes.
    pub length: u16,
    /// The length of the longest message in bytes.
    pub most: u16,
    /// Bits by whose number messages of the group are distinguished from those of others of its PGN.
    pub when: Option<Selector>,
    pub sender: usize,
    pub to: To,
}
