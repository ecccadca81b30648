//! What is kept of a message to one unit.
ghost use Rattle.std.specs.Prelude.{◌≡◌, ◌+◌, length};
ghost use Rattle.j39_tp.specs.Chunks.{packets_of};

use j39_id::Pgn;
use j39_tp::{Chunk, Size};

/// What was announced to a unit, up to which packet all came in order, and of each packet what came of it last: none
/// has the number 0.
#[derive(Drop)]
pub(crate) struct Collected {
    pub size: Size,
    pub pgn: Pgn,
    pub held: u8,
    pub chunks: Vec<Option<Chunk>>,
    ghost count: { length chunks.items ≡ packets_of size + 1 },
}
