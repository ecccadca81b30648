//! Where bytes are read from.
ghost use Rattle.std.specs.Prelude.{◌≡◌, ◌≤◌, length, IfOk};
ghost use Rattle.std.specs.Io.KnownBytes.{ReadConsumes};
ghost use Rattle.j39_stream.specs.Streams.{SourceState, after_pull, one_more};

use crate::Failed;

/// Bytes to be read.
pub trait Source {
    /// The bytes that are left, where they are known, how many calls were made, and how many of them failed.
    ghost state: { Self → SourceState };

    /// Moves some bytes to the front of the buffer and answers how many. Where the buffer has room, 0 is the end.
    fn pull(&mut self, buffer: &mut [u8]) -> Result<usize, Failed>
        ensures count { IfOk result (λ n. n ≤ length buffer.old) }
        ensures bytes { ReadConsumes (state self.old).left (state self.new).left result buffer.new }
        ensures pulls { (state self.new).pulls ≡ one_more (state self.old).pulls }
        ensures failures { (state self.new).failures ≡ after_pull result (state self.old).failures };
}
