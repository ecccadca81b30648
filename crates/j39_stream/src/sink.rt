//! Where bytes are written to.
ghost use Rattle.std.specs.Prelude.{◌≡◌, ◌≤◌, length, IfOk};
ghost use Rattle.std.specs.Io.KnownBytes.{WriteAppends};
ghost use Rattle.j39_stream.specs.Streams.{SinkState, after_put};

use crate::Failed;

/// Where bytes are written to.
pub trait Sink {
    /// The bytes that were taken, where they are known, and how many calls failed: by an error, or by taking none of
    /// some bytes.
    ghost state: { Self → SinkState };

    /// Takes some bytes from the front and answers how many. A call that fails takes none.
    fn put(&mut self, bytes: &[u8]) -> Result<usize, Failed>
        ensures count { IfOk result (λ n. n ≤ length bytes.now) }
        ensures bytes { WriteAppends (state self.old).taken (state self.new).taken result bytes.now }
        ensures failures { (state self.new).failures ≡ after_put result bytes.now (state self.old).failures };
}
