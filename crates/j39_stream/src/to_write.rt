//! Sinks made of writers.
ghost use Rattle.std.specs.Prelude.{◌≡◌, if◌then◌else◌, is_ok};
ghost use Rattle.std.specs.Io.KnownBytes.{Keeps};
ghost use Rattle.j39_stream.specs.Streams.{one_more};

use crate::{Failed, Sink};
use std::io::Write;

/// A sink made of a writer.
#[derive(Drop)]
pub struct ToWrite<W> {
    inner: W,
    failures: u64,
}

impl<W: Write> ToWrite<W> {
    pub fn new(inner: W) -> Self
        ensures inner { result.inner ≡ inner }
        ensures failures { result.failures ≡ 0 }
    {
        ToWrite { inner, failures: 0 }
    }

    /// Hands on what the writer holds back. A call that fails is counted.
    pub fn flush(&mut self) -> Result<(), Failed>
        ensures bytes { Keeps (W.contents self.old.inner) (W.contents self.new.inner) }
        ensures failures { self.new.failures
            ≡ (if is_ok result then self.old.failures else one_more self.old.failures) }
    {
        match self.inner.flush() {
            Ok(()) => Ok(()),
            Err(_) => {
                self.failures = self.failures.saturating_add(1);
                Err(Failed)
            }
        }
    }
}

impl<W: Write> Sink for ToWrite<W> {
    ghost state = { λ s. record { taken = W.contents s.inner; failures = s.failures } };

    fn put(&mut self, bytes: &[u8]) -> Result<usize, Failed> {
        match self.inner.write(bytes) {
            Ok(0) => {
                if !bytes.is_empty() {
                    self.failures = self.failures.saturating_add(1);
                }
                Ok(0)
            }
            Ok(count) => Ok(count),
            Err(_) => {
                self.failures = self.failures.saturating_add(1);
                Err(Failed)
            }
        }
    }
}
