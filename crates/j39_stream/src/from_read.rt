//! Sources made of readers.
ghost use Rattle.std.specs.Prelude.{◌≡◌};

use crate::{Failed, Source};
use std::io::Read;

/// A source made of a reader.
#[derive(Drop)]
pub struct FromRead<R> {
    inner: R,
    pulls: u64,
    failures: u64,
}

impl<R: Read> FromRead<R> {
    pub fn new(inner: R) -> Self
        ensures inner { result.inner ≡ inner }
        ensures pulls { result.pulls ≡ 0 }
        ensures failures { result.failures ≡ 0 }
    {
        FromRead {
            inner,
            pulls: 0,
            failures: 0,
        }
    }
}

impl<R: Read> Source for FromRead<R> {
    ghost state = { λ s. record { left = R.remaining s.inner; pulls = s.pulls; failures = s.failures } };

    fn pull(&mut self, buffer: &mut [u8]) -> Result<usize, Failed> {
        self.pulls = self.pulls.saturating_add(1);
        match self.inner.read(buffer) {
            Ok(count) => Ok(count),
            Err(_) => {
                self.failures = self.failures.saturating_add(1);
                Err(Failed)
            }
        }
    }
}
