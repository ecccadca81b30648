//! The records of a group.
ghost use Rattle.std.specs.Prelude.{◌≡◌, ◌≤◌};
ghost use Rattle.j39_network.specs.Records.{first_bytes, last_end, record_count, repeated_end, stands_once};

use crate::plan::GroupPlan;
use j39_signal::Signal;

fn repeated_end(signal: &Signal) -> u32
    ensures value { result ≡ repeated_end signal.now }
    ensures most { result ≤ 65599 }
{
    if signal.is_repeated() {
        signal.end()
    } else {
        0
    }
}

// The first place behind the signals that are repeated, in bits, as the first record has them.
fn last_end(signals: &[Signal]) -> u32
    ensures value { result ≡ last_end signals.now }
    ensures most { result ≤ 65599 }
{
    let mut end = 0;
    for signal in signals {
        end = repeated_end(signal).max(end);
    }
    end
}

// The bytes of a message up to the end of its first record, 0 where it has none.
fn first_bytes(signals: &[Signal]) -> usize
    ensures { result ≡ first_bytes signals.now }
{
    let bytes = (last_end(signals) + 7) / 8;
    bytes as usize
}

/// Whether a signal of a group isn't repeated, and a message of so many bytes has it. It is asked at each signal of a
/// frame.
#[inline(always)]
pub fn stands_once(signal: &Signal, bytes: usize) -> bool
    ensures { result ≡ stands_once bytes signal.now }
{
    !signal.is_repeated() && signal.is_there(bytes)
}

impl GroupPlan {
    /// How many records a message of so many bytes has: those of which all signals end inside it.
    pub fn record_count(&self, bytes: usize) -> usize
        ensures { result ≡ record_count self.now bytes }
    {
        let Some(every) = self.every else {
            return 0;
        };
        let first = first_bytes(self.signals.as_slice());
        if first == 0 || bytes < first {
            return 0;
        }
        (bytes - first) / usize::from(every) + 1
    }
}
