//! A message to one address, from its RTS on.
ghost use Rattle.std.specs.Prelude.{◌≡◌};
ghost use Rattle.j39_sessions.specs.Sessions.{with_cleared, has_come, is_acknowledged, is_cleared, is_permitted};
ghost use Rattle.j39_sessions.specs.Sessions.{with_number};

use crate::role::{Clearance, Receipt};

/// How many numbers a packet may have, as a byte gives them.
pub(crate) const NUMBERS: usize = 256;

/// A message to one address, from its RTS on: its group, its bytes and packets, the most packets that a CTS may clear,
/// the greatest number that a CTS cleared, and of each number whether a packet with it was sent.
#[derive(Clone, Copy)]
pub struct LoggedSession {
    pub group: u32,
    pub size: u16,
    pub count: u8,
    pub limit: u8,
    pub greatest: u8,
    pub sent: [bool; NUMBERS],
}

impl LoggedSession {
    /// Whether a CTS is right by the session.
    pub(crate) fn is_cleared(&self, clearance: Clearance) -> bool
        ensures { result ≡ is_cleared clearance self.now }
    {
        clearance.group == self.group
            && (clearance.first >= 1
                && (clearance.first <= self.count
                    && (clearance.count <= self.count && clearance.count <= self.limit)))
    }

    /// Whether an acknowledgement is right by the session.
    pub(crate) fn is_acknowledged(&self, receipt: Receipt) -> bool
        ensures { result ≡ is_acknowledged receipt self.now }
    {
        receipt.group == self.group
            && (receipt.size == self.size && (receipt.count == self.count && self.has_come()))
    }

    // Whether each of its packets was sent.
    fn has_come(&self) -> bool
        ensures { result ≡ has_come self.now }
    {
        let end = usize::from(self.count) + 1;
        self.sent[1..end].iter().all(|sent| *sent)
    }

    /// Whether a CTS cleared this number.
    pub(crate) fn is_permitted(&self, number: u8) -> bool
        ensures { result ≡ is_permitted number self.now }
    {
        number >= 1 && number <= self.greatest
    }

    /// What a CTS of its group clears: up to the last packet at most.
    pub(crate) fn clear(&mut self, clearance: Clearance)
        ensures { self.new ≡ with_cleared clearance self.old }
    {
        if clearance.first >= 1 {
            let behind = usize::from(clearance.first) + usize::from(clearance.count);
            let last = behind.saturating_sub(1).min(usize::from(self.count));
            self.greatest = self.greatest.max(last as u8);
        }
    }

    /// A packet with this number was sent.
    pub(crate) fn send(&mut self, number: u8)
        ensures { self.new ≡ with_number number self.old }
    {
        self.sent[usize::from(number)] = true;
    }
}
