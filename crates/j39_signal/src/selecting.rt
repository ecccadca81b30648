//! Whether a payload is one that a selector takes.
ghost use Rattle.std.specs.Prelude.{◌≡◌, ◌≤◌};
ghost use Rattle.j39_signal.specs.Selectors.{is_selected};

use crate::Selector;
use crate::bits::bits_of;

impl Selector {
    ghost use Rattle.j39_signal.specs.Selectors.{has_selector, selector_end};

    /// The first place behind the bits.
    pub fn end(&self) -> u32
        ensures value { result ≡ selector_end self.now }
        ensures most { result ≤ 65790 }
    {
        u32::from(self.start) + u32::from(self.bits)
    }

    /// Whether the payload has the bits, and they have the number.
    #[tactic(auto, using(crate::proofs::There::within_bytes))]
    pub fn selects(&self, payload: &[u8]) -> bool
        ensures { result ≡ has_selector self.now payload.now }
    {
        (self.end() as usize + 7) / 8 <= payload.len()
            && bits_of(payload, self.start, self.bits) == self.value
    }
}

/// Whether a selector takes the payload; without one any is taken. It is asked at each frame.
#[inline(always)]
pub fn is_selected(selector: Option<Selector>, payload: &[u8]) -> bool
    ensures { result ≡ is_selected selector payload.now }
{
    match selector {
        Some(selector) => selector.selects(payload),
        None => true,
    }
}
