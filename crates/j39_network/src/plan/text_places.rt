//! Where texts lie.
ghost use Rattle.std.specs.Prelude.{◌≡◌};
ghost use Rattle.j39_network.specs.TextPlaces.{last_byte};

use super::TextPlan;

impl TextPlan {
    /// The place of its last byte; of a text that goes to the end of the message that of its first.
    pub fn last_byte(&self) -> u16
        ensures { result ≡ last_byte self.now }
    {
        match self.bytes {
            Some(count) => self.byte + count - 1,
            None => self.byte,
        }
    }
}
