//! Source addresses.
ghost use Rattle.std.specs.Prelude.{◌≡◌, ℕ, ◌<◌, ◌↔◌, IsSome, IfSome};
ghost use Rattle.j39_id.specs.Addresses.{null_address};

use crate::addresses::NULL_ADDRESS;
use std::marker::Model;

/// An address that a unit can hold (SAE J1939-81): 0 to 253. 254 is the null address, 255 the global one.
#[derive(Clone, Copy, Default, PartialEq, Eq, PartialOrd, Ord)]
pub struct Address {
    number: u8,
}

impl Model for Address {
    ghost Value = { ℕ };

    ghost view = { λ a. a.number };

    ghost invariant = { λ a. a.number < null_address };

    ghost inverse = { λ n. record { number = n } };
}

impl Address {
    /// The address, or `None` for 254 and 255.
    pub fn new(number: u8) -> Option<Self>
        ensures valid { IsSome result ↔ (number < null_address) }
        ensures value { IfSome result (λ a. a ≡ number) }
    {
        if number < NULL_ADDRESS {
            Some(Address { number })
        } else {
            None
        }
    }

    /// The number, 0 to 253.
    pub fn number(self) -> u8
        ensures value { result ≡ self }
        ensures range { self < null_address }
    {
        self.number
    }
}
