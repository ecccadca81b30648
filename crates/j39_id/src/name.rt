//! The 64-bit NAME of a unit.
ghost use Rattle.std.specs.Prelude.{◌≡◌, ℕ, ◌^◌, ◌<◌, ◌↔◌, IsTrue, IfOk, IfErr};

use crate::name_fields::first_out_of_range;
use crate::{NameError, NameField, NameFields};
use std::marker::Model;

/// A NAME (SAE J1939-81): 64 bits that distinguish one unit from every other, ordered by their number.
///
/// The unit with the smaller NAME keeps an address that two of them claim. Every 64-bit number is a NAME.
#[derive(Clone, Copy, Default, PartialEq, Eq, PartialOrd, Ord)]
pub struct Name {
    number: u64,
}

impl Model for Name {
    ghost Value = { ℕ };

    ghost view = { λ n. n.number };

    ghost invariant = { λ n. n.number < 2 ^ 64 };

    ghost inverse = { λ n. record { number = n } };
}

impl Name {
    ghost use Rattle.j39_id.specs.Name.{name_number, first_out, field_in, fields_of, name_bytes, name_of_bytes};
    ghost use Rattle.j39_id.specs.declared.name_fields.NameField.TheVariants.{Arbitrary};
    ghost use Rattle.j39_id.specs.declared.name_fields.NameError.TheVariants.{FieldRange};

    /// The NAME of these fields, or the first of them, from the lowest bit up, that is out of its range.
    pub fn from_fields(fields: NameFields) -> Result<Self, NameError>
        ensures ok { IfOk result (λ n. (first_out fields ≡ None) × (n ≡ name_number fields)) }
        ensures refused { IfErr result (λ e. (f : NameField) × (e ≡ FieldRange f) × (first_out fields ≡ Some f)) }
    {
        if let Some(field) = first_out_of_range(fields) {
            return Err(NameError::FieldRange(field));
        }
        let high = (u64::from(fields.arbitrary) << 3 | u64::from(fields.industry)) << 4
            | u64::from(fields.system_instance);
        let middle = ((high << 7 | u64::from(fields.system)) << 1 | u64::from(fields.reserved)) << 8
            | u64::from(fields.function);
        let low = ((middle << 5 | u64::from(fields.function_instance)) << 3 | u64::from(fields.ecu))
            << 11
            | u64::from(fields.manufacturer);
        Ok(Name {
            number: low << 21 | u64::from(fields.identity),
        })
    }

    /// The ten fields, each in its range.
    pub fn fields(self) -> NameFields
        ensures fields { result ≡ fields_of self }
        ensures number { name_number result ≡ self }
        ensures range { first_out result ≡ None }

        // Only these fields have this number.
        ensures only { (f : NameFields) → first_out f ≡ None → name_number f ≡ self → result ≡ f }
    {
        let number = self.number;
        NameFields {
            identity: (number & 0x1f_ffff) as u32,
            manufacturer: (number >> 21 & 0x7ff) as u16,
            ecu: (number >> 32 & 7) as u8,
            function_instance: (number >> 35 & 31) as u8,
            function: (number >> 40 & 0xff) as u8,
            reserved: (number >> 48 & 1) as u8,
            system: (number >> 49 & 0x7f) as u8,
            system_instance: (number >> 56 & 15) as u8,
            industry: (number >> 60 & 7) as u8,
            arbitrary: (number >> 63) as u8,
        }
    }

    /// The NAME with this number.
    pub fn from_bits(number: u64) -> Self
        ensures { result ≡ number }
    {
        Name { number }
    }

    /// The number, by which NAMEs are compared.
    pub fn to_bits(self) -> u64
        ensures value { result ≡ self }
        ensures range { self < 2 ^ 64 }
    {
        self.number
    }

    /// The eight bytes that are sent, the least significant first.
    pub fn to_bytes(self) -> [u8; 8]
        ensures { result ≡ name_bytes self }
    {
        self.to_bits().to_le_bytes()
    }

    /// The NAME that was sent in eight bytes, the least significant first.
    pub fn from_bytes(bytes: [u8; 8]) -> Self
        ensures { result ≡ name_of_bytes bytes }
    {
        Name {
            number: u64::from_le_bytes(bytes),
        }
    }

    /// Whether the unit is arbitrary address capable: it may choose another address.
    pub fn is_arbitrary(self) -> bool
        ensures { IsTrue result ↔ (field_in self Arbitrary ≡ 1) }
    {
        self.to_bits() >> 63 == 1
    }
}
