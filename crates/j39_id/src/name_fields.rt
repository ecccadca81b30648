//! The ten fields of a NAME and their ranges.
ghost use Rattle.std.specs.Prelude.{◌≡◌};
ghost use Rattle.j39_id.specs.Name.{first_out};

use thiserror::Error;

/// The fields of a NAME (SAE J1939-81), from the lowest bit up.
///
/// `identity` has 21 bits, `manufacturer` 11, `ecu` 3, `function_instance` 5, `function` 8, `reserved` 1, `system` 7,
/// `system_instance` 4, `industry` 3 and `arbitrary` 1. A value above that range makes no NAME.
#[derive(Clone, Copy)]
pub struct NameFields {
    pub identity: u32,
    pub manufacturer: u16,
    pub ecu: u8,
    pub function_instance: u8,
    pub function: u8,
    pub reserved: u8,
    pub system: u8,
    pub system_instance: u8,
    pub industry: u8,
    pub arbitrary: u8,
}

/// A field of a NAME.
#[derive(Clone, Copy, Debug)]
pub enum NameField {
    Identity,
    Manufacturer,
    Ecu,
    FunctionInstance,
    Function,
    Reserved,
    System,
    SystemInstance,
    Industry,
    Arbitrary,
}

/// Why fields make no NAME.
#[derive(Clone, Copy, Debug, Error)]
pub enum NameError {
    /// The first field that is out of its range.
    #[error("{0:?} is out of range")]
    FieldRange(NameField),
}

// The first field that is out of its range.
pub(crate) fn first_out_of_range(fields: NameFields) -> Option<NameField>
    ensures { result ≡ first_out fields }
{
    if fields.identity > 0x1f_ffff {
        Some(NameField::Identity)
    } else if fields.manufacturer > 0x7ff {
        Some(NameField::Manufacturer)
    } else if fields.ecu > 7 {
        Some(NameField::Ecu)
    } else if fields.function_instance > 31 {
        Some(NameField::FunctionInstance)
    } else if fields.reserved > 1 {
        Some(NameField::Reserved)
    } else if fields.system > 0x7f {
        Some(NameField::System)
    } else if fields.system_instance > 15 {
        Some(NameField::SystemInstance)
    } else if fields.industry > 7 {
        Some(NameField::Industry)
    } else if fields.arbitrary > 1 {
        Some(NameField::Arbitrary)
    } else {
        None
    }
}
