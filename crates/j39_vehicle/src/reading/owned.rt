//! Texts that outlive the file that they stand in.
ghost use Rattle.std.specs.Prelude.{◌≡◌, IfOk, IfErr, option_map, string_bytes};
ghost use Rattle.j39_toml.specs.declared.file_error.FileError.TheVariants.{Memory};

use super::VehicleError;
use crate::file::NameOnBus;
use std::alloc::Global;

/// The text, in memory of its own.
pub fn owned(alloc: Global, text: &str) -> Result<String, VehicleError>
    ensures same { IfOk result (λ s. string_bytes s ≡ text.now) }
    ensures memory { IfErr result (λ e. e ≡ Memory) }
{
    Ok(String::from_str(alloc, text)?)
}

/// The text, in memory of its own, where there is one.
pub fn optional_owned(alloc: Global, text: Option<&str>) -> Result<Option<String>, VehicleError>
    ensures same { IfOk result (λ s. option_map string_bytes s ≡ option_map (λ t. t.now) text.entry) }
    ensures memory { IfErr result (λ e. e ≡ Memory) }
{
    match text {
        None => Ok(None),
        Some(text) => Ok(Some(owned(alloc, text)?)),
    }
}

/// The name on a bus that a text is.
pub fn name(alloc: Global, text: &str) -> Result<NameOnBus, VehicleError>
    ensures same { IfOk result (λ n. string_bytes n.text ≡ text.now) }
    ensures memory { IfErr result (λ e. e ≡ Memory) }
{
    Ok(NameOnBus {
        text: owned(alloc, text)?,
    })
}
