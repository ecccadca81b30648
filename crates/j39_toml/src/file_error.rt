//! Why a file could not be read.
ghost use Rattle.std.specs.Prelude.{◌≡◌};
ghost use Rattle.j39_toml.specs.declared.file_error.FileError.TheVariants.{Memory};

use std::alloc::{AllocError, AllocFailed};

/// Why a file could not be read.
#[derive(Clone, Copy)]
pub enum FileError<F> {
    /// The bytes aren't UTF-8, or they aren't TOML.
    Text,
    /// The first fault of the file.
    Fault(F),
    /// Memory was refused.
    Memory,
}

impl<F> From<AllocError> for FileError<F> {
    ghost from_gives = { λ _ e. e ≡ Memory };

    fn from(_: AllocError) -> FileError<F> {
        FileError::Memory
    }
}

impl<F, T: Drop> From<AllocFailed<T>> for FileError<F> {
    ghost from_gives = { λ _ e. e ≡ Memory };

    fn from(_: AllocFailed<T>) -> FileError<F> {
        FileError::Memory
    }
}
