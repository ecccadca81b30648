//! The tree of a file.
ghost use Rattle.toml.specs.View.{table_view};
ghost use Rattle.j39_toml.specs.FileTrees.{FindsTree};

use crate::FileError;
use std::alloc::Global;
use std::str;

/// The tree of a file: TOML of UTF-8 bytes. Takes no memory of bytes that are no UTF-8, or white space and comments
/// alone.
pub fn read_tree<F: Copy>(alloc: Global, bytes: &[u8]) -> Result<toml::Table, FileError<F>>
    ensures { FindsTree table_view bytes.now result }
{
    let text = match str::from_utf8(bytes) {
        Ok(text) => text,
        Err(_) => return Err(FileError::Text),
    };
    match toml::table_from_str(alloc, text) {
        Ok(members) => Ok(members),
        Err(error) => {
            if error.is_memory() {
                Err(FileError::Memory)
            } else {
                Err(FileError::Text)
            }
        }
    }
}
