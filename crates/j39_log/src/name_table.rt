//! Names by their numbers.
ghost use Rattle.std.specs.Prelude.{◌≡◌, None, OnOk, option_map};
ghost use Rattle.j39_log.specs.inside.NameTables.{names_in, with_name};

use j39_text::TextBuffer;
use std::alloc::{AllocError, Global};
use std::collections::HashMap;

/// The names of some numbers, each found without a look at the others.
#[derive(Drop)]
pub(crate) struct NameTable {
    names: HashMap<u32, TextBuffer>,
}

impl NameTable {
    pub fn new(alloc: Global) -> Self
        ensures { names_in result ≡ (λ _. None) }
    {
        NameTable {
            names: HashMap::new(alloc),
        }
    }

    /// Names a number that has no name yet.
    pub fn add(&mut self, number: u32, name: TextBuffer) -> Result<(), AllocError>
        ensures { OnOk result (names_in self.new ≡ with_name (names_in self.old) number name) }
    {
        if self.names.contains_key(&number) {
            return Ok(());
        }
        match self.names.insert(number, name) {
            Ok(_) => Ok(()),
            Err(_) => Err(AllocError),
        }
    }

    /// The name of a number.
    pub fn get(&self, number: u32) -> Option<&TextBuffer>
        ensures { option_map (λ name. name.now) result ≡ names_in self.now number }
    {
        self.names.get(&number)
    }
}
