//! Files by their names.
ghost use Rattle.std.specs.Prelude.{ℕ, List, Option, IfOk, OnErr};
ghost use Rattle.j39_app.specs.Known.{AreLeft};

use crate::{Failed, FromRead, Source};
use std::fs;
use std::rt::Files;

/// Where files are opened by their names.
pub trait Folder {
    /// A file that is open.
    type File: Source + Drop;

    /// The bytes of the file of a name, where they are known.
    ghost bytes_of: { Self → List ℕ → Option (List ℕ) };

    /// The file of a name can't be opened.
    ghost stays_shut: { Self → List ℕ → Type 0 };

    /// Opens the file of a name, to be read from its first byte on.
    fn open(&self, name: &str) -> Result<Self::File, Failed>
        ensures opened { IfOk result (λ file. AreLeft (bytes_of self.now name.now) (Self.File.state file).left) }
        ensures shut { OnErr result (stays_shut self.now name.now) };
}

/// The files of the operating system, of which nothing is known.
#[derive(Drop)]
pub struct SystemFiles<'a, R> {
    rt: &'a R,
}

impl<'a, R> SystemFiles<'a, R> {
    pub fn new(rt: &'a R) -> Self {
        SystemFiles { rt }
    }
}

impl<R: Files> Folder for SystemFiles<'_, R> {
    type File = FromRead<R::File>;

    ghost use Rattle.std.specs.Prelude.{None};

    ghost bytes_of = { λ _ _. None };

    ghost stays_shut = { λ _ _. Unit {0} };

    fn open(&self, name: &str) -> Result<FromRead<R::File>, Failed> {
        match fs::open(self.rt, name) {
            Ok(file) => Ok(FromRead::new(file)),
            Err(_) => Err(Failed),
        }
    }
}
