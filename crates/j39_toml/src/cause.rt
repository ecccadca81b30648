//! Causes of a refusal.
ghost use Rattle.std.specs.Prelude.{◌≡◌};

/// What is wrong at a place of a file.
#[derive(Clone, Copy)]
pub enum Cause {
    /// A table has a key that isn't listed for it.
    UnknownKey,
    /// A required key is absent.
    Missing,
    /// A value is of another type.
    WrongType,
    /// A value is out of its range, or a text is none of those that the key takes.
    Range,
    /// An array has more elements than are allowed.
    TooMany,
    /// A label is that of an earlier table, or an element of an array is one of those before it.
    Repeated,
    /// A text names nothing of what it may name.
    UnknownLabel,
}

impl Cause {
    ghost use Rattle.j39_toml.specs.CauseWords.{cause_word};

    /// The word that names the cause.
    pub fn word(self) -> &'static str
        ensures { result.now ≡ cause_word self }
    {
        match self {
            Cause::UnknownKey => "UnknownKey",
            Cause::Missing => "Missing",
            Cause::WrongType => "WrongType",
            Cause::Range => "Range",
            Cause::TooMany => "TooMany",
            Cause::Repeated => "Repeated",
            Cause::UnknownLabel => "UnknownLabel",
        }
    }
}
