//! The versions of plan files.
ghost use Rattle.std.specs.Prelude.{◌≡◌};
ghost use Rattle.j39_plan.specs.Since.{is_known};

/// What a plan file may be written in, the oldest first.
#[derive(Clone, Copy, PartialEq, Eq)]
pub enum Version {
    First,
    Second,
    Third,
    Fourth,
}

impl Version {
    /// Whether it knows what is known since that version.
    pub fn knows(self, since: Version) -> bool
        ensures { result ≡ is_known since self }
    {
        match since {
            Version::First => true,
            Version::Second => self != Version::First,
            Version::Third => self == Version::Third || self == Version::Fourth,
            Version::Fourth => self == Version::Fourth,
        }
    }
}
