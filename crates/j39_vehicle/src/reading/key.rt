//! Keys of a vehicle file.
ghost use Rattle.std.specs.Prelude.{◌≡◌};

use j39_toml::FileKey;

/// A key of a table.
#[derive(Clone, Copy)]
pub enum Key {
    Version,
    Bus,
    Gateway,
    Forward,
    Need,
    Label,
    Plan,
    Unit,
    Group,
    From,
    At,
    As,
    By,
    To,
    Mode,
    Within,
    Signal,
    Exact,
}

impl Key {
    ghost use Rattle.j39_vehicle.specs.Words.{word_of};

    /// The key as a vehicle file spells it.
    pub fn word(self) -> &'static str
        ensures { result.now ≡ word_of self }
    {
        match self {
            Key::Version => "version",
            Key::Bus => "bus",
            Key::Gateway => "gateway",
            Key::Forward => "forward",
            Key::Need => "need",
            Key::Label => "label",
            Key::Plan => "plan",
            Key::Unit => "unit",
            Key::Group => "group",
            Key::From => "from",
            Key::At => "at",
            Key::As => "as",
            Key::By => "by",
            Key::To => "to",
            Key::Mode => "mode",
            Key::Within => "within",
            Key::Signal => "signal",
            Key::Exact => "exact",
        }
    }
}

impl FileKey for Key {
    ghost use Rattle.j39_vehicle.specs.Words.{word_of};

    ghost word = { word_of };

    fn spelled(self) -> &'static str {
        self.word()
    }
}
