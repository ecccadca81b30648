//! The only place of a list that passes a test.
ghost use Rattle.std.specs.Prelude.{◌≡◌};
ghost use Rattle.j39_audit.specs.inside.Singling.{is_somewhere, meant_more, nearest_place, only_more};
ghost use Rattle.j39_audit.specs.declared.only_place.OnlyPlace.TheVariants.{Nowhere};

/// The place from 0 at which a list passes a test, where there is one alone.
#[derive(Clone, Copy)]
pub enum OnlyPlace {
    Nowhere,
    At(usize),
    Several,
}

impl OnlyPlace {
    // With one more place, at which the list passes or doesn't.
    fn with(self, passes: bool, place: usize) -> Self
        ensures { result ≡ only_more passes place self }
    {
        if !passes {
            return self;
        }
        match self {
            OnlyPlace::Nowhere => OnlyPlace::At(place),
            OnlyPlace::At(_first) => OnlyPlace::Several,
            OnlyPlace::Several => OnlyPlace::Several,
        }
    }

    // Whether there is one.
    fn is_somewhere(self) -> bool
        ensures { result ≡ is_somewhere self }
    {
        match self {
            OnlyPlace::Nowhere => false,
            OnlyPlace::At(_place) => true,
            OnlyPlace::Several => true,
        }
    }
}

/// Of all that a message may be meant for, and of those whose receivers may be at its destination.
#[derive(Clone, Copy)]
pub struct Meant {
    pub all: OnlyPlace,
    pub near: OnlyPlace,
}

impl Meant {
    /// For nothing.
    pub fn nothing() -> Self
        ensures { result ≡ record { all = Nowhere; near = Nowhere } }
    {
        Meant {
            all: OnlyPlace::Nowhere,
            near: OnlyPlace::Nowhere,
        }
    }

    /// With one more place, for which it may be meant, and whose receivers may be there.
    pub fn with(self, meant: bool, near: bool, place: usize) -> Self
        ensures { result ≡ meant_more meant near place self }
    {
        Meant {
            all: self.all.with(meant, place),
            near: self.near.with(near, place),
        }
    }

    /// Of the nearest: those whose receivers may be there, or all where none may.
    pub fn nearest(self) -> OnlyPlace
        ensures { result ≡ nearest_place self }
    {
        match self.near {
            OnlyPlace::Nowhere => self.all,
            OnlyPlace::At(place) => OnlyPlace::At(place),
            OnlyPlace::Several => OnlyPlace::Several,
        }
    }

    /// Whether there is one.
    pub fn is_any(self) -> bool
        ensures { result ≡ is_somewhere self.all }
    {
        self.all.is_somewhere()
    }

    /// Whether some receiver may be there.
    pub fn has_near(self) -> bool
        ensures { result ≡ is_somewhere self.near }
    {
        self.near.is_somewhere()
    }
}
