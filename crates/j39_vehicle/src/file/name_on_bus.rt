//! Names on buses.
ghost use Rattle.std.specs.Prelude.{◌≡◌, string_bytes, Some};
ghost use Rattle.j39_vehicle.specs.TextKinds.{name_of};

/// The part of a text before its first point: the whole, where there is none.
pub fn before_point(text: &str) -> &str
    ensures { result.now ≡ (name_of text.now).bus }
{
    match text.split_once('.') {
        Some((bus, _)) => bus,
        None => text,
    }
}

/// The part of a text behind its first point: nothing, where there is none.
pub fn behind_point(text: &str) -> &str
    ensures { result.now ≡ (name_of text.now).label }
{
    match text.split_once('.') {
        Some((_, label)) => label,
        None => "",
    }
}

/// A name on a bus, `X.Y`: the label of the bus, and that of a unit or a group of its plan.
#[derive(Drop)]
pub struct NameOnBus {
    pub text: String,
}

impl NameOnBus {
    /// The label of the bus.
    pub fn bus(&self) -> &str
        ensures { result.now ≡ (name_of (string_bytes self.now.text)).bus }
    {
        before_point(self.text.as_str())
    }

    /// The label of what stands on it.
    pub fn label(&self) -> &str
        ensures { result.now ≡ (name_of (string_bytes self.now.text)).label }
    {
        behind_point(self.text.as_str())
    }
}
