//! The table of a need.
ghost use Rattle.std.specs.Prelude.{◌≤◌};
ghost use Rattle.std.specs.Option.{ForSome};

use super::NameOnBus;

/// A need, by labels: which unit needs which group of its bus, or which signal of it, from which unit.
#[derive(Drop)]
pub struct NeedTable {
    pub unit: NameOnBus,
    pub group: String,
    pub signal: Option<String>,
    pub from: NameOnBus,
    /// In milliseconds.
    pub within: Option<u16>,
    pub ghost within_positive: { ForSome within (λ n. 1 ≤ n) },
}
