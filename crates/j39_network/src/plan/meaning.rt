//! What a plan says of a signal beside its place and its scale.
ghost use Rattle.std.specs.Prelude.{◌≤◌, IsTrue, length as count};
ghost use Rattle.std.specs.Option.{ForSome};
ghost use Rattle.j39_id.specs.LabelForm.{is_label};
ghost use Rattle.j39_network.specs.PlanLimits.{spn_most, value_limit};

use j39_id::Label;

/// The name of a raw number of a signal.
#[derive(Clone, Copy)]
pub struct ValueName {
    /// The number as the bits have it, also of a signed signal.
    pub raw: u32,
    /// 1 to 32 ASCII letters, digits and `_`.
    pub name: Label,
    pub ghost name_form: { IsTrue (is_label name.bytes) },
}

/// The number of a signal, and the names of its raw numbers, of which it has at most 256.
#[derive(Drop)]
pub struct Meaning {
    /// Its number of SAE J1939 (SPN), 0 to 524287.
    pub spn: Option<u32>,
    /// No two of them are of one raw number; two may have one name.
    pub values: Vec<ValueName>,
    pub ghost spn_range: { ForSome spn (λ n. n ≤ spn_most) },
    pub ghost value_count: { count values.items ≤ value_limit },
}
