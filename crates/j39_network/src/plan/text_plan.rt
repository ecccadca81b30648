//! A text of a group of a plan.
ghost use Rattle.std.specs.Prelude.{◌≤◌, IsTrue};
ghost use Rattle.std.specs.Option.{ForSome};
ghost use Rattle.j39_id.specs.Limits.{message_bytes};
ghost use Rattle.j39_id.specs.LabelForm.{is_label};

use j39_id::Label;

/// A text among the bytes of a parameter group, a byte for each of its characters.
#[derive(Clone, Copy)]
pub struct TextPlan {
    /// 1 to 32 ASCII letters, digits and `_`.
    pub label: Label,
    /// The place of its first byte, from 1 to 1785.
    pub byte: u16,
    /// How many bytes it has, 1 to 1785; without a number it goes to the end of the message.
    pub bytes: Option<u16>,
    pub ghost label_form: { IsTrue (is_label label.bytes) },
    pub ghost byte_positive: { 1 ≤ byte },
    pub ghost byte_range: { byte ≤ message_bytes },
    pub ghost bytes_positive: { ForSome bytes (λ n. 1 ≤ n) },
    pub ghost bytes_range: { ForSome bytes (λ n. n ≤ message_bytes) },
}
