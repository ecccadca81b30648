//! A group of a plan.
ghost use Rattle.std.specs.Prelude.{◌≡◌, ◌≢◌, ◌≤◌, false, None, IsTrue, length as count, All, AllPairs};
ghost use Rattle.std.specs.Option.{ForSome};
ghost use Rattle.j39_id.specs.Limits.{message_bytes};
ghost use Rattle.j39_signal.specs.Parts.{IsDivisor, IsSignal};
ghost use Rattle.j39_id.specs.LabelForm.{is_label};
ghost use Rattle.j39_network.specs.PlanLimits.{signal_limit, text_limit};

use super::{Meaning, TextPlan};
use j39_id::Label;
use j39_signal::{Selector, Signal};

/// A parameter group, as it is planned, with at most 64 signals and at most 64 texts, no two of all of
/// these of one label.
#[derive(Drop)]
pub struct GroupPlan {
    /// 1 to 32 ASCII letters, digits and `_`.
    pub label: Label,
    /// The planned group number, which need be no group's.
    pub pgn: u32,
    /// 0 to 7, 0 being the highest.
    pub priority: u8,
    /// The length of the shortest payload in bytes, 1 to 1785.
    pub length: u16,
    /// Whether the number is a maker's own, so that several groups may have it, each from other senders.
    pub private: bool,
    /// The length of the longest payload in bytes, to 1785.
    pub most: u16,
    /// How many bytes each record of the signals that are repeated stands behind the one before, 1 to 255. No signal is
    /// repeated without it.
    pub every: Option<u8>,
    /// Bits by whose number messages of this group are distinguished from those of others of its PGN.
    pub when: Option<Selector>,
    pub signals: Vec<Signal>,
    /// What is said of each signal beside that, in their order.
    pub meanings: Vec<Meaning>,
    pub texts: Vec<TextPlan>,
    pub ghost label_form: { IsTrue (is_label label.bytes) },
    pub ghost priority_range: { priority ≤ 7 },
    pub ghost length_positive: { 1 ≤ length },
    pub ghost length_range: { length ≤ message_bytes },
    pub ghost most_least: { length ≤ most },
    pub ghost most_range: { most ≤ message_bytes },
    pub ghost every_positive: { ForSome every (λ n. 1 ≤ n) },
    pub ghost every_needed: { every ≡ None → All (λ s. s.repeated ≡ false) signals.items },
    pub ghost signal_count: { count signals.items ≤ signal_limit },
    pub ghost signal_forms: { All (λ s. IsTrue (is_label s.label.bytes)) signals.items },
    pub ghost signal_ranges: { All (λ s. IsSignal s.start s.bits s.step s.offset) signals.items },
    pub ghost signal_divisors: { All (λ s. IsDivisor s.per) signals.items },
    pub ghost signal_labels: { AllPairs (λ s t. s.label.bytes ≢ t.label.bytes) signals.items },
    pub ghost meaning_count: { count meanings.items ≡ count signals.items },
    pub ghost text_count: { count texts.items ≤ text_limit },
    pub ghost text_labels: { AllPairs (λ s t. s.label.bytes ≢ t.label.bytes) texts.items },
    pub ghost other_labels: { All (λ t. All (λ s. s.label.bytes ≢ t.label.bytes) signals.items) texts.items },
}
