//! The groups whose content is each maker's own (SAE J1939-21).
ghost use Rattle.std.specs.Prelude.{◌≡◌};
ghost use Rattle.j39_id.specs.Proprietary.{is_proprietary};

/// Whether the number is that of a group of proprietary A (61184), A2 (126720), B (65280 to 65535) or B2 (130816 to
/// 131071).
pub fn is_proprietary(number: u32) -> bool
    ensures { result ≡ is_proprietary number }
{
    matches!(number, 61_184 | 126_720 | 65_280..=65_535 | 130_816..=131_071)
}
