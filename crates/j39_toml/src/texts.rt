//! Labels, and texts of printable characters.
ghost use Rattle.std.specs.Prelude.{◌≡◌};
ghost use Rattle.std.specs.List.{list_all};
ghost use Rattle.j39_id.specs.LabelForm.{is_label_byte, is_label};
ghost use Rattle.j39_toml.specs.Printable.{is_printable};

fn is_label_byte(byte: u8) -> bool
    ensures { result ≡ is_label_byte byte }
{
    matches!(byte, b'A'..=b'Z' | b'a'..=b'z' | b'0'..=b'9' | b'_')
}

fn are_label_bytes(bytes: &[u8]) -> bool
    ensures { result ≡ list_all is_label_byte bytes.now }
{
    bytes.iter().all(|byte| is_label_byte(*byte))
}

/// Whether the text is a label: 1 to 32 ASCII letters, digits and `_`.
pub fn is_label(text: &str) -> bool
    ensures { result ≡ is_label text.now }
{
    1 <= text.len() && text.len() <= 32 && are_label_bytes(text.as_bytes())
}

/// Whether the bytes are printable ASCII characters.
pub fn are_printable(bytes: &[u8]) -> bool
    ensures { result ≡ list_all is_printable bytes.now }
{
    bytes.iter().all(|byte| matches!(*byte, 32..=126))
}
