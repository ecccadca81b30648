//! A text that grows, and the one place where numbers, digits and words are written.
ghost use Rattle.std.specs.Prelude.{◌≡◌, ℕ, ◌≤◌, [], ◌∷◌, ◌++◌, codes, length, OnOk};
ghost use Rattle.hex.specs.Hex.{encode_upper};
ghost use Rattle.j39_text.specs.Texts.{field_text, labels_text, numbered_text, place_field, places_text};

use arrayvec::ArrayVec;
use itoa::{Buffer, Integer};
use j39_stream::Verdict;
use std::alloc::{AllocError, Global};
use std::marker::Model;

/// What comes of writing: memory can be refused, and nothing else.
pub type WriteResult = Result<(), AllocError>;

/// A whole text, and the verdict that it gives: memory can be refused, and nothing else.
pub type ReportResult = Result<(TextBuffer, Verdict), AllocError>;

const DIGITS: [u8; 16] = *b"0123456789ABCDEF";

/// A text that grows.
#[derive(Drop)]
pub struct TextBuffer {
    bytes: Vec<u8>,
}

impl Model for TextBuffer {
    ghost use Rattle.std.specs.Prelude.{ℕ, List};

    ghost Value = { List ℕ };

    ghost view = { λ text. text.bytes.items };
}

// Two capital digits for each of at most eight bytes.
#[inline(always)]
fn digits_of(bytes: &[u8]) -> ArrayVec<u8, 16>
    requires { length bytes.now ≤ 8 }
    ensures { result.items ≡ encode_upper bytes.now }
{
    let mut digits = ArrayVec::new();
    for byte in bytes {
        digits.push(DIGITS[usize::from(*byte >> 4)]);
        digits.push(DIGITS[usize::from(*byte & 15)]);
    }
    digits
}

impl TextBuffer {
    pub fn new(alloc: Global) -> Self
        ensures { result ≡ [] }
    {
        TextBuffer {
            bytes: Vec::new(alloc),
        }
    }

    pub fn as_slice(&self) -> &[u8]
        ensures { result.now ≡ self.now }
    {
        self.bytes.as_slice()
    }

    pub fn len(&self) -> usize
        ensures { result ≡ length self.now }
    {
        self.bytes.len()
    }

    /// Drops the text, and keeps its room for the next one.
    pub fn clear(&mut self)
        ensures { self.new ≡ [] }
    {
        self.bytes.clear();
    }

    pub fn bytes(&mut self, bytes: &[u8]) -> WriteResult
        ensures { OnOk result (self.new ≡ self.old ++ bytes.now) }
    {
        self.bytes.extend_from_slice(bytes)
    }

    pub fn word(&mut self, word: &str) -> WriteResult
        ensures { OnOk result (self.new ≡ self.old ++ word.now) }
    {
        self.bytes(word.as_bytes())
    }

    /// Adds the decimal digits of a number.
    pub fn number<I: Integer>(&mut self, number: I) -> WriteResult
        ensures { OnOk result (self.new ≡ self.old ++ I.text number) }
    {
        let mut buffer = Buffer::new();
        self.word(buffer.format(number))
    }

    /// Adds a word and the decimal digits of a number.
    #[tactic(auto, unfolding(crate::specs::Texts::field_text))]
    #[inline]
    pub fn field<I: Integer>(&mut self, word: &str, number: I) -> WriteResult
        ensures { OnOk result (self.new ≡ self.old ++ field_text word.now (I.text number)) }
    {
        self.word(word)?;
        self.number(number)
    }

    /// Adds a word and a place, which is counted from 0 and written as counted from 1.
    pub fn place(&mut self, word: &str, place: usize) -> WriteResult
        ensures { OnOk result (self.new ≡ self.old ++ place_field word.now place) }
    {
        self.field(word, place as u128 + 1)
    }

    /// Adds a word and two places, with a space between them.
    #[tactic(auto, unfolding(crate::specs::Texts::places_text))]
    pub fn places(&mut self, word: &str, first: usize, second: usize) -> WriteResult
        ensures { OnOk result (self.new ≡ self.old ++ places_text word.now first second) }
    {
        self.place(word, first)?;
        self.place(" ", second)
    }

    /// Adds a space and a label.
    pub fn label(&mut self, label: &str) -> WriteResult
        ensures { OnOk result (self.new ≡ self.old ++ (codes " " ++ label.now)) }
    {
        self.word(" ")?;
        self.word(label)
    }

    /// Adds a word and two labels, with a space between them.
    #[tactic(auto, unfolding(crate::specs::Texts::labels_text))]
    pub fn labels(&mut self, word: &str, first: &str, second: &str) -> WriteResult
        ensures { OnOk result (self.new ≡ self.old ++ labels_text word.now first.now second.now) }
    {
        self.word(word)?;
        self.word(first)?;
        self.label(second)
    }

    /// Adds a word, a label and a number, with a space between these two.
    #[tactic(auto, unfolding(crate::specs::Texts::numbered_text))]
    pub fn numbered<I: Integer>(&mut self, word: &str, label: &str, number: I) -> WriteResult
        ensures { OnOk result (self.new ≡ self.old ++ numbered_text word.now label.now (I.text number)) }
    {
        self.word(word)?;
        self.word(label)?;
        self.field(" ", number)
    }

    /// Adds two capital digits for each byte.
    #[inline(always)]
    pub fn hex(&mut self, bytes: &[u8]) -> WriteResult
        ensures { OnOk result (self.new ≡ self.old ++ encode_upper bytes.now) }
    {
        let mut rest = bytes;
        while rest.len() > 8 {
            self.bytes(digits_of(&rest[..8]).as_slice())?;
            rest = &rest[8..];
        }
        self.bytes(digits_of(rest).as_slice())
    }

    pub fn end_line(&mut self) -> WriteResult
        ensures { OnOk result (self.new ≡ self.old ++ 10 ∷ []) }
    {
        self.bytes.push(b'\n')?;
        Ok(())
    }
}
