//! Reading frame lines.
ghost use Rattle.std.specs.Prelude.{◌≡◌, ◌==◌, ◌&&◌, ◌≤◌, ◌↔◌, length};
ghost use Rattle.std.specs.Prelude.{Some, None, Ok, IsOk, IsSome, IfSome, IfNone, IfOk, IfErr, IsTrue};
ghost use Rattle.std.specs.List.{AllPass, list_all, position};
ghost use Rattle.hex.specs.Hex.{decode_of, is_hex_digit};
ghost use Rattle.j39_id.specs.Ident.{bits};
ghost use Rattle.j39_id.specs.FrameLine.{HasLineFault, IsFirstFault, Spells, WordSpells, identifier_in, is_hash};
ghost use Rattle.j39_id.specs.FrameLine.{payload_digits};
ghost use Rattle.j39_id.specs.Limits.{frame_bytes};
ghost use Rattle.j39_id.specs.inside.LineEnd.{MayBeginAt};

use crate::hex_digits::decode_digits;
use crate::last_word::{is_separator, split_last};
use crate::limits::FRAME_BYTES;
use crate::{Frame, Ident, LineError};
use arrayvec::ArrayVec;

// The identifier that eight digits spell.
#[inline(always)]
fn read_ident(digits: &[u8]) -> Option<Ident>
    ensures found { IfSome result (λ ident. identifier_in digits.now ≡ Some (bits ident)) }
    ensures none { IfNone result (identifier_in digits.now ≡ None) }
{
    let mut bytes = [0; 4];
    decode_digits(digits, &mut bytes).ok()?;
    Ident::from_bits(u32::from_be_bytes(bytes))
}

// The bytes of a full frame, which pairs of digits spell.
#[inline(always)]
fn read_full(text: &[u8]) -> Option<[u8; FRAME_BYTES]>
    requires { length text.now ≡ payload_digits }
    ensures found { IfSome result (λ bytes. decode_of text.now ≡ Ok bytes) }
    ensures only { IsSome result ↔ IsOk (decode_of text.now) }
{
    let mut bytes = [0; FRAME_BYTES];
    decode_digits(text, &mut bytes).ok()?;
    Some(bytes)
}

// The bytes that pairs of digits spell.
#[inline(always)]
fn read_payload(text: &[u8]) -> Option<ArrayVec<u8, FRAME_BYTES>>
    requires { length text.now ≤ payload_digits }
    ensures found { IfSome result (λ payload. decode_of text.now ≡ Ok payload.items) }
    ensures only { IsSome result ↔ IsOk (decode_of text.now) }
{
    if text.len() == 2 * FRAME_BYTES {
        return Some(ArrayVec::from(read_full(text)?));
    }
    let mut bytes = [0; FRAME_BYTES];
    let count = text.len() / 2;
    decode_digits(text, &mut bytes[..count]).ok()?;
    let mut payload = ArrayVec::from(bytes);
    payload.truncate(count);
    Some(payload)
}

// Where the first hash stands.
fn first_hash(word: &[u8]) -> Option<usize>
    ensures { result ≡ position is_hash word.now }
{
    word.iter().position(|b| *b == b'#')
}

// Whether all of these are hex digits.
fn are_digits(text: &[u8]) -> bool
    ensures { IsTrue result ↔ AllPass is_hex_digit text.now }
{
    text.iter()
        .all(|b| matches!(*b, b'0'..=b'9' | b'A'..=b'F' | b'a'..=b'f'))
}

// Whether these are the three digits of an 11-bit identifier.
fn is_short(digits: &[u8]) -> bool
    ensures { result ≡ (length digits.now == 3 && list_all is_hex_digit digits.now) }
{
    digits.len() == 3 && are_digits(digits)
}

// The frame that a word spells.
#[inline(always)]
fn read_word(word: &[u8]) -> Result<Frame, LineError>
    ensures found { IfOk result (λ f. WordSpells word.now (bits f.ident) f.payload.items) }
    ensures refused { IfErr result (λ e. IsFirstFault word.now e) }
{
    let Some(hash) = first_hash(word) else {
        return Err(LineError::NoHash);
    };
    let digits = &word[..hash];
    let rest = &word[hash + 1..];
    if is_short(digits) {
        return Err(LineError::ShortIdent);
    }
    let Some(ident) = read_ident(digits) else {
        return Err(LineError::BadIdent);
    };
    if rest.len() > 2 * FRAME_BYTES {
        return Err(LineError::TooLong);
    }
    let Some(payload) = read_payload(rest) else {
        return Err(LineError::BadData);
    };
    Ok(Frame { ident, payload })
}

// Where the last word of a line begins, if it has the length and the hash of a frame of so many bytes.
#[inline(always)]
fn start_before(line: &[u8], bytes: usize) -> Option<usize>
    requires { bytes ≤ frame_bytes }
    ensures { IfSome result (MayBeginAt line.now) }
{
    let length = 9 + 2 * bytes;
    if line.len() < length || line[line.len() - length + 8] != b'#' {
        return None;
    }
    let start = line.len() - length;
    if start > 0 && !is_separator(line[start - 1]) {
        return None;
    }
    Some(start)
}

// Where the last word of a line begins, if it has the length and the hash of a frame.
#[inline(always)]
fn likely_start(line: &[u8]) -> Option<usize>
    ensures { IfSome result (MayBeginAt line.now) }
{
    let mut bytes = FRAME_BYTES;
    loop {
        if let Some(start) = start_before(line, bytes) {
            return Some(start);
        }
        if bytes == 0 {
            return None;
        }
        bytes -= 1;
    }
}

// The frame that the last word of a line spells.
#[inline(always)]
fn read_last_word(line: &[u8]) -> Result<Frame, LineError>
    ensures found { IfOk result (λ f. Spells line.now f) }
    ensures refused { IfErr result (λ e. HasLineFault line.now e) }
{
    let Some((_front, word)) = split_last(line) else {
        return Err(LineError::Empty);
    };
    read_word(word)
}

/// The frame that the last word of a line spells, as `candump -L` writes it: eight hex digits, `#` and two hex digits a
/// byte, in either case. Words are parted by spaces, tabs and carriage returns, and those before the last may be any
/// bytes.
///
/// A line that spells no frame is refused with the first `LineError` that holds.
#[inline(always)]
pub fn read_frame(line: &[u8]) -> Result<Frame, LineError>
    ensures found { IfOk result (λ f. Spells line.now f) }
    ensures refused { IfErr result (λ e. HasLineFault line.now e) }

    // A line that spells a frame is read as that frame.
    ensures only { (f : Frame) → Spells line.now f → result ≡ Ok f }
{
    if let Some(start) = likely_start(line)
        && let Some(ident) = read_ident(&line[start..start + 8])
        && let Some(payload) = read_payload(&line[start + 9..])
    {
        return Ok(Frame { ident, payload });
    }
    read_last_word(line)
}
