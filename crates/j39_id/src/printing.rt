//! Printing frames.
ghost use Rattle.std.specs.Prelude.{◌≡◌, ◌+◌, ◌*◌, ◌≤◌, ◌++◌, length};
ghost use Rattle.arrayvec.specs.ArrayVec.{array_vec_len};
ghost use Rattle.hex.specs.Hex.{encode_upper};
ghost use Rattle.j39_id.specs.FrameLine.{canon};

use crate::Frame;
use arrayvec::ArrayVec;

const DIGITS: [u8; 16] = *b"0123456789ABCDEF";

// Adds two digits for each byte.
fn push_hex(text: &mut ArrayVec<u8, 25>, bytes: &[u8])
    requires { array_vec_len text.old + 2 * length bytes.now ≤ 25 }
    ensures items { text.new.items ≡ text.old.items ++ encode_upper bytes.now }
    ensures len { array_vec_len text.new ≡ array_vec_len text.old + 2 * length bytes.now }
{
    for byte in bytes {
        text.push(DIGITS[usize::from(*byte >> 4)]);
        text.push(DIGITS[usize::from(*byte & 15)]);
    }
}

/// The canonical text of the frame: eight hex digits, `#` and two hex digits a byte, in capitals.
pub fn print_frame(frame: &Frame) -> ArrayVec<u8, 25>
    ensures { result.items ≡ canon frame.now }
{
    let mut text = ArrayVec::new();
    push_hex(&mut text, &frame.ident.to_bits().to_be_bytes());
    text.push(b'#');
    push_hex(&mut text, frame.payload.as_slice());
    text
}
