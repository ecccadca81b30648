//! Reading hex digits, at the speed that a log wants: the `hex` crate's branches on each digit cost as much as all else
//! of a line.
ghost use Rattle.std.specs.Prelude.{◌≡◌, ◌+◌, ◌^◌, ◌<◌, length, MatchResult};
ghost use Rattle.hex.specs.Hex.{decode_sized, pair_value, value_at};

use hex::FromHexError;

// No digit.
const X: u8 = 255;

// The value of each byte as a digit, in either case.
const VALUES: [u8; 256] = [
    X, X, X, X, X, X, X, X, X, X, X, X, X, X, X, X, X, X, X, X, X, X, X, X, X, X, X, X, X, X, X, X,
    X, X, X, X, X, X, X, X, X, X, X, X, X, X, X, X, 0, 1, 2, 3, 4, 5, 6, 7, 8, 9, X, X, X, X, X, X,
    X, 10, 11, 12, 13, 14, 15, X, X, X, X, X, X, X, X, X, X, X, X, X, X, X, X, X, X, X, X, X, X, X,
    X, X, X, 10, 11, 12, 13, 14, 15, X, X, X, X, X, X, X, X, X, X, X, X, X, X, X, X, X, X, X, X, X,
    X, X, X, X, X, X, X, X, X, X, X, X, X, X, X, X, X, X, X, X, X, X, X, X, X, X, X, X, X, X, X, X,
    X, X, X, X, X, X, X, X, X, X, X, X, X, X, X, X, X, X, X, X, X, X, X, X, X, X, X, X, X, X, X, X,
    X, X, X, X, X, X, X, X, X, X, X, X, X, X, X, X, X, X, X, X, X, X, X, X, X, X, X, X, X, X, X, X,
    X, X, X, X, X, X, X, X, X, X, X, X, X, X, X, X, X, X, X, X, X, X, X, X, X, X, X, X, X, X, X, X,
    X, X, X, X,
];

// The value of the digit at index `at`.
fn value_of(digit: u8, at: usize) -> Result<u8, FromHexError>
    ensures { result ≡ value_at digit at }
{
    let value = VALUES[usize::from(digit)];
    if value == X {
        return Err(FromHexError::InvalidHexCharacter {
            c: char::from(digit),
            index: at,
        });
    }
    Ok(value)
}

// The byte of two digits, the first of them at index `at`.
fn byte_of(high: u8, low: u8, at: usize) -> Result<u8, FromHexError>
    requires { at + 1 < 2 ^ 64 }
    ensures { result ≡ pair_value high low at }
{
    Ok(value_of(high, at)? * 16 + value_of(low, at + 1)?)
}

/// Reads two digits for each byte, as `hex::decode_to_slice` does.
pub(crate) fn decode_digits(text: &[u8], bytes: &mut [u8]) -> Result<(), FromHexError>
    ensures { MatchResult (decode_sized text.now (length bytes.old))
        (λ all. (result ≡ Ok tt) × (bytes.new ≡ all))
        (λ e. result ≡ Err e) }
{
    if text.len() % 2 != 0 {
        return Err(FromHexError::OddLength);
    }
    if text.len() / 2 != bytes.len() {
        return Err(FromHexError::InvalidStringLength);
    }
    'bytes: for i in 0..bytes.len() {
        bytes[i] = byte_of(text[2 * i], text[2 * i + 1], 2 * i)?;
    }
    Ok(())
}
