//! Numbers that are divided, as decimals.
ghost use Rattle.std.specs.Prelude.{◌≡◌, ◌<◌, ◌≤◌, ◌*◌, ◌%◌, ◌/◌, ◌^◌, ◌++◌, OnOk};
ghost use Rattle.j39_signal.specs.Parts.{IsDivisor};
ghost use Rattle.j39_text.specs.Decimals.{last_digits, magnitude_text, most_decimals, quotient_text, without_zeros};

use crate::{TextBuffer, WriteResult};

// No quotient has more decimals.
const MOST_DECIMALS: u32 = 23;

// The decimals of a proper fraction of which something is left.
fn write_decimals(text: &mut TextBuffer, rest: u64, per: u64) -> WriteResult
    requires some { 0 < rest }
    requires proper { rest < per }
    requires most { per ≤ 10000000 }
    requires whole { rest * 10 ^ most_decimals % per ≡ 0 }
    ensures { OnOk result (text.new ≡ text.old
        ++ without_zeros (last_digits most_decimals (rest * 10 ^ most_decimals / per))) }
{
    let mut left = rest;
    for _done in 0..MOST_DECIMALS {
        if left == 0 {
            return Ok(());
        }
        let digit = 10 * left / per;
        text.bytes(&[b'0' + digit as u8])?;
        left = 10 * left % per;
    }
    Ok(())
}

// A number without its sign, divided.
fn write_magnitude(text: &mut TextBuffer, magnitude: u64, per: u64) -> WriteResult
    requires { IsDivisor per }
    ensures { OnOk result (text.new ≡ text.old ++ magnitude_text per magnitude) }
{
    text.number(magnitude / per)?;
    let rest = magnitude % per;
    if rest == 0 {
        return Ok(());
    }
    text.word(".")?;
    write_decimals(text, rest, per)
}

/// Writes a number divided by a product of 2s and 5s, exactly: its sign, its whole part, and, where it isn't whole, a
/// point and its decimals without zeros at their end.
pub fn write_quotient(text: &mut TextBuffer, number: i64, per: u32) -> WriteResult
    requires { IsDivisor per }
    ensures { OnOk result (text.new ≡ text.old ++ quotient_text per number) }
{
    if per == 1 {
        return text.number(number);
    }
    let magnitude = number.unsigned_abs();
    if number < 0 {
        text.word("-")?;
        write_magnitude(text, magnitude, u64::from(per))
    } else {
        write_magnitude(text, magnitude, u64::from(per))
    }
}
