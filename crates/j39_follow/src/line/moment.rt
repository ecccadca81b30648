//! The time of a line as a number.
ghost use Rattle.std.specs.Prelude.{◌≡◌, ◌==◌, ◌+◌, ◌<◌, ◌≤◌, ◌^◌, ◌++◌, true, codes, length, slice_index_or, take};
ghost use Rattle.std.specs.Char.{is_ascii_digit};
ghost use Rattle.std.specs.List.{list_all, position};
ghost use Rattle.std.specs.Str.Parse.{digits_value};
ghost use Rattle.j39_follow.specs.LogLines.{are_decimals as have_decimals, are_seconds as have_seconds};
ghost use Rattle.j39_follow.specs.LogLines.{microseconds as many_microseconds, moment_of, time_with_point};

use crate::line::words::WHOLE_TIME;

// The most digits of whole seconds.
const MOST_SECONDS: usize = 12;

const MICROSECONDS: u64 = 1_000_000;

// The place of the point in a time as `candump -L` writes it.
const USUAL_POINT: usize = 10;

fn is_digit(byte: u8) -> bool
    ensures { result ≡ is_ascii_digit byte }
{
    matches!(byte, b'0'..=b'9')
}

#[inline(always)]
fn are_digits(text: &[u8]) -> bool
    ensures { result ≡ list_all is_ascii_digit text.now }
{
    text.iter().all(|byte| is_digit(*byte))
}

// Whether these are whole seconds.
#[inline(always)]
fn are_seconds(digits: &[u8]) -> bool
    ensures { result ≡ have_seconds digits.now }
{
    !digits.is_empty() && digits.len() <= MOST_SECONDS && are_digits(digits)
}

// Whether these are decimals.
#[inline(always)]
fn are_decimals(digits: &[u8]) -> bool
    ensures { result ≡ have_decimals digits.now }
{
    !digits.is_empty() && are_digits(digits)
}

// The number of at most 12 digits.
#[inline(always)]
fn number_of(digits: &[u8]) -> u64
    requires digits { list_all is_ascii_digit digits.now ≡ true }
    requires few { length digits.now ≤ 12 }
    ensures value { result ≡ digits_value 10 digits.now }
    ensures room { result < 10 ^ 12 }
{
    let mut number = 0;
    for digit in digits {
        number = number * 10 + u64::from(*digit - b'0');
    }
    number
}

// The decimal at a place, 0 where there is none.
fn decimal(decimals: &[u8], place: usize) -> u8
    ensures { result ≡ slice_index_or decimals.now place 48 }
{
    if place < decimals.len() {
        decimals[place]
    } else {
        b'0'
    }
}

// The first six decimals.
#[inline(always)]
fn six_decimals(decimals: &[u8]) -> [u8; 6]
    ensures { result ≡ take 6 (decimals.now ++ codes "000000") }
{
    [
        decimal(decimals, 0),
        decimal(decimals, 1),
        decimal(decimals, 2),
        decimal(decimals, 3),
        decimal(decimals, 4),
        decimal(decimals, 5),
    ]
}

#[inline(always)]
fn microseconds(whole: &[u8], decimals: &[u8]) -> u64
    requires whole { have_seconds whole.now ≡ true }
    requires decimals { list_all is_ascii_digit decimals.now ≡ true }
    ensures { result ≡ many_microseconds whole.now decimals.now }
{
    let seconds = number_of(whole);
    let six = six_decimals(decimals);
    let rest = number_of(&six);
    seconds * MICROSECONDS + rest
}

fn time_of_whole(digits: &[u8]) -> Option<u64>
    ensures { result ≡ time_with_point digits.now None }
{
    if are_seconds(digits) {
        Some(microseconds(digits, &[]))
    } else {
        None
    }
}

// The time of digits of which a point stands at this place.
#[inline(always)]
fn time_of_parts(digits: &[u8], point: usize) -> Option<u64>
    requires { point < length digits.now }
    ensures { result ≡ time_with_point digits.now (Some point) }
{
    let whole = &digits[..point];
    let decimals = &digits[point + 1..];
    if are_seconds(whole) && are_decimals(decimals) {
        Some(microseconds(whole, decimals))
    } else {
        None
    }
}

// The place of the first point.
fn point_of(digits: &[u8]) -> Option<usize>
    ensures { result ≡ position (λ c. c == 46) digits.now }
{
    digits.iter().position(|byte| *byte == b'.')
}

// Whether a point stands behind ten digits, and six bytes behind it, as in the times that most loggers write.
#[inline(always)]
fn has_usual_point(digits: &[u8]) -> bool
    ensures size { result ≡ true → length digits.now ≡ 17 }
    ensures point { result ≡ true → position (λ c. c == 46) digits.now ≡ Some 10 }
{
    if digits.len() != WHOLE_TIME {
        return false;
    }
    if digits[USUAL_POINT] != b'.' {
        return false;
    }
    are_digits(&digits[..USUAL_POINT])
}

fn time_of(digits: &[u8]) -> Option<u64>
    ensures { result ≡ time_with_point digits.now (position (λ c. c == 46) digits.now) }
{
    if has_usual_point(digits) {
        return time_of_parts(digits, USUAL_POINT);
    }
    match point_of(digits) {
        Some(point) => time_of_parts(digits, point),
        None => time_of_whole(digits),
    }
}

/// The time of a line in microseconds, by what is printed of it, if it is a number of seconds.
#[tactic(auto, unfolding(crate::specs::LogLines::moment_of))]
pub fn moment(time: &[u8]) -> Option<u64>
    ensures { result ≡ moment_of time.now }
{
    if time.len() < 2 {
        return None;
    }
    time_of(&time[1..time.len() - 1])
}
