//! How much is asked of a flow: a sum of fractions, with its numerator and its denominator of any length.
ghost use Rattle.std.specs.Prelude.{◌≡◌, ◌≤◌, ◌<◌, ◌+◌, ◌*◌, ◌^◌, nat_lt, false};
ghost use Rattle.j39_load.specs.inside.AskedShares.{digit_base, digit_limit, first_digits, less_with};

use j39_network::limits::REQUEST_LIMIT;

/// So many digits have room for what all requests of a plan ask.
const DIGIT_LIMIT: usize = REQUEST_LIMIT + 1;

/// Two numbers of so many digits of base 65,536, from the least on: the parts that are asked of a flow, and how many
/// make a whole.
#[derive(Clone, Copy)]
pub(crate) struct AskedShare {
    asked: [u16; DIGIT_LIMIT],
    whole: [u16; DIGIT_LIMIT],
    count: usize,
}

// Makes of the first digits of a number so many times their number and so many times another one. Answers what goes on
// to further digits.
fn combine(
    number: &mut [u16; DIGIT_LIMIT],
    times: u16,
    other: &[u16; DIGIT_LIMIT],
    other_times: u16,
    count: usize,
) -> u64
    requires { count ≤ digit_limit }
    ensures sum { first_digits number.new count + digit_base ^ count * result
        ≡ times * first_digits number.old count + other_times * first_digits other.now count }
    ensures small { first_digits number.new count < digit_base ^ count }
    ensures over { result ≤ times + other_times }
{
    let mut over = 0;
    for place in 0..count {
        let sum = u64::from(times) * u64::from(number[place])
            + u64::from(other_times) * u64::from(other[place])
            + over;
        number[place] = (sum % 65_536) as u16;
        over = sum / 65_536;
    }
    over
}

// The same of one digit more, where its first digits make less or don't.
fn is_less_with(less: bool, one: u64, other: u64) -> bool
    ensures { result ≡ less_with less one other }
{
    if one < other {
        true
    } else if other < one {
        false
    } else {
        less
    }
}

// Whether the first digits of a number make less than those of another one.
fn is_less(number: &[u16; DIGIT_LIMIT], other: &[u16; DIGIT_LIMIT], count: usize) -> bool
    requires { count ≤ digit_limit }
    ensures { result ≡ nat_lt (first_digits number.now count) (first_digits other.now count) }
{
    let mut less = false;
    for place in 0..count {
        less = is_less_with(less, u64::from(number[place]), u64::from(other[place]));
    }
    less
}

impl AskedShare {
    ghost use Rattle.std.specs.Prelude.{[], ℕ};
    ghost use Rattle.j39_load.specs.inside.AskedShares.{IsShareOf, parts_asked_in, whole_in};

    /// Nothing is asked.
    pub(crate) fn none() -> Self
        ensures share { (period : ℕ) → IsShareOf period [] result }
        ensures count { result.count ≡ 1 }
    {
        let mut whole = [0; DIGIT_LIMIT];
        whole[0] = 1;
        AskedShare {
            asked: [0; DIGIT_LIMIT],
            whole,
            count: 1,
        }
    }

    /// Adds what a request asks each so many milliseconds, of a flow of this period. Answers whether more is asked than
    /// a whole; if so, it is of no further use.
    pub(crate) fn add(&mut self, period: u16, every: u16) -> bool
        requires { self.old.count < digit_limit }
        ensures more { result ≡ nat_lt (every * whole_in self.old)
            (period * whole_in self.old + every * parts_asked_in self.old) }
        ensures asked { result ≡ false → parts_asked_in self.new
            ≡ period * whole_in self.old + every * parts_asked_in self.old }
        ensures whole { result ≡ false → whole_in self.new ≡ every * whole_in self.old }
        ensures count { result ≡ false → self.new.count ≡ self.old.count + 1 }
    {
        let count = self.count;
        let asked = combine(&mut self.asked, every, &self.whole, period, count);
        let whole = combine(&mut self.whole, every, &self.asked, 0, count);
        if is_less_with(is_less(&self.whole, &self.asked, count), whole, asked) {
            return true;
        }
        self.asked[count] = asked as u16;
        self.whole[count] = whole as u16;
        self.count = count + 1;
        false
    }
}
