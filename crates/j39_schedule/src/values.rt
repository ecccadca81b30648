//! The values behind the word of an order.
ghost use Rattle.j39_schedule.specs.Schedule.{words_of};
ghost use Rattle.j39_schedule.specs.inside.WordValues.{AreValues};

use crate::line_words::next_word;

/// The values behind the word of an order, which takes two at most.
#[derive(Clone, Copy)]
pub enum Values<'a> {
    None,
    One(&'a [u8]),
    Two(&'a [u8], &'a [u8]),
    More,
}

/// The words of the rest of a line.
pub fn values_of(rest: &[u8]) -> Values<'_>
    ensures { AreValues (words_of rest.now) result }
{
    let Some((first, rest)) = next_word(rest) else {
        return Values::None;
    };
    let Some((second, rest)) = next_word(rest) else {
        return Values::One(first);
    };
    match next_word(rest) {
        Some(_) => Values::More,
        None => Values::Two(first, second),
    }
}
