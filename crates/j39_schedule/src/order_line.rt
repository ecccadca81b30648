//! Reading a line of a schedule.
ghost use Rattle.std.specs.Prelude.{◌≡◌, [], ◌∷◌, None, Some, IfOk, IfErr};
ghost use Rattle.j39_id.specs.Lines.{Short};
ghost use Rattle.j39_schedule.specs.Schedule.{line_order, order_of, unit_named, words_of};
ghost use Rattle.j39_schedule.specs.Scheduling.{IsReadAs};
ghost use Rattle.j39_schedule.specs.inside.OrderWords.{order_word};

use crate::line_fault::LineFault;
use crate::line_words::next_word;
use crate::messages::order_message;
use crate::order_word::OrderWord;
use crate::units::Units;
use crate::unread::Unread;
use crate::values::{Values, values_of};
use j39_network::Step;
use std::alloc::Global;

/// The unit of a label, by its place.
#[tactic(auto, unfolding(crate::specs::Schedule::unit_named))]
fn unit(units: &Units, label: &[u8]) -> Result<usize, Unread>
    ensures found { IfOk result (λ u. unit_named units.now label.now ≡ Some u) }
    ensures none { IfErr result (λ why. (unit_named units.now label.now ≡ None)
        × (why ≡ Unread.Fault LineFault.UnknownLabel)) }
{
    match units.find(label) {
        Some(place) => Ok(place),
        None => Err(Unread::Fault(LineFault::UnknownLabel)),
    }
}

// What a word orders with one value.
fn of_one(units: &Units, word: OrderWord, a: &[u8]) -> Result<Option<Step>, Unread>
    ensures { IsReadAs (order_of units.now (order_word word) (a.now ∷ [])) result }
{
    match word {
        OrderWord::OfUnit(order) => Ok(Some(order.step(unit(units, a)?))),
        OrderWord::Late => Ok(Some(Step::LateSender(unit(units, a)?))),
        _ => Err(Unread::Fault(LineFault::WordCount)),
    }
}

// What a word orders with two values.
fn of_two(
    alloc: Global,
    units: &Units,
    word: OrderWord,
    a: &[u8],
    b: &[u8],
) -> Result<Option<Step>, Unread>
    ensures { IsReadAs (order_of units.now (order_word word) (a.now ∷ b.now ∷ [])) result }
{
    match word {
        OrderWord::OfUnit(_) => Err(Unread::Fault(LineFault::WordCount)),
        OrderWord::OfUnits(order) => Ok(Some(order.step(unit(units, a)?, unit(units, b)?))),
        OrderWord::Late => Ok(Some(Step::LateReceiver(unit(units, a)?, unit(units, b)?))),
        OrderWord::OfMessage(order) => order_message(alloc, units.plan(), order, a, b),
    }
}

/// What a word orders with these values.
fn order_of(
    alloc: Global,
    units: &Units,
    word: OrderWord,
    values: &[u8],
) -> Result<Option<Step>, Unread>
    ensures { IsReadAs (order_of units.now (order_word word) (words_of values.now)) result }
{
    match values_of(values) {
        Values::One(a) => of_one(units, word, a),
        Values::Two(a, b) => of_two(alloc, units, word, a, b),
        Values::None | Values::More => Err(Unread::Fault(LineFault::WordCount)),
    }
}

/// What a line that isn't too long orders: a step, or nothing where it has no words or is a comment.
#[tactic(auto, unfolding(crate::specs::Schedule::line_order, crate::specs::Schedule::words_order))]
pub fn read_line(alloc: Global, units: &Units, line: &[u8]) -> Result<Option<Step>, Unread>
    ensures { IsReadAs (line_order units.now (Short line.now)) result }
{
    let Some((word, values)) = next_word(line) else {
        return Ok(None);
    };
    if word[0] == b'#' {
        return Ok(None);
    }
    match OrderWord::spelled(word) {
        Some(word) => order_of(alloc, units, word, values),
        None => Err(Unread::Fault(LineFault::UnknownWord)),
    }
}
