//! The flow and the bytes of a message that a line begins or sends.
ghost use Rattle.std.specs.Prelude.{◌≡◌, is_ok};
ghost use Rattle.std.specs.Char.{is_ascii_digit};
ghost use Rattle.std.specs.List.{list_all};
ghost use Rattle.hex.specs.Hex.{decode_of, is_hex_digit};
ghost use Rattle.j39_schedule.specs.Schedule.{flow_place, is_number, spelled_number, with_flow};
ghost use Rattle.j39_schedule.specs.Scheduling.{IsReadAs};
ghost use Rattle.j39_schedule.specs.inside.OrderWords.{message_order};

use crate::line_fault::LineFault;
use crate::order_word::MessageOrder;
use crate::unread::Unread;
use hex::FromHexError;
use j39_network::{Plan, Step};
use std::alloc::Global;

/// The most digits of a number.
const MOST_DIGITS: usize = 9;

fn is_digit(byte: u8) -> bool
    ensures { result ≡ is_ascii_digit byte }
{
    matches!(byte, b'0'..=b'9')
}

fn are_digits(text: &[u8]) -> bool
    ensures { result ≡ list_all is_ascii_digit text.now }
{
    text.iter().all(|byte| is_digit(*byte))
}

#[tactic(auto, unfolding(crate::specs::Schedule::is_number))]
fn is_number(text: &[u8]) -> bool
    ensures { result ≡ is_number text.now }
{
    !text.is_empty() && text.len() <= MOST_DIGITS && are_digits(text)
}

/// The number of 1 to 9 decimal digits.
#[tactic(auto, unfolding(crate::specs::Schedule::spelled_number))]
fn number_of(text: &[u8]) -> Option<usize>
    ensures { result ≡ spelled_number text.now }
{
    if !is_number(text) {
        return None;
    }
    let mut number = 0;
    for digit in text {
        number = number * 10 + usize::from(*digit - b'0');
    }
    Some(number)
}

/// The place of the flow of a number; that of the flow 0, which no plan has, is the place behind the last flow.
fn flow_place(plan: &Plan, number: usize) -> usize
    ensures { result ≡ flow_place plan.now number }
{
    if number == 0 {
        plan.flows.len()
    } else {
        number - 1
    }
}

fn is_hex_digit(byte: u8) -> bool
    ensures { result ≡ is_hex_digit byte }
{
    matches!(byte, b'0'..=b'9' | b'A'..=b'F' | b'a'..=b'f')
}

fn are_hex_digits(text: &[u8]) -> bool
    ensures { result ≡ list_all is_hex_digit text.now }
{
    text.iter().all(|byte| is_hex_digit(*byte))
}

/// Whether pairs of hex digits spell bytes.
fn spell_bytes(digits: &[u8]) -> bool
    ensures { result ≡ is_ok (decode_of digits.now) }
{
    digits.len() % 2 == 0 && are_hex_digits(digits)
}

/// The order to begin the flow of a number with the bytes that hex digits spell, or to send them by it in one frame.
pub fn order_message(
    alloc: Global,
    plan: &Plan,
    order: MessageOrder,
    number: &[u8],
    digits: &[u8],
) -> Result<Option<Step>, Unread>
    ensures { IsReadAs (with_flow plan.now (message_order order) number.now digits.now) result }
{
    let Some(number) = number_of(number) else {
        return Err(Unread::Fault(LineFault::BadNumber));
    };
    match hex::decode(alloc, digits) {
        Ok(bytes) => Ok(Some(order.step(flow_place(plan, number), bytes))),
        // What can't be read is reported also where memory is refused.
        Err(FromHexError::OutOfMemory) if spell_bytes(digits) => Err(Unread::Memory),
        Err(_) => Err(Unread::Fault(LineFault::BadHex)),
    }
}
