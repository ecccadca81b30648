//! The line of a value.
ghost use Rattle.std.specs.Prelude.{◌≡◌, ◌++◌, OnOk};
ghost use Rattle.j39_plan_text.specs.ShowText.{optional_line, text_value_line as text_line, truth_line, value_front};
ghost use Rattle.j39_plan_text.specs.ShowText.{value_line};

use crate::plan_file::write_table;
use itoa::Integer;
use j39_plan::{Key, Table};
use j39_text::{TextBuffer, WriteResult};

/// Writes what stands before a value.
#[tactic(auto, unfolding(crate::specs::ShowText::value_front))]
pub(super) fn write_front(text: &mut TextBuffer, table: Table, key: Key) -> WriteResult
    ensures { OnOk result (text.new ≡ text.old ++ value_front table key) }
{
    write_table(text, table)?;
    text.word(" ")?;
    text.word(key.word())?;
    text.word(" ")
}

/// Writes a value that is a text.
#[tactic(auto, unfolding(crate::specs::ShowText::value_line))]
pub(super) fn write_word(text: &mut TextBuffer, table: Table, key: Key, word: &str) -> WriteResult
    ensures { OnOk result (text.new ≡ text.old ++ value_line table key word.now) }
{
    write_front(text, table, key)?;
    text.word(word)?;
    text.end_line()
}

/// Writes a value that is a number.
#[tactic(auto, unfolding(crate::specs::ShowText::value_line))]
pub(super) fn write_number<I: Integer>(
    text: &mut TextBuffer,
    table: Table,
    key: Key,
    number: I,
) -> WriteResult
    ensures { OnOk result (text.new ≡ text.old ++ value_line table key (I.text number)) }
{
    write_front(text, table, key)?;
    text.number(number)?;
    text.end_line()
}

/// Writes a number that may not be there.
#[tactic(auto, unfolding(crate::specs::ShowText::optional_line))]
pub(super) fn write_optional<I: Integer>(
    text: &mut TextBuffer,
    table: Table,
    key: Key,
    number: Option<I>,
) -> WriteResult
    ensures { OnOk result (text.new ≡ text.old ++ optional_line I.text table key number) }
{
    match number {
        Some(number) => write_number(text, table, key, number),
        None => Ok(()),
    }
}

/// Writes whether something is so.
#[tactic(auto, unfolding(crate::specs::ShowText::truth_line))]
pub(super) fn write_truth(text: &mut TextBuffer, table: Table, key: Key, truth: bool) -> WriteResult
    ensures { OnOk result (text.new ≡ text.old ++ truth_line table key truth) }
{
    if truth {
        write_word(text, table, key, "true")
    } else {
        write_word(text, table, key, "false")
    }
}

/// Writes a text that may be empty.
#[tactic(auto, unfolding(crate::specs::ShowText::text_value_line))]
pub(super) fn write_text(text: &mut TextBuffer, table: Table, key: Key, word: &str) -> WriteResult
    ensures { OnOk result (text.new ≡ text.old ++ text_line table key word.now) }
{
    if word.is_empty() {
        return Ok(());
    }
    write_word(text, table, key, word)
}
