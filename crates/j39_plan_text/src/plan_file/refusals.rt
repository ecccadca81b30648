//! Why a plan file is refused.
ghost use Rattle.std.specs.Prelude.{◌≡◌, ◌++◌, ℕ, List, OnOk, IfOk};
ghost use Rattle.j39_plan_text.specs.PlanText.{IsRefusalLine, RefusesChoices, choices_line, fault_line, key_text};
ghost use Rattle.j39_plan_text.specs.PlanText.{table_text};
ghost use Rattle.j39_stream.specs.CommandEnds.{PutsText};

use j39_plan::{FileError, Key, PlanError, PlanFault, Table};
use j39_stream::{CommandResult, Fault, Sink, Verdict, put_all};
use j39_text::{TextBuffer, WriteResult};
use std::alloc::{AllocError, Global};

/// Writes the name of a table.
#[tactic(auto, unfolding(crate::specs::PlanText::table_text))]
pub(crate) fn write_table(text: &mut TextBuffer, table: Table) -> WriteResult
    ensures { OnOk result (text.new ≡ text.old ++ table_text table) }
{
    match table {
        Table::Top => text.word("top"),
        Table::Timing => text.word("timing"),
        Table::TimingErrors => text.word("timing errors"),
        Table::Unit(unit) => text.place("unit ", unit),
        Table::UnitName(unit) => {
            text.place("unit ", unit)?;
            text.word(" name")
        }
        Table::Group(group) => text.place("group ", group),
        Table::GroupWhen(group) => {
            text.place("group ", group)?;
            text.word(" when")
        }
        Table::Signal(group, signal) => {
            text.place("group ", group)?;
            text.place(" signal ", signal)
        }
        Table::Text(group, place) => {
            text.place("group ", group)?;
            text.place(" text ", place)
        }
        Table::Flow(flow) => text.place("flow ", flow),
        Table::Need(need) => text.place("need ", need),
        Table::Request(request) => text.place("request ", request),
        Table::Choice(choice) => text.place("choice ", choice),
        Table::Never(never) => text.place("never ", never),
    }
}

#[tactic(auto, unfolding(crate::specs::PlanText::key_text))]
fn write_key(text: &mut TextBuffer, key: Option<Key>) -> WriteResult
    ensures { OnOk result (text.new ≡ text.old ++ key_text key) }
{
    match key {
        Some(key) => {
            text.word(" key ")?;
            text.word(key.word())
        }
        None => Ok(()),
    }
}

#[tactic(auto, unfolding(crate::specs::PlanText::fault_line))]
fn write_fault(text: &mut TextBuffer, fault: &PlanFault) -> WriteResult
    ensures { OnOk result (text.new ≡ text.old ++ fault_line fault.now) }
{
    text.word("refused ")?;
    text.word(fault.cause.word())?;
    text.word(" ")?;
    write_table(text, fault.place.table)?;
    write_key(text, fault.place.key)?;
    text.end_line()
}

/// Writes the line of a refusal. Where the plan could not be read for want of memory there is none.
pub fn write_refusal(text: &mut TextBuffer, error: &PlanError) -> WriteResult
    ensures { OnOk result ((line : List ℕ) × IsRefusalLine error.now line × (text.new ≡ text.old ++ line)) }
{
    match error {
        FileError::Text => text.word("refused Text\n"),
        FileError::Fault(fault) => write_fault(text, fault),
        FileError::Memory => Err(AllocError),
    }
}

/// The line of a refusal.
pub(super) fn refusal(alloc: Global, error: &PlanError) -> Result<TextBuffer, AllocError>
    ensures { IfOk result (IsRefusalLine error.now) }
{
    let mut text = TextBuffer::new(alloc);
    write_refusal(&mut text, error)?;
    Ok(text)
}

/// Writes that a plan has choices, where one plan is wanted.
#[tactic(auto, unfolding(crate::specs::PlanText::choices_line))]
pub fn write_choices_refused(text: &mut TextBuffer) -> WriteResult
    ensures { OnOk result (text.new ≡ text.old ++ choices_line) }
{
    text.word("refused plan Choices\n")
}

// The line that says that a plan has choices.
fn choices_refused(alloc: Global) -> Result<TextBuffer, AllocError>
    ensures { IfOk result (λ text. text ≡ choices_line) }
{
    let mut text = TextBuffer::new(alloc);
    write_choices_refused(&mut text)?;
    Ok(text)
}

/// Writes the line that says that a plan has choices.
pub fn refuse_choices<W: Sink>(alloc: Global, sink: &mut W) -> CommandResult
    ensures { PutsText RefusesChoices W.state sink.old sink.new result }
{
    let text = choices_refused(alloc)?;
    put_all(sink, text.as_slice())?;
    Ok(Verdict::Refused)
}
