//! Why a vehicle file is refused.
ghost use Rattle.std.specs.Prelude.{◌≡◌, ◌++◌, IfOk, OnOk};
ghost use Rattle.j39_vehicle_text.specs.VehicleFileText.{IsVehicleRefusal, vehicle_fault_line, vehicle_key_text};
ghost use Rattle.j39_vehicle_text.specs.VehicleFileText.{vehicle_table_text};

use j39_text::{TextBuffer, WriteResult};
use j39_vehicle::{FileError, Key, Table, VehicleError, VehicleFault};
use std::alloc::{AllocError, Global};

// Writes the name of a table.
#[tactic(auto, unfolding(crate::specs::VehicleFileText::vehicle_table_text))]
fn write_table(text: &mut TextBuffer, table: Table) -> WriteResult
    ensures { OnOk result (text.new ≡ text.old ++ vehicle_table_text table) }
{
    match table {
        Table::Top => text.word("top"),
        Table::Bus(bus) => text.place("bus ", bus),
        Table::Gateway(gateway) => text.place("gateway ", gateway),
        Table::Forward(forward) => text.place("forward ", forward),
        Table::Signal(forward, signal) => {
            text.place("forward ", forward)?;
            text.place(" signal ", signal)
        }
        Table::Need(need) => text.place("need ", need),
    }
}

#[tactic(auto, unfolding(crate::specs::VehicleFileText::vehicle_key_text))]
fn write_key(text: &mut TextBuffer, key: Option<Key>) -> WriteResult
    ensures { OnOk result (text.new ≡ text.old ++ vehicle_key_text key) }
{
    match key {
        Some(key) => {
            text.word(" key ")?;
            text.word(key.word())
        }
        None => Ok(()),
    }
}

#[tactic(auto, unfolding(crate::specs::VehicleFileText::vehicle_fault_line))]
fn write_fault(text: &mut TextBuffer, fault: &VehicleFault) -> WriteResult
    ensures { OnOk result (text.new ≡ text.old ++ vehicle_fault_line fault.now) }
{
    text.word("refused ")?;
    text.word(fault.cause.word())?;
    text.word(" ")?;
    write_table(text, fault.place.table)?;
    write_key(text, fault.place.key)?;
    text.end_line()
}

/// The line of a refusal. Where the vehicle could not be read for want of memory there is none.
pub(super) fn refusal(alloc: Global, error: &VehicleError) -> Result<TextBuffer, AllocError>
    ensures { IfOk result (IsVehicleRefusal error.now) }
{
    let mut text = TextBuffer::new(alloc);
    match error {
        FileError::Text => text.word("refused Text\n")?,
        FileError::Fault(fault) => write_fault(&mut text, fault)?,
        FileError::Memory => return Err(AllocError),
    }
    Ok(text)
}
