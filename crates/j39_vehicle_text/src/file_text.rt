//! What is written of a vehicle file alone.
ghost use Rattle.std.specs.Prelude.{◌≡◌, IfOk, OnSome};
ghost use Rattle.j39_stream.specs.CommandEnds.{AnswersWhole, PutsText};
ghost use Rattle.j39_stream.specs.Streams.{plan_limits};
ghost use Rattle.j39_vehicle_text.specs.VehicleFileText.{IsRefusedVehicle, IsVehicleFileText, RefusesVehicle};

use crate::refusals::refusal;
use j39_stream::{Fault, Sink, Source, put_all, read_whole};
use j39_vehicle::{VehicleError, VehicleFile, read_vehicle};
use std::alloc::Global;

// Writes the line that says why a vehicle file is refused.
fn refuse<W: Sink>(
    alloc: Global,
    error: &VehicleError,
    sink: &mut W,
) -> Result<Option<VehicleFile>, Fault>
    ensures { PutsText (RefusesVehicle error.now) W.state sink.old sink.new result }
{
    let text = refusal(alloc, error)?;
    put_all(sink, text.as_slice())?;
    Ok(None)
}

/// What a vehicle file says. Where it is refused, writes the line that says why, and gives nothing.
pub fn vehicle_file<S: Source, W: Sink>(
    alloc: Global,
    source: &mut S,
    sink: &mut W,
) -> Result<Option<VehicleFile>, Fault>
    ensures answers { AnswersWhole IsVehicleFileText IsRefusedVehicle plan_limits (S.state source.old)
        (S.state source.new) W.state sink.old sink.new result }
    ensures writes_nothing { IfOk result (λ file. OnSome file (sink.new ≡ sink.old)) }
{
    let input = read_whole(alloc, source)?;
    match read_vehicle(alloc, input.as_slice()) {
        Ok(file) => Ok(Some(file)),
        Err(error) => refuse(alloc, &error, sink),
    }
}
