//! Writing all of some bytes.
ghost use Rattle.std.specs.Prelude.{◌≡◌, OnOk, OnErr, IfErr};
ghost use Rattle.std.specs.Io.KnownBytes.{Appends};
ghost use Rattle.j39_stream.specs.Streams.{AppendsPart, HasFailed};

use crate::{Fault, Sink};

/// Writes all of the bytes. Where a call fails or takes nothing, the bytes before it stay written.
pub fn put_all<W: Sink>(sink: &mut W, bytes: &[u8]) -> Result<(), Fault>
    ensures ok { OnOk result (Appends (W.state sink.old).taken (W.state sink.new).taken bytes.now) }
    ensures cut { OnErr result (AppendsPart (W.state sink.old).taken (W.state sink.new).taken bytes.now) }
    ensures whole { OnOk result ((W.state sink.new).failures ≡ (W.state sink.old).failures) }
    ensures device { IfErr result (λ fault. (fault ≡ Fault.Device)
        × HasFailed (W.state sink.old).failures (W.state sink.new).failures) }
{
    let mut done = 0;
    while done < bytes.len() {
        let Ok(count) = sink.put(&bytes[done..]) else {
            return Err(Fault::Device);
        };
        if count == 0 {
            return Err(Fault::Device);
        }
        done += count;
    }
    Ok(())
}
