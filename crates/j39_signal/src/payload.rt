//! Signals in a payload.
ghost use Rattle.std.specs.Prelude.{◌≡◌, length, IfErr, OnOk, OnErr};
ghost use Rattle.j39_signal.specs.Bits.{Put, raw_of, all_ones};
ghost use Rattle.j39_signal.specs.Places.{WidthFits, IsInside, further};
ghost use Rattle.j39_signal.specs.State.{shown_of, state_of, RefusesValue, WritesValue};

use crate::bits::{bits_of, set_bits};
use crate::{Shown, Signal, State, WriteError};

impl Signal {
    /// Writes a value.
    pub(crate) fn write(&self, payload: &mut [u8], value: i64) -> Result<(), WriteError>
        requires width { WidthFits self.now }
        requires inside { IsInside (length payload.old) self.now }
        ensures ok { OnOk result (WritesValue self.now value payload.old payload.new) }
        ensures refused { IfErr result (RefusesValue self.now value) }
        ensures unchanged { OnErr result (payload.new ≡ payload.old) }
    {
        let raw = self.raw_of(value)?;
        set_bits(payload, self.start(), self.bits(), raw);
        Ok(())
    }

    /// Sets all bits of the signal to 1.
    pub(crate) fn write_absent(&self, payload: &mut [u8])
        requires width { WidthFits self.now }
        requires inside { IsInside (length payload.old) self.now }
        ensures { Put self.now (all_ones self.now) payload.old payload.new }
    {
        set_bits(payload, self.start(), self.bits(), self.all_ones());
    }

    /// The state that the signal shows.
    pub(crate) fn read(&self, payload: &[u8]) -> State
        requires width { WidthFits self.now }
        requires inside { IsInside (length payload.now) self.now }
        ensures { result ≡ state_of self.now (raw_of payload.now self.now) }
    {
        self.state_of(bits_of(payload, self.start(), self.bits()))
    }

    /// The state that the signal shows so many bytes further on.
    pub(crate) fn read_further(&self, payload: &[u8], bytes: usize) -> State
        requires width { WidthFits self.now }
        requires inside { IsInside (length payload.now) (further bytes self.now) }
        ensures { result ≡ state_of self.now (raw_of payload.now (further bytes self.now)) }
    {
        self.read(&payload[bytes..])
    }

    /// The raw number with what it means.
    pub(crate) fn show(&self, payload: &[u8]) -> Shown
        requires width { WidthFits self.now }
        requires inside { IsInside (length payload.now) self.now }
        ensures { result ≡ shown_of self.now (raw_of payload.now self.now) }
    {
        let raw = bits_of(payload, self.start(), self.bits());
        Shown {
            raw,
            value: self.value_of(raw),
            state: self.state_of(raw),
        }
    }

    /// What the signal shows in a payload, where its record begins so many bytes further on.
    pub(crate) fn show_further(&self, payload: &[u8], bytes: usize) -> Shown
        requires width { WidthFits self.now }
        requires inside { IsInside (length payload.now) (further bytes self.now) }
        ensures { result ≡ shown_of self.now (raw_of payload.now (further bytes self.now)) }
    {
        self.show(&payload[bytes..])
    }
}
