//! Groups of SAE J1939-71 as lists of signals, and payloads laid out by them.
use j39_id::Label;
use j39_signal::{Kind, Layout, Signal, State, WriteError};
use std::alloc::Global;
use std::test::Fail;

/// A signal as a table gives it: bytes from 1, bits in a byte from 1.
#[derive(Clone, Copy)]
pub struct SignalRow {
    pub label: &'static str,
    pub byte: u16,
    pub bit: u16,
    pub bits: u8,
    pub kind: Kind,
    pub unit: &'static str,
    pub step: i64,
    pub offset: i64,
}

const fn measured(
    label: &'static str,
    byte: u16,
    bits: u8,
    unit: &'static str,
    step: i64,
    offset: i64,
) -> SignalRow {
    SignalRow {
        label,
        byte,
        bit: 1,
        bits,
        kind: Kind::Measured,
        unit,
        step,
        offset,
    }
}

const fn unscaled(label: &'static str, byte: u16, bit: u16, bits: u8, kind: Kind) -> SignalRow {
    SignalRow {
        label,
        byte,
        bit,
        bits,
        kind,
        unit: "",
        step: 1,
        offset: 0,
    }
}

/// Electronic engine controller 1, PGN 61444.
pub fn eec1() -> [SignalRow; 7] {
    [
        unscaled("SPN899", 1, 1, 4, Kind::Raw),
        measured("SPN512", 2, 8, "%", 1, -125),
        measured("SPN513", 3, 8, "%", 1, -125),
        measured("SPN190", 4, 16, "1/8 rpm", 1, 0),
        unscaled("SPN1483", 6, 1, 8, Kind::Raw),
        unscaled("SPN1675", 7, 1, 4, Kind::Raw),
        measured("SPN2432", 8, 8, "%", 1, -125),
    ]
}

/// Engine temperature 1, PGN 65262.
pub fn et1() -> [SignalRow; 3] {
    [
        measured("SPN110", 1, 8, "degC", 1, -40),
        measured("SPN174", 2, 8, "degC", 1, -40),
        measured("SPN175", 3, 16, "1/32 degC", 1, -8736),
    ]
}

/// Cruise control and vehicle speed, PGN 65265.
pub fn ccvs() -> [SignalRow; 5] {
    [
        unscaled("SPN70", 1, 3, 2, Kind::Discrete),
        measured("SPN84", 2, 16, "1/256 km/h", 1, 0),
        unscaled("SPN595", 4, 1, 2, Kind::Discrete),
        unscaled("SPN597", 4, 5, 2, Kind::Discrete),
        measured("SPN86", 6, 8, "km/h", 1, 0),
    ]
}

/// Engine hours and revolutions, PGN 65253.
pub fn hours() -> [SignalRow; 2] {
    [
        measured("SPN247", 1, 32, "1/20 h", 1, 0),
        measured("SPN249", 5, 32, "r", 1000, 0),
    ]
}

/// A group of a maker: states, and numbers in two's complement.
pub fn maker() -> [SignalRow; 3] {
    let torque = SignalRow {
        step: 5,
        offset: 100,
        ..unscaled("TORQUE", 2, 1, 8, Kind::Signed)
    };
    [
        unscaled("GEAR", 1, 1, 4, Kind::States),
        torque,
        unscaled("ANGLE", 3, 1, 12, Kind::Signed),
    ]
}

/// The signal of a row.
pub fn signal(row: &SignalRow) -> Result<Signal, Fail> {
    if row.byte < 1 || row.byte > 1785 || row.bit < 1 || row.bit > 8 {
        return Err("no place").map_err(Fail::from);
    }
    let label = Label::from(row.label).ok().ok_or("a long label")?;
    let unit = Label::from(row.unit).ok().ok_or("a long unit")?;
    let start = 8 * (row.byte - 1) + (row.bit - 1);
    let made = Signal::new(label, start, row.bits, row.kind, row.step, row.offset, unit);
    Ok(made.ok_or("no signal")?)
}

/// The signals of some rows.
pub fn signals(alloc: Global, rows: &[SignalRow]) -> Result<Vec<Signal>, Fail> {
    let mut signals = Vec::new(alloc);
    for row in rows {
        signals.push(signal(row)?)?;
    }
    Ok(signals)
}

/// A payload of eight bytes, with the layout of some rows.
#[derive(Drop)]
pub struct Laid {
    labels: Vec<&'static str>,
    layout: Layout,
    payload: Vec<u8>,
}

impl Laid {
    /// A blank payload.
    pub fn blank(alloc: Global, rows: &[SignalRow]) -> Result<Self, Fail> {
        let layout = Layout::new(alloc, 8, signals(alloc, rows)?.as_slice())?;
        let payload = layout.blank(alloc)?;
        let mut labels = Vec::new(alloc);
        for row in rows {
            labels.push(row.label)?;
        }
        Ok(Laid {
            labels,
            layout,
            payload,
        })
    }

    fn place(&self, label: &str) -> Result<usize, Fail> {
        let place = self.labels.iter().position(|other| *other == label);
        Ok(place.ok_or("no such signal")?)
    }

    /// Writes a value of a signal.
    pub fn write(&mut self, label: &str, value: i64) -> Result<Result<(), WriteError>, Fail> {
        let i = self.place(label)?;
        let payload = self.payload.as_mut_slice();
        if i < self.layout.count() && payload.len() == usize::from(self.layout.length()) {
            Ok(self.layout.write(payload, i, value))
        } else {
            Err("no such place").map_err(Fail::from)
        }
    }

    /// The state of a signal.
    pub fn read(&self, label: &str) -> Result<State, Fail> {
        let i = self.place(label)?;
        let payload = self.payload.as_slice();
        if i < self.layout.count() && payload.len() == usize::from(self.layout.length()) {
            Ok(self.layout.read(payload, i))
        } else {
            Err("no such place").map_err(Fail::from)
        }
    }

    /// The payload in capital hex digits.
    pub fn text(&self, alloc: Global) -> Result<String, Fail> {
        Ok(hex::encode_upper(alloc, self.payload.as_slice())?)
    }
}
