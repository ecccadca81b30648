//! Signals and layouts on worked payloads.
use crate::groups::{Laid, SignalRow, ccvs, eec1, et1, hours, signals};
use j39_id::Label;
use j39_signal::{Kind, Layout, LayoutError, Signal, State, WriteError};
use std::alloc::Global;
use std::process::Abort;
use std::test::Fail;

/// Writes values into a blank payload, and sees each answer, the payload at the end and the states that it shows.
pub fn writes(
    rt: &impl Abort,
    alloc: Global,
    rows: &[SignalRow],
    values: &[(&str, i64, Result<(), WriteError>)],
    text: &str,
    states: &[(&str, State)],
) -> Result<(), Fail> {
    let mut group = Laid::blank(alloc, rows)?;
    for (label, value, answer) in values {
        assert!(rt; group.write(label, *value)? == *answer);
    }
    assert!(rt; group.text(alloc)?.as_str() == text);
    for (label, state) in states {
        assert!(rt; group.read(label)? == *state);
    }
    Ok(())
}

#[test]
fn writing_one_signal_leaves_the_rest_absent(rt: HostRuntime) -> Result<(), Fail> {
    let states = [
        ("SPN190", State::Value(12000)),
        ("SPN512", State::Absent),
        ("SPN513", State::Absent),
        ("SPN2432", State::Absent),
        ("SPN899", State::Value(15)),
        ("SPN1675", State::Value(15)),
        ("SPN1483", State::Value(255)),
    ];
    let values = [("SPN190", 12000, Ok(()))];
    writes(
        &rt,
        rt.alloc(),
        &eec1(),
        &values,
        "FFFFFFE02EFFFFFF",
        &states,
    )
}

#[test]
fn a_measured_byte_takes_its_range(rt: HostRuntime) -> Result<(), Fail> {
    let out_of_range = Err(WriteError::OutOfRange);
    let values = [
        ("SPN110", 210, Ok(())),
        ("SPN110", 85, Ok(())),
        ("SPN110", 211, out_of_range),
        ("SPN110", -41, out_of_range),
    ];
    writes(
        &rt,
        rt.alloc(),
        &et1(),
        &values[..1],
        "FAFFFFFFFFFFFFFF",
        &[],
    )?;
    writes(&rt, rt.alloc(), &et1(), &values, "7DFFFFFFFFFFFFFF", &[])
}

#[test]
fn hours_are_four_bytes_least_significant_first(rt: HostRuntime) -> Result<(), Fail> {
    let values = [
        ("SPN247", 100_000, Ok(())),
        ("SPN249", 1500, Err(WriteError::NotOnStep)),
        ("SPN249", i64::MAX, Err(WriteError::NotOnStep)),
        ("SPN249", -1000, Err(WriteError::OutOfRange)),
    ];
    writes(&rt, rt.alloc(), &hours(), &values, "A0860100FFFFFFFF", &[])?;
    let values = [("SPN249", 5000, Ok(()))];
    writes(&rt, rt.alloc(), &hours(), &values, "FFFFFFFF05000000", &[])
}

#[test]
fn an_offset_makes_zero_a_raw_number_above_zero(rt: HostRuntime) -> Result<(), Fail> {
    let values = [("SPN175", 0, Ok(()))];
    writes(&rt, rt.alloc(), &et1(), &values, "FFFF2022FFFFFFFF", &[])
}

#[test]
fn discrete_signals_of_one_byte_stand_alone(rt: HostRuntime) -> Result<(), Fail> {
    let values = [("SPN595", 1, Ok(())), ("SPN597", 0, Ok(()))];
    writes(
        &rt,
        rt.alloc(),
        &ccvs(),
        &values[..1],
        "FFFFFFFDFFFFFFFF",
        &[],
    )?;
    let states = [
        ("SPN595", State::Value(1)),
        ("SPN597", State::Value(0)),
        ("SPN70", State::Absent),
    ];
    writes(
        &rt,
        rt.alloc(),
        &ccvs(),
        &values,
        "FFFFFFCDFFFFFFFF",
        &states,
    )
}

fn raw(bits: u8, byte: u16, bit: u16) -> SignalRow {
    SignalRow {
        label: "S",
        byte,
        bit,
        bits,
        kind: Kind::Raw,
        unit: "",
        step: 1,
        offset: 0,
    }
}

// The fault for which these signals are refused in so many bytes.
fn refusal(alloc: Global, length: u16, rows: &[SignalRow]) -> Result<Option<LayoutError>, Fail> {
    let signals = signals(alloc, rows)?;
    Ok(Layout::new(alloc, length, signals.as_slice()).err())
}

#[test]
fn a_layout_is_refused_for_its_first_fault(rt: HostRuntime) -> Result<(), Fail> {
    let wide = [raw(64, 1, 1)];
    assert!(rt; refusal(rt.alloc(), 8, &wide)? == Some(LayoutError::Width(0)));
    assert!(rt; refusal(rt.alloc(), 0, &wide)? == Some(LayoutError::Length));
    let late = [raw(8, 8, 1), raw(8, 8, 2)];
    assert!(rt; refusal(rt.alloc(), 8, &late)? == Some(LayoutError::Outside(1)));
    let shared = [raw(4, 2, 1), raw(4, 1, 1), raw(2, 1, 4)];
    assert!(rt; refusal(rt.alloc(), 8, &shared)? == Some(LayoutError::Overlap(1, 2)));
    Ok(())
}

fn wide(start: u16, bits: u8, kind: Kind) -> Result<Signal, Fail> {
    let label = Label::from("SPN110").ok().ok_or("a long label")?;
    let unit = Label::from("degC").ok().ok_or("a long unit")?;
    Ok(Signal::new(label, start, bits, kind, 2, -40, unit).ok_or("no signal")?)
}

#[test]
fn the_longest_payload_is_laid_out(rt: HostRuntime) -> Result<(), Fail> {
    let last = [wide(14272, 8, Kind::Raw)?];
    for (length, refusal) in [
        (1785, None),
        (1786, Some(LayoutError::Length)),
        (1784, Some(LayoutError::Outside(0))),
    ] {
        assert!(rt; Layout::new(rt.alloc(), length, &last).err() == refusal);
    }
    Ok(())
}

#[test]
fn a_signal_is_given_up(rt: HostRuntime) -> Result<(), Fail> {
    let layout = Layout::new(rt.alloc(), 1, &[wide(0, 8, Kind::Measured)?])?;
    assert!(rt; (layout.length(), layout.count()) == (1, 1));
    let mut payload = layout.blank(rt.alloc())?;
    assert!(rt; layout.write(&mut payload, 0, 10) == Ok(()));
    layout.write_absent(&mut payload, 0);
    assert!(rt; layout.read(&payload, 0) == State::Absent);
    Ok(())
}

#[test]
fn a_record_is_read_further_on(rt: HostRuntime) -> Result<(), Fail> {
    let once = wide(8, 16, Kind::Raw)?;
    let repeated = once.with_repeated(true);
    assert!(rt; (once.is_repeated(), once.end()) == (false, 24));
    assert!(rt; (repeated.is_repeated(), repeated.end()) == (true, 24));
    let layout = Layout::new(rt.alloc(), 3, &[repeated])?;
    let payload = [0, 1, 2, 3, 4, 5];
    assert!(rt; layout.read_further(&payload, 0, 0) == State::Value(2 * 0x0201 - 40));
    assert!(rt; layout.read_further(&payload, 0, 3) == State::Value(2 * 0x0504 - 40));
    Ok(())
}

#[test]
fn an_optional_signal_is_read_where_it_is_there(rt: HostRuntime) -> Result<(), Fail> {
    let always = wide(0, 8, Kind::Raw)?;
    let optional = wide(8, 12, Kind::Raw)?.with_optional(true);
    assert!(rt; (always.is_optional(), optional.is_optional()) == (false, true));
    assert!(rt; (optional.is_there(2), optional.is_there(3)) == (false, true));
    assert!(rt; always.is_there(0));
    let layout = Layout::new(rt.alloc(), 3, &[always, optional])?;
    assert!(rt; (layout.length(), layout.most()) == (3, 3));
    let Some(layout) = layout.from_length(1) else {
        return Err("no shorter layout").map_err(Fail::from);
    };
    assert!(rt; (layout.length(), layout.most()) == (1, 3));
    let short = [10, 5];
    assert!(rt; layout.read(&short, 0) == State::Value(2 * 10 - 40));
    assert!(rt; layout.read(&short, 1) == State::Absent);
    let long = [10, 5, 0xF1];
    assert!(rt; layout.read(&long, 1) == State::Value(2 * 0x105 - 40));
    assert!(rt; layout.read_there(&long, 1) == State::Value(2 * 0x105 - 40));
    Ok(())
}

#[test]
fn an_optional_signal_is_written_where_it_is_there(rt: HostRuntime) -> Result<(), Fail> {
    let optional = wide(8, 12, Kind::Raw)?.with_optional(true);
    let Some(layout) = Layout::new(rt.alloc(), 3, &[optional])?.from_length(1) else {
        return Err("no shorter layout").map_err(Fail::from);
    };
    let mut short = [0, 0];
    assert!(rt; layout.write(&mut short, 0, 0) == Err(WriteError::NotThere));
    layout.write_absent(&mut short, 0);
    assert!(rt; short == [0, 0]);
    let mut long = layout.blank_of(rt.alloc(), 3)?;
    assert!(rt; layout.write(&mut long, 0, 0) == Ok(()));
    assert!(rt; long.as_slice() == [0xFF, 20, 0xF0].as_slice());
    layout.write_absent(&mut long, 0);
    assert!(rt; long.as_slice() == [0xFF, 0xFF, 0xFF].as_slice());
    Ok(())
}

#[test]
fn a_layout_begins_where_its_signals_end(rt: HostRuntime) -> Result<(), Fail> {
    for (length, begins) in [(0, false), (1, false), (2, true), (3, true), (4, false)] {
        let layout = Layout::new(rt.alloc(), 3, &[wide(8, 8, Kind::Raw)?])?;
        assert!(rt; layout.from_length(length).is_some() == begins);
    }
    Ok(())
}

#[test]
fn a_signal_is_shown_with_its_raw_number(rt: HostRuntime) -> Result<(), Fail> {
    let layout = Layout::new(rt.alloc(), 2, &[wide(8, 8, Kind::Measured)?])?;
    let shown = layout.show(&[0, 0xFB], 0);
    assert!(rt; (shown.raw, shown.value) == (0xFB, 2 * 0xFB - 40));
    assert!(rt; shown.state == State::Specific(0xFB));
    let further = layout.show_further(&[0, 0xFB, 3], 0, 1);
    assert!(rt; (further.raw, further.value) == (3, 2 * 3 - 40));
    assert!(rt; further.state == State::Value(2 * 3 - 40));
    Ok(())
}

#[test]
fn faults_have_texts(rt: HostRuntime) -> Result<(), Fail> {
    let overlap = format!(in rt.alloc(); "{}", LayoutError::Overlap(1, 2))?;
    assert!(rt; overlap.as_str() == "signals 1 and 2 share a bit");
    let step = format!(in rt.alloc(); "{}", WriteError::NotOnStep)?;
    assert!(rt; step.as_str() == "the value is not on a step");
    let there = format!(in rt.alloc(); "{}", WriteError::NotThere)?;
    assert!(rt; there.as_str() == "the signal is not there");
    Ok(())
}
