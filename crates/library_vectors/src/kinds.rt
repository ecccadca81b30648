//! States of several bits and numbers in two's complement, written.
use crate::groups::maker;
use crate::signals::writes;
use j39_signal::{State, WriteError};
use std::test::Fail;

#[test]
fn of_states_the_two_greatest_are_no_values(rt: HostRuntime) -> Result<(), Fail> {
    let values = [
        ("GEAR", 13, Ok(())),
        ("GEAR", 14, Err(WriteError::OutOfRange)),
        ("GEAR", -1, Err(WriteError::OutOfRange)),
    ];
    writes(
        &rt,
        rt.alloc(),
        &maker(),
        &values,
        "FDFFFFFFFFFFFFFF",
        &[("GEAR", State::Value(13))],
    )
}

#[test]
fn a_signed_number_takes_its_range(rt: HostRuntime) -> Result<(), Fail> {
    let out_of_range = Err(WriteError::OutOfRange);
    let values = [
        ("ANGLE", 2048, out_of_range),
        ("ANGLE", -2049, out_of_range),
        ("ANGLE", -2048, Ok(())),
        ("TORQUE", 90, Ok(())),
        ("TORQUE", -545, out_of_range),
        ("TORQUE", 740, out_of_range),
        ("TORQUE", 92, Err(WriteError::NotOnStep)),
    ];
    writes(
        &rt,
        rt.alloc(),
        &maker(),
        &values,
        "FFFE00F8FFFFFFFF",
        &[("TORQUE", State::Value(90))],
    )
}
