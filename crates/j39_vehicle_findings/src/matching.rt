//! When what one signal says can stand in another one.
ghost use Rattle.std.specs.Prelude.{◌≡◌, ◌==◌, ◌&&◌, ◌-◌, ◌*◌, ◌%◌, ◌≤◌, ◌*ℤ◌, pos};
ghost use Rattle.j39_signal.specs.Places.{WidthFits};
ghost use Rattle.j39_vehicle_findings.specs.Matching.{first_value, has_value, has_values_of, is_on_steps, last_value};
ghost use Rattle.j39_vehicle_findings.specs.Matching.{steps_above};
ghost use Rattle.j39_vehicle_findings.specs.Matching.{steps_below};
ghost use Rattle.j39_vehicle_findings.specs.MatchTests.{agree, are_alike, are_same_numbers, are_same_units, has};
ghost use Rattle.j39_vehicle_findings.specs.MatchTests.{is_always_value};
ghost use Rattle.j39_vehicle_findings.specs.MatchTests.{is_trouble_code, kind_number, may_be_unset, same_scale};

use j39_id::Label;
use j39_signal::{Kind, Signal};

// Whether their values are scaled the same way.
fn same_scale(one: &Signal, other: &Signal) -> bool
    ensures { result ≡ same_scale one.now other.now }
{
    one.step() == other.step() && one.offset() == other.offset() && one.per() == other.per()
}

fn same_kind(one: Kind, other: Kind) -> bool
    ensures { result ≡ (kind_number one == kind_number other) }
{
    one == other
}

/// Whether the two have the same bits, read the same way.
pub fn agree(one: &Signal, other: &Signal) -> bool
    ensures { result ≡ agree one.now other.now }
{
    one.start() == other.start()
        && one.bits() == other.bits()
        && same_kind(one.kind(), other.kind())
        && same_scale(one, other)
        && one.is_repeated() == other.is_repeated()
}

// Whether two units of measurement are the same, as far as both are there.
fn are_same_units(one: &Label, other: &Label) -> bool
    ensures { result ≡ are_same_units one.now.bytes other.now.bytes }
{
    one.as_str().is_empty() || other.as_str().is_empty() || one.as_str() == other.as_str()
}

// Whether two numbers of signals are the same, as far as both are there.
fn are_same_numbers(one: Option<u32>, other: Option<u32>) -> bool
    ensures { result ≡ are_same_numbers one other }
{
    match (one, other) {
        (Some(one), Some(other)) => one == other,
        (None, _) => true,
        (Some(_), None) => true,
    }
}

fn is_code(kind: Kind) -> bool
    ensures { result ≡ is_trouble_code kind }
{
    match kind {
        Kind::Dtc => true,
        Kind::Measured | Kind::Discrete | Kind::Raw | Kind::States | Kind::Signed => false,
    }
}

/// Whether the two mean the same, as far as it is reported by their units of measurement, their numbers (SPN), and
/// their kinds.
pub fn are_alike(
    one: &Signal,
    one_number: Option<u32>,
    other: &Signal,
    other_number: Option<u32>,
) -> bool
    ensures { result ≡ are_alike one.now one_number other.now other_number }
{
    are_same_units(one.unit(), other.unit())
        && are_same_numbers(one_number, other_number)
        && is_code(one.kind()) == is_code(other.kind())
}

fn is_always_value(kind: Kind) -> bool
    ensures { result ≡ is_always_value kind }
{
    match kind {
        Kind::Raw | Kind::Signed => true,
        Kind::Measured | Kind::Discrete | Kind::States | Kind::Dtc => false,
    }
}

// Whether a message may have nothing in the signal that could be said in one of which every raw number is a value.
fn may_be_unset(signal: &Signal) -> bool
    ensures { result ≡ may_be_unset signal.now }
{
    !is_always_value(signal.kind()) || signal.is_optional()
}

// How many steps below its offset a signal has values.
fn steps_below(signal: &Signal) -> u64
    requires { WidthFits signal.now }
    ensures value { result ≡ steps_below signal.now.kind signal.now.bits }
    ensures few { result ≤ 2147483648 }
{
    match signal.kind() {
        Kind::Signed => 1 << (signal.bits() - 1),
        Kind::Measured | Kind::Discrete | Kind::Raw | Kind::States | Kind::Dtc => 0,
    }
}

// And from its offset up.
fn steps_above(signal: &Signal) -> u64
    requires { WidthFits signal.now }
    ensures value { result ≡ steps_above signal.now.kind signal.now.bits }
    ensures few { result ≤ 4294967296 }
{
    match signal.kind() {
        Kind::Measured => 251 << (signal.bits() - 8),
        Kind::Discrete => 2,
        Kind::Raw => 1 << signal.bits(),
        Kind::States => (1u64 << signal.bits()).saturating_sub(2),
        Kind::Signed => 1 << (signal.bits() - 1),
        Kind::Dtc => (1 << signal.bits()) - 1,
    }
}

fn step_size(signal: &Signal) -> u64
    ensures value { result ≡ signal.now.step }
    ensures some { 1 ≤ result }
    ensures most { result ≤ 1000000 }
{
    signal.step().unsigned_abs()
}

fn first_value(signal: &Signal) -> i64
    requires { WidthFits signal.now }
    ensures { result ≡ first_value signal.now }
{
    signal.offset() - (step_size(signal) * steps_below(signal)) as i64
}

// The last number of steps from its offset up.
fn last_step(signal: &Signal) -> u64
    requires { WidthFits signal.now }
    ensures value { result ≡ steps_above signal.now.kind signal.now.bits - 1 }
    ensures few { result ≤ 4294967296 }
{
    steps_above(signal).saturating_sub(1)
}

fn last_value(signal: &Signal) -> i64
    requires { WidthFits signal.now }
    ensures { result ≡ last_value signal.now }
{
    signal.offset() + (step_size(signal) * last_step(signal)) as i64
}

fn times(value: i64, per: u32) -> i128
    ensures { result ≡ value *ℤ pos per }
{
    i128::from(value) * i128::from(per)
}

// Whether so much is a whole number of steps of this size, down or up, and one that the signal has.
fn is_on_steps(signal: &Signal, size: u64, is_down: bool, distance: u128) -> bool
    requires width { WidthFits signal.now }
    requires some { 1 ≤ size }
    ensures { result ≡ is_on_steps signal.now size is_down distance }
{
    let size = u128::from(size);
    if is_down {
        distance % size == 0 && distance / size <= u128::from(steps_below(signal))
    } else {
        distance % size == 0 && distance / size < u128::from(steps_above(signal))
    }
}

// How much a value rises from one raw number to the next, times a number.
fn step_times(signal: &Signal, per: u32) -> u64
    requires { 1 ≤ per }
    ensures value { result ≡ signal.now.step * per }
    ensures some { 1 ≤ result }
{
    step_size(signal) * u64::from(per)
}

// Whether this, divided by so much, is a value of the signal.
fn has_value(signal: &Signal, value: i64, per: u32) -> bool
    requires width { WidthFits signal.now }
    requires divides { 1 ≤ per }
    ensures { result ≡ has_value signal.now value per }
{
    let value = times(value, signal.per());
    let offset = times(signal.offset(), per);
    is_on_steps(
        signal,
        step_times(signal, per),
        value < offset,
        value.abs_diff(offset),
    )
}

fn some_per(signal: &Signal) -> u32
    ensures value { result ≡ signal.now.per }
    ensures some { 1 ≤ result }
{
    signal.per()
}

// Whether the steps of the one are whole steps of the other.
fn has_whole_steps(one: &Signal, other: &Signal) -> bool
    ensures { result ≡ (one.now.step * other.now.per % (other.now.step * one.now.per) == 0) }
{
    step_times(one, some_per(other)) % step_times(other, some_per(one)) == 0
}

// Whether the last value of the one is one of the other, and steps are whole steps.
fn has_last_and_steps(one: &Signal, other: &Signal) -> bool
    requires one_width { WidthFits one.now }
    requires other_width { WidthFits other.now }
    ensures { result
        ≡ (has_value other.now (last_value one.now) one.now.per
        && one.now.step * other.now.per % (other.now.step * one.now.per) == 0) }
{
    has_value(other, last_value(one), some_per(one)) && has_whole_steps(one, other)
}

// Whether each value of the one is one of the other: the first and the last are, and its steps are whole steps of the
// other.
fn has_values_of(one: &Signal, other: &Signal) -> bool
    requires one_width { WidthFits one.now }
    requires other_width { WidthFits other.now }
    ensures { result ≡ has_values_of one.now other.now }
{
    has_value(other, first_value(one), some_per(one)) && has_last_and_steps(one, other)
}

/// Whether the second signal can say whatever the first one says as a value.
pub fn has(one: &Signal, other: &Signal) -> bool
    ensures { result ≡ has one.now other.now }
{
    one.width_fits()
        && other.width_fits()
        && !(is_always_value(other.kind()) && may_be_unset(one))
        && has_values_of(one, other)
}
