//! Raw numbers and what they mean.
ghost use Rattle.std.specs.Prelude.{◌≡◌, ◌≢◌, ℕ, true, false, ◌-◌, ◌^◌, ◌<◌, ◌≤◌, ◌-ℤ◌, unsigned_abs, IfOk, IfErr};
ghost use Rattle.std.specs.Prelude.{IfSome, IfNone, pos, ◌*◌};
ghost use Rattle.j39_signal.specs.Bits.{all_ones};
ghost use Rattle.j39_signal.specs.Places.{WidthFits};
ghost use Rattle.j39_signal.specs.State.{state_of, value_of, is_negative, ranges_of, IsValue, IsRawOf, RefusesValue};

use crate::{Kind, Signal, State, WriteError};

impl Signal {
    // The size of a step.
    fn step_size(&self) -> u64
        ensures value { result ≡ self.now.step }
        ensures some { 0 < result }
        ensures most { result ≤ 1000000 }
    {
        self.step().unsigned_abs()
    }

    // The highest bit of a signed number says that it is negative.
    fn is_negative(&self, raw: u32) -> bool
        requires { WidthFits self.now }
        ensures { result ≡ is_negative self.now.kind self.now.bits raw }
    {
        match self.kind() {
            Kind::Signed => 1 << (self.bits() - 1) <= u64::from(raw),
            _ => false,
        }
    }

    // So many steps up from the offset, or down.
    #[tactic(auto, using(crate::proofs::Steps::steps_range))]
    fn steps(&self, count: u64) -> i64
        requires { count ≤ 4294967296 }
        ensures { result ≡ pos (self.now.step * count) }
    {
        (self.step_size() * count) as i64
    }

    // How far a negative number lies below 0.
    fn below_zero(&self, raw: u32) -> u64
        requires width { WidthFits self.now }
        requires range { raw < 2 ^ self.now.bits }
        ensures value { result ≡ 2 ^ self.now.bits - raw }
        ensures most { result ≤ 4294967296 }
    {
        (1u64 << self.bits()) - u64::from(raw)
    }

    #[tactic(auto, using(crate::proofs::Steps::value_up, crate::proofs::Steps::value_down))]
    pub(crate) fn value_of(&self, raw: u32) -> i64
        requires width { WidthFits self.now }
        requires range { raw < 2 ^ self.now.bits }
        ensures { result ≡ value_of self.now raw }
    {
        if self.is_negative(raw) {
            self.offset() - self.steps(self.below_zero(raw))
        } else {
            self.offset() + self.steps(u64::from(raw))
        }
    }

    // The state is in the top byte.
    fn measured_state(&self, raw: u32) -> State
        requires kind { self.now.kind ≡ Kind.Measured }
        requires width { WidthFits self.now }
        requires range { raw < 2 ^ self.now.bits }
        ensures { result ≡ state_of self.now raw }
    {
        match raw >> (self.bits() - 8) {
            0..=0xfa => State::Value(self.value_of(raw)),
            0xfb => State::Specific(raw),
            0xfc..=0xfd => State::Reserved(raw),
            0xfe => State::Fault(raw),
            _ => State::Absent,
        }
    }

    // All ones are absence, and the number below them is a fault.
    fn plain_state(&self, raw: u32) -> State
        requires kind { self.now.kind ≡ Kind.States }
        requires width { WidthFits self.now }
        requires range { raw < 2 ^ self.now.bits }
        ensures { result ≡ state_of self.now raw }
    {
        let absent = self.all_ones();
        if raw == absent {
            State::Absent
        } else if raw + 1 == absent {
            State::Fault(raw)
        } else {
            State::Value(self.value_of(raw))
        }
    }

    // All ones are absence.
    fn code_state(&self, raw: u32) -> State
        requires kind { self.now.kind ≡ Kind.Dtc }
        requires width { WidthFits self.now }
        requires range { raw < 2 ^ self.now.bits }
        ensures { result ≡ state_of self.now raw }
    {
        if raw == self.all_ones() {
            State::Absent
        } else {
            State::Value(self.value_of(raw))
        }
    }

    /// The state that a raw number shows. It is asked for at each signal of a frame.
    #[inline(always)]
    pub(crate) fn state_of(&self, raw: u32) -> State
        requires width { WidthFits self.now }
        requires range { raw < 2 ^ self.now.bits }
        ensures { result ≡ state_of self.now raw }
    {
        match self.kind() {
            Kind::Measured => self.measured_state(raw),
            Kind::Discrete => match raw {
                0..=1 => State::Value(self.value_of(raw)),
                2 => State::Fault(raw),
                _ => State::Absent,
            },
            Kind::Raw | Kind::Signed => State::Value(self.value_of(raw)),
            Kind::States => self.plain_state(raw),
            Kind::Dtc => self.code_state(raw),
        }
    }

    // The first raw number that stands for no value.
    fn values_end(&self) -> u64
        requires { WidthFits self.now }
        ensures { result ≡ (ranges_of self.now.kind self.now.bits).values }
    {
        match self.kind() {
            Kind::Measured => 251 << (self.bits() - 8),
            Kind::Discrete => 2,
            Kind::Raw | Kind::Signed => 1 << self.bits(),
            Kind::States => u64::from(self.all_ones()) - 1,
            Kind::Dtc => u64::from(self.all_ones()),
        }
    }

    // The raw number whose value lies so many steps from the offset up.
    fn raw_above(&self, steps: u64) -> Option<u32>
        requires { WidthFits self.now }
        ensures found { IfSome result (λ raw. (raw ≡ steps) × IsValue self.now raw
            × (is_negative self.now.kind self.now.bits raw ≡ false)) }
        ensures range { IfSome result (λ raw. raw < 2 ^ self.now.bits) }
        ensures none { IfNone result ((raw : ℕ) → IsValue self.now raw
            → is_negative self.now.kind self.now.bits raw ≡ false → raw ≢ steps) }
    {
        let end = match self.kind() {
            Kind::Signed => 1 << (self.bits() - 1),
            _ => self.values_end(),
        };
        if steps < end {
            Some(steps as u32)
        } else {
            None
        }
    }

    // The raw number whose value lies so many steps from the offset down.
    fn raw_below(&self, steps: u64) -> Option<u32>
        requires width { WidthFits self.now }
        requires some { 0 < steps }
        ensures found { IfSome result (λ raw. (2 ^ self.now.bits - raw ≡ steps) × IsValue self.now raw
            × (is_negative self.now.kind self.now.bits raw ≡ true)) }
        ensures range { IfSome result (λ raw. raw < 2 ^ self.now.bits) }
        ensures none { IfNone result ((raw : ℕ) → IsValue self.now raw
            → is_negative self.now.kind self.now.bits raw ≡ true → 2 ^ self.now.bits - raw ≢ steps) }
    {
        let most = match self.kind() {
            Kind::Signed => 1 << (self.bits() - 1),
            _ => 0,
        };
        if steps <= most {
            Some(((1 << self.bits()) - steps) as u32)
        } else {
            None
        }
    }

    // How far a value lies from the offset.
    fn distance(&self, value: i64) -> u64
        ensures { result ≡ unsigned_abs (value -ℤ self.now.offset) }
    {
        value.abs_diff(self.offset())
    }

    /// The raw number that stands for a value.
    pub(crate) fn raw_of(&self, value: i64) -> Result<u32, WriteError>
        requires { WidthFits self.now }
        ensures ok { IfOk result (IsRawOf self.now value) }
        ensures range { IfOk result (λ raw. raw < 2 ^ self.now.bits) }
        ensures refused { IfErr result (RefusesValue self.now value) }
    {
        let distance = self.distance(value);
        let step = self.step_size();
        if distance % step != 0 {
            return Err(WriteError::NotOnStep);
        }
        let steps = distance / step;
        let found = if value < self.offset() {
            self.raw_below(steps)
        } else {
            self.raw_above(steps)
        };
        match found {
            Some(raw) => Ok(raw),
            None => Err(WriteError::OutOfRange),
        }
    }

    /// The raw number whose bits are all 1.
    pub(crate) fn all_ones(&self) -> u32
        requires { WidthFits self.now }
        ensures value { result ≡ all_ones self.now }
        ensures some { 1 ≤ result }
        ensures range { result < 2 ^ self.now.bits }
    {
        ((1u64 << self.bits()) - 1) as u32
    }
}
