//! Signals.
ghost use Rattle.std.specs.Prelude.{◌≡◌, ◌↔◌, ◌≤◌, false, IsTrue, IsSome, IfSome, pos};
ghost use Rattle.j39_signal.specs.Parts.{divides_decimally};

use crate::Kind;
use crate::signal_parts::SignalParts;
use j39_id::Label;
use std::marker::Model;

// 2^23 * 5^10, the greatest powers of both up to 10,000,000.
const DECIMAL_MULTIPLE: u64 = 81_920_000_000_000;

/// A signal of a parameter group: its label, its place in the payload, and how its raw number is scaled. Its numbers
/// are in range.
#[derive(Clone, Copy)]
pub struct Signal {
    parts: SignalParts,
}

impl Model for Signal {
    ghost use Rattle.j39_signal.specs.Parts.{IsSignal, IsDivisor};
    ghost use Rattle.j39_signal.specs.declared.signal_parts.SignalParts.{SignalParts};

    ghost Value = { SignalParts };

    ghost view = { λ s. s.parts };

    ghost invariant = { λ s. IsSignal s.parts.start s.parts.bits s.parts.step s.parts.offset × IsDivisor s.parts.per };

    ghost inverse = { λ p. record { parts = p } };
}

/// Whether a number is 1..=10,000,000 and has no other prime factors than 2 and 5, so that what it divides has finitely
/// many decimals.
pub fn divides_decimally(per: u32) -> bool
    ensures { result ≡ divides_decimally per }
{
    1 <= per && per <= 10_000_000 && DECIMAL_MULTIPLE % u64::from(per) == 0
}

impl Signal {
    ghost use Rattle.j39_signal.specs.Parts.{HasRanges, CanBeSignal, IsDivisor};
    ghost use Rattle.j39_signal.specs.Places.{width_fits, end_of, IsInside, is_inside, is_there, SharesBit, shares_bit};

    /// A signal of `bits` bits from bit `start` of the payload on, both counted from 0. Its values are whole numbers,
    /// and it is neither repeated nor optional.
    ///
    /// None unless `bits` is 1..=64, `step` is 1..=1,000,000 and `offset` is within plus or minus 10^12.
    pub fn new(
        label: Label,
        start: u16,
        bits: u8,
        kind: Kind,
        step: i64,
        offset: i64,
        unit: Label,
    ) -> Option<Self>
        ensures valid { IsSome result ↔ CanBeSignal bits step offset }
        ensures label { IfSome result (λ s. s.label ≡ label) }
        ensures start { IfSome result (λ s. s.start ≡ start) }
        ensures bits { IfSome result (λ s. s.bits ≡ bits) }
        ensures kind { IfSome result (λ s. s.kind ≡ kind) }
        ensures step { IfSome result (λ s. pos s.step ≡ step) }
        ensures offset { IfSome result (λ s. s.offset ≡ offset) }
        ensures per { IfSome result (λ s. s.per ≡ 1) }
        ensures unit { IfSome result (λ s. s.unit ≡ unit) }
        ensures once { IfSome result (λ s. s.repeated ≡ false) }
        ensures always { IfSome result (λ s. s.optional ≡ false) }
    {
        let in_range = 1 <= bits
            && bits <= 64
            && 1 <= step
            && step <= 1_000_000
            && -1_000_000_000_000 <= offset
            && offset <= 1_000_000_000_000;
        if in_range {
            let parts = SignalParts {
                label,
                start,
                bits,
                kind,
                step: step as u32,
                offset,
                per: 1,
                unit,
                repeated: false,
                optional: false,
            };
            Some(Signal { parts })
        } else {
            None
        }
    }

    /// The signal with its values divided by a number.
    ///
    /// None unless the number is 1..=10,000,000 and has no other prime factors than 2 and 5.
    pub fn divided_by(self, per: u32) -> Option<Self>
        ensures valid { IsSome result ↔ IsDivisor per }
        ensures divided { IfSome result (λ s. s ≡ record self { per = per }) }
    {
        if divides_decimally(per) {
            let parts = SignalParts { per, ..self.parts };
            Some(Signal { parts })
        } else {
            None
        }
    }

    /// The signal as one that is repeated, or as one that isn't.
    pub fn with_repeated(self, repeated: bool) -> Self
        ensures { result ≡ record self { repeated = repeated } }
    {
        let parts = SignalParts {
            repeated,
            ..self.parts
        };
        Signal { parts }
    }

    /// The signal as one that only messages have which are long enough, or as one that each message has.
    pub fn with_optional(self, optional: bool) -> Self
        ensures { result ≡ record self { optional = optional } }
    {
        let parts = SignalParts {
            optional,
            ..self.parts
        };
        Signal { parts }
    }

    /// The name of the signal.
    pub fn label(&self) -> &Label
        ensures { result.now ≡ self.now.label }
    {
        &self.parts.label
    }

    /// The place of the lowest bit, counted from 0.
    pub fn start(&self) -> u16
        ensures { result ≡ self.now.start }
    {
        self.parts.start
    }

    /// The width in bits.
    pub fn bits(&self) -> u8
        ensures value { result ≡ self.now.bits }
        ensures ranges { HasRanges self.now }
    {
        self.parts.bits
    }

    /// What the raw numbers mean.
    pub fn kind(&self) -> Kind
        ensures { result ≡ self.now.kind }
    {
        self.parts.kind
    }

    /// How much the value rises from one raw number to the next.
    pub fn step(&self) -> i64
        ensures value { result ≡ pos self.now.step }
        ensures ranges { HasRanges self.now }
    {
        i64::from(self.parts.step)
    }

    /// The value of the raw number 0.
    pub fn offset(&self) -> i64
        ensures value { result ≡ self.now.offset }
        ensures ranges { HasRanges self.now }
    {
        self.parts.offset
    }

    /// What the values are divided by where they are shown: a product of 2s and 5s.
    pub fn per(&self) -> u32
        ensures value { result ≡ self.now.per }
        ensures divisor { IsDivisor result }
    {
        self.parts.per
    }

    /// The unit of the value, empty where it has none.
    pub fn unit(&self) -> &Label
        ensures { result.now ≡ self.now.unit }
    {
        &self.parts.unit
    }

    /// Whether the signal comes again in further records, each some bytes behind the one before.
    pub fn is_repeated(&self) -> bool
        ensures { result ≡ self.now.repeated }
    {
        self.parts.repeated
    }

    /// Whether only messages have the signal which are long enough. It is asked at each signal of a frame.
    #[inline(always)]
    pub fn is_optional(&self) -> bool
        ensures { result ≡ self.now.optional }
    {
        self.parts.optional
    }

    /// Whether the width fits the kind: 8, 16 or 32 bits for a measured signal, 2 for a discrete one, 1..=32 for a raw
    /// one,
    /// 2..=8 for states, 2..=32 for a signed one, and for a trouble code 32 from the first bit of a byte on.
    pub fn width_fits(&self) -> bool
        ensures { result ≡ width_fits self.now.kind self.now.start self.now.bits }
    {
        match self.parts.kind {
            Kind::Measured => self.parts.bits == 8
                || self.parts.bits == 16
                || self.parts.bits == 32,
            Kind::Discrete => self.parts.bits == 2,
            Kind::Raw => 1 <= self.parts.bits && self.parts.bits <= 32,
            Kind::States => 2 <= self.parts.bits && self.parts.bits <= 8,
            Kind::Signed => 2 <= self.parts.bits && self.parts.bits <= 32,
            Kind::Dtc => self.parts.bits == 32 && self.parts.start % 8 == 0,
        }
    }

    /// The first place after the signal, in bits from 0.
    pub fn end(&self) -> u32
        ensures value { result ≡ end_of self.now }
        ensures most { result ≤ 65599 }
    {
        u32::from(self.parts.start) + u32::from(self.parts.bits)
    }

    /// Whether the signal ends within a payload of `length` bytes.
    pub fn is_inside(&self, length: u16) -> bool
        ensures test { result ≡ is_inside length self.now }
        ensures inside { IsTrue result ↔ IsInside length self.now }
    {
        self.end() <= 8 * u32::from(length)
    }

    /// Whether a payload of so many bytes has the signal: an optional one where it ends within them, any other always.
    #[inline(always)]
    #[tactic(auto, using(crate::proofs::There::within_bytes))]
    pub fn is_there(&self, bytes: usize) -> bool
        ensures { result ≡ is_there bytes self.now }
    {
        !self.parts.optional || (self.end() as usize + 7) / 8 <= bytes
    }

    /// Whether some bit belongs to both signals.
    #[tactic(auto, using(crate::proofs::Sharing::shared_by_test))]
    pub fn shares_bit(&self, other: &Signal) -> bool
        ensures test { result ≡ shares_bit self.now other.now }
        ensures shared { IsTrue result ↔ SharesBit self.now other.now }
    {
        u32::from(self.parts.start.max(other.parts.start)) < self.end().min(other.end())
    }
}
