//! Layouts.
ghost use Rattle.std.specs.Prelude.{◌≡◌, ◌≢◌, ◌↔◌, ℕ, ◌+◌, ◌*◌, ◌<◌, ◌≤◌, length, None, Some, All, IsSome, IsTrue};
ghost use Rattle.std.specs.Prelude.{IfOk, IfErr, IfSome, IfNone, OnOk, OnErr};
ghost use Rattle.std.specs.List.{HoldsAt};
ghost use Rattle.j39_id.specs.FirstFault.{first_fault};
ghost use Rattle.j39_signal.specs.Bits.{Put, raw_of, all_ones};
ghost use Rattle.j39_signal.specs.Laid.{IsBlank, blank};
ghost use Rattle.j39_signal.specs.Selectors.{EndsInside};
ghost use Rattle.j39_signal.specs.Places.{WidthFits, IsInside, IsAlwaysInside, IsThere, SharesBit, LaysOut};
ghost use Rattle.j39_signal.specs.Places.{LaysOutFrom, further};
ghost use Rattle.j39_signal.specs.Refusals.{HasLayoutFault, first_sharer as sharer_of, placement_faults};
ghost use Rattle.j39_signal.specs.State.{shown_of, state_of, state_in_payload, RefusesWrite, WritesValue};

use crate::bits::set_bits;
use crate::{LayoutError, Selector, Shown, Signal, State, WriteError};
use j39_id::limits::MESSAGE_BYTES;
use std::alloc::{AllocError, Global};
use std::marker::Model;

/// Signals that lay out payloads, from the shortest to the longest: each fits its kind and ends within the shortest,
/// one that is optional within the longest, and no two share a bit.
#[derive(Drop)]
pub struct Layout {
    bytes: u16,
    most: u16,
    when: Option<Selector>,
    signals: Vec<Signal>,
}

impl Model for Layout {
    ghost use Rattle.j39_signal.specs.LayoutParts.{LayoutParts};
    ghost use Rattle.j39_signal.specs.Places.{LaysOutFrom};
    ghost use Rattle.j39_signal.specs.Selectors.{EndsInside};

    ghost Value = { LayoutParts };

    ghost view = { λ l. record { length = l.bytes; most = l.most; when = l.when; signals = l.signals.items } };

    ghost invariant = { λ l. LaysOutFrom l.bytes l.most l.signals.items × EndsInside l.bytes l.when };
}

// The place of the first of these signals that shares a bit with another.
fn first_sharer(before: &[Signal], signal: &Signal) -> Option<usize>
    ensures place { result ≡ sharer_of signal.now before.now }
    ensures none { IfNone result (All (λ t. ¬ SharesBit t signal.now) before.now) }
{
    before.iter().position(|other| other.shares_bit(signal))
}

// Why a signal has no place after these.
fn fault_after(before: &[Signal], signal: &Signal, length: u16) -> Option<LayoutError>
    ensures none { IfNone result (WidthFits signal.now × IsInside length signal.now
        × All (λ t. ¬ SharesBit t signal.now) before.now) }
    ensures fault { result ≡ first_fault (placement_faults length before.now signal.now) }
    ensures lasting { IfSome result (λ fault. fault ≢ LayoutError.Memory) }
{
    if !signal.width_fits() {
        return Some(LayoutError::Width(before.len()));
    }
    if !signal.is_inside(length) {
        return Some(LayoutError::Outside(before.len()));
    }
    let first = first_sharer(before, signal)?;
    Some(LayoutError::Overlap(first, before.len()))
}

// Whether the bits of a selector end inside so many bytes.
#[tactic(auto, using(crate::proofs::Blanks::ends_by, crate::proofs::Blanks::ends_not_by, crate::proofs::Blanks::ends_of_none))]
fn ends_inside(when: Option<Selector>, length: u16) -> bool
    ensures { IsTrue result ↔ EndsInside length when }
{
    match when {
        Some(selector) => selector.end() <= 8 * u32::from(length),
        None => true,
    }
}

// So many bytes in which every bit is 1.
fn all_ones(alloc: Global, bytes: u16) -> Result<Vec<u8>, AllocError>
    ensures { IfOk result (λ payload. payload.items ≡ blank bytes) }
{
    vec![in alloc; 255; usize::from(bytes)]
}

// Sets the bits of a selector to its value.
fn select(payload: &mut [u8], selector: Selector)
    requires { selector.start + selector.bits ≤ 8 * length payload.old }
    ensures { (bytes : ℕ) → payload.old ≡ blank bytes → IsBlank (Some selector) payload.new }
{
    set_bits(payload, selector.start, selector.bits, selector.value);
}

// Whether each of these that isn't optional ends within so many bytes.
fn are_always_inside(signals: &[Signal], length: u16) -> bool
    ensures { IsTrue result ↔ All (IsAlwaysInside length) signals.now }
{
    signals
        .iter()
        .all(|signal| signal.is_optional() || signal.is_inside(length))
}

impl Layout {
    /// A layout of payloads of `length` bytes, which have each of the signals.
    pub fn new(alloc: Global, length: u16, signals: &[Signal]) -> Result<Self, LayoutError>
        ensures length { IfOk result (λ l. l.length ≡ length) }
        ensures most { IfOk result (λ l. l.most ≡ length) }
        ensures when { IfOk result (λ l. l.when ≡ None) }
        ensures signals { IfOk result (λ l. l.signals ≡ signals.now) }
        ensures lays_out { OnOk result (LaysOut length signals.now) }
        ensures refused { IfErr result (HasLayoutFault length signals.now) }
    {
        if length < 1 || usize::from(length) > MESSAGE_BYTES {
            return Err(LayoutError::Length);
        }
        for (i, signal) in signals.iter().enumerate() {
            if let Some(fault) = fault_after(&signals[..i], signal, length) {
                return Err(fault);
            }
        }
        let Ok(signals) = Vec::from_slice(alloc, signals) else {
            return Err(LayoutError::Memory);
        };
        Ok(Layout {
            bytes: length,
            most: length,
            when: None,
            signals,
        })
    }

    /// The layout of payloads of `length` bytes and more, up to the longest that it lays out.
    ///
    /// None where the length is 0 or above that of the longest, or where a signal that isn't optional or the selector
    /// ends behind it.
    pub fn from_length(self, length: u16) -> Option<Self>
        ensures valid { IsSome result ↔ ((1 ≤ length) × (length ≤ self.most) × All (IsAlwaysInside length) self.signals
            × EndsInside length self.when) }
        ensures shorter { IfSome result (λ l. l ≡ record self { length = length }) }
    {
        let fits = 1 <= length
            && length <= self.most
            && are_always_inside(&self.signals, length)
            && ends_inside(self.when, length);
        if fits {
            Some(Layout {
                bytes: length,
                ..self
            })
        } else {
            None
        }
    }

    /// The layout of payloads that a selector takes.
    ///
    /// None where the selector's bits end behind the shortest payload.
    pub fn with_selector(self, when: Option<Selector>) -> Option<Self>
        ensures valid { IsSome result ↔ EndsInside self.length when }
        ensures selected { IfSome result (λ l. l ≡ record self { when = when }) }
    {
        if ends_inside(when, self.bytes) {
            Some(Layout { when, ..self })
        } else {
            None
        }
    }

    /// The selector that takes the payloads, if there is one.
    pub fn when(&self) -> Option<Selector>
        ensures { result ≡ self.now.when }
    {
        self.when
    }

    /// The length of the shortest payload in bytes.
    pub fn length(&self) -> u16
        ensures value { result ≡ self.now.length }
        ensures lays_out { LaysOutFrom self.now.length self.now.most self.now.signals }
    {
        self.bytes
    }

    /// The length of the longest payload in bytes.
    pub fn most(&self) -> u16
        ensures { result ≡ self.now.most }
    {
        self.most
    }

    /// How many signals there are.
    pub fn count(&self) -> usize
        ensures { result ≡ length self.now.signals }
    {
        self.signals.len()
    }

    /// The shortest payload in which every bit is 1, so that no signal is available, but for those of a selector, which
    /// have its value.
    pub fn blank(&self, alloc: Global) -> Result<Vec<u8>, AllocError>
        ensures length { IfOk result (λ payload. length payload.items ≡ self.now.length) }
        ensures blank { IfOk result (λ payload. IsBlank self.now.when payload.items) }
        ensures ones { self.now.when ≡ None → IfOk result (λ payload. payload.items ≡ blank self.now.length) }
    {
        self.blank_of(alloc, self.bytes)
    }

    /// A payload of so many bytes in which every bit is 1, but for those of a selector, which have its value.
    #[tactic(auto, using(crate::proofs::Blanks::ends_in))]
    pub fn blank_of(&self, alloc: Global, bytes: u16) -> Result<Vec<u8>, AllocError>
        requires { (self.now.length ≤ bytes) × (bytes ≤ self.now.most) }
        ensures length { IfOk result (λ payload. length payload.items ≡ bytes) }
        ensures blank { IfOk result (λ payload. IsBlank self.now.when payload.items) }
        ensures ones { self.now.when ≡ None → IfOk result (λ payload. payload.items ≡ blank bytes) }
    {
        let mut payload = all_ones(alloc, bytes)?;
        if let Some(selector) = self.when {
            select(&mut payload, selector);
        }
        Ok(payload)
    }

    // The signal at place `i`.
    fn signal(&self, i: usize) -> &Signal
        requires { i < length self.now.signals }
        ensures at { HoldsAt (λ s. s ≡ result.now) self.now.signals i }
        ensures width { WidthFits result.now }
        ensures inside { IsAlwaysInside self.now.length result.now }
    {
        &self.signals[i]
    }

    /// Writes a value of the signal at place `i`, if the payload has it.
    #[tactic(auto, using(crate::proofs::AtPlace::at_place, crate::proofs::There::inside_there, crate::proofs::There::refused_there))]
    pub fn write(&self, payload: &mut [u8], i: usize, value: i64) -> Result<(), WriteError>
        requires place { i < length self.now.signals }
        requires bytes { self.now.length ≤ length payload.old }
        ensures ok { HoldsAt (λ s. OnOk result (WritesValue s value payload.old payload.new)) self.now.signals i }
        ensures refused { HoldsAt (λ s. IfErr result (RefusesWrite (length payload.old) s value)) self.now.signals i }
        ensures unchanged { OnErr result (payload.new ≡ payload.old) }
    {
        let signal = self.signal(i);
        if !signal.is_there(payload.len()) {
            return Err(WriteError::NotThere);
        }
        signal.write(payload, value)
    }

    /// Makes the signal at place `i` not available: sets all its bits to 1, if the payload has it.
    #[tactic(auto, using(crate::proofs::AtPlace::at_place, crate::proofs::There::inside_there))]
    pub fn write_absent(&self, payload: &mut [u8], i: usize)
        requires place { i < length self.now.signals }
        requires bytes { self.now.length ≤ length payload.old }
        ensures there { HoldsAt (λ s. IsThere (length payload.old) s
            → Put s (all_ones s) payload.old payload.new) self.now.signals i }
        ensures not_there { HoldsAt (λ s. (¬ IsThere (length payload.old) s)
            → payload.new ≡ payload.old) self.now.signals i }
    {
        let signal = self.signal(i);
        if signal.is_there(payload.len()) {
            signal.write_absent(payload);
        }
    }

    /// The state of the signal at place `i`, in a payload that may be longer than what is laid out: absent where the
    /// payload doesn't have the signal.
    #[tactic(auto, using(crate::proofs::AtPlace::at_place, crate::proofs::There::inside_there))]
    pub fn read(&self, payload: &[u8], i: usize) -> State
        requires place { i < length self.now.signals }
        requires bytes { self.now.length ≤ length payload.now }
        ensures { HoldsAt (λ s. result ≡ state_in_payload payload.now s) self.now.signals i }
    {
        let signal = self.signal(i);
        if !signal.is_there(payload.len()) {
            return State::Absent;
        }
        signal.read(payload)
    }

    /// The same in a payload that has the signal, so that it isn't asked again whether it does.
    #[tactic(auto, using(crate::proofs::AtPlace::at_place))]
    pub fn read_there(&self, payload: &[u8], i: usize) -> State
        requires place { i < length self.now.signals }
        requires bytes { self.now.length ≤ length payload.now }
        requires there { HoldsAt (λ s. IsThere (length payload.now) s) self.now.signals i }
        ensures { HoldsAt (λ s. result ≡ state_of s (raw_of payload.now s)) self.now.signals i }
    {
        self.signal(i).read(payload)
    }

    /// The state of the signal at place `i` as it stands so many bytes further on, in a payload of any length that has
    /// it.
    #[tactic(auto, using(crate::proofs::AtPlace::at_place))]
    pub fn read_further(&self, payload: &[u8], i: usize, bytes: usize) -> State
        requires place { i < length self.now.signals }
        requires inside { HoldsAt (λ s. IsInside (length payload.now) (further bytes s)) self.now.signals i }
        ensures { HoldsAt (λ s. result ≡ state_of s (raw_of payload.now (further bytes s))) self.now.signals i }
    {
        self.signal(i).read_further(payload, bytes)
    }

    /// The raw number of the signal at place `i` with what it means, in a payload that has the signal and may be longer
    /// than what is laid out.
    #[tactic(auto, using(crate::proofs::AtPlace::at_place))]
    pub fn show(&self, payload: &[u8], i: usize) -> Shown
        requires place { i < length self.now.signals }
        requires bytes { self.now.length ≤ length payload.now }
        requires there { HoldsAt (λ s. IsThere (length payload.now) s) self.now.signals i }
        ensures { HoldsAt (λ s. result ≡ shown_of s (raw_of payload.now s)) self.now.signals i }
    {
        self.signal(i).show(payload)
    }

    /// The same as it stands so many bytes further on, in a payload of any length that has it.
    #[tactic(auto, using(crate::proofs::AtPlace::at_place))]
    pub fn show_further(&self, payload: &[u8], i: usize, bytes: usize) -> Shown
        requires place { i < length self.now.signals }
        requires inside { HoldsAt (λ s. IsInside (length payload.now) (further bytes s)) self.now.signals i }
        ensures { HoldsAt (λ s. result ≡ shown_of s (raw_of payload.now (further bytes s))) self.now.signals i }
    {
        self.signal(i).show_further(payload, bytes)
    }
}
