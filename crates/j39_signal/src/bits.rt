//! The bits of a payload, by the bytes in which they lie.
ghost use Rattle.std.specs.Prelude.{◌≡◌, ℕ, ◌+◌, ◌-◌, ◌*◌, ◌/◌, ◌%◌, ◌^◌, ◌<◌, ◌≤◌, ◌⊎◌, length, slice_index};
ghost use Rattle.std.specs.Int.{bit_at};
ghost use Rattle.j39_signal.specs.Bits.{bit, number_at};

// The bytes, and zeros after them.
fn padded(bytes: &[u8]) -> [u8; 8]
    requires { length bytes.now ≤ 8 }
    ensures { (i : ℕ) → i < length bytes.now → slice_index result i ≡ slice_index bytes.now i }
{
    let mut all = [0; 8];
    all[..bytes.len()].copy_from_slice(bytes);
    all
}

// The eight bytes from `at` on.
fn eight_bytes(payload: &[u8], at: usize) -> [u8; 8]
    requires { at + 8 ≤ length payload.now }
    ensures { (i : ℕ) → i < 8 → slice_index result i ≡ slice_index payload.now (at + i) }
{
    let mut bytes = [0; 8];
    bytes.copy_from_slice(&payload[at..at + 8]);
    bytes
}

// The bits of `count` bytes from `first` on, as one number: its low bits.
fn window(payload: &[u8], first: usize, count: usize) -> u64
    requires some { 0 < count }
    requires count { count ≤ 8 }
    requires inside { first + count ≤ length payload.now }
    ensures { (j : ℕ) → j < 8 * count → bit_at result j ≡ bit payload.now (8 * first + j) }
{
    if payload.len() < 8 {
        return u64::from_le_bytes(padded(&payload[first..first + count]));
    }
    let at = first.min(payload.len() - 8);
    u64::from_le_bytes(eight_bytes(payload, at)) >> (8 * (first - at))
}

// Sets the bits of `count` bytes from `first` on.
fn set_window(payload: &mut [u8], first: usize, count: usize, number: u64)
    requires count { count ≤ 8 }
    requires inside { first + count ≤ length payload.old }
    ensures inside { (j : ℕ) → j < 8 * count → bit payload.new (8 * first + j) ≡ bit_at number j }
    ensures outside { (j : ℕ) → (j < 8 * first) ⊎ (8 * (first + count) ≤ j) → bit payload.new j ≡ bit payload.old j }
{
    let bytes = number.to_le_bytes();
    payload[first..first + count].copy_from_slice(&bytes[..count]);
}

// As many ones as the width says.
fn mask(width: u8) -> u64
    requires { width ≤ 32 }
    ensures { result ≡ 2 ^ width - 1 }
{
    (1 << width) - 1
}

// How many bytes hold `width` bits from bit `start` on.
fn byte_count(start: u16, width: u8) -> usize
    ensures { result ≡ (start % 8 + width + 7) / 8 }
{
    usize::from((start % 8 + u16::from(width) + 7) / 8)
}

// The number with some bits in the place of its `width` bits from `shift` on.
fn merged(number: u64, bits: u64, shift: u16, width: u8) -> u64
    requires shift { shift < 8 }
    requires width { width ≤ 32 }
    requires range { bits < 2 ^ width }
    ensures inside { (j : ℕ) → j < width → bit_at result (shift + j) ≡ bit_at bits j }
    ensures below { (j : ℕ) → j < shift → bit_at result j ≡ bit_at number j }
    ensures above { (j : ℕ) → shift + width ≤ j → j < 64 → bit_at result j ≡ bit_at number j }
{
    number & !(mask(width) << shift) | bits << shift
}

/// The number of `width` bits from bit `start` on. It is asked for at each signal of a frame.
#[inline(always)]
pub(crate) fn bits_of(payload: &[u8], start: u16, width: u8) -> u32
    requires some { 0 < width }
    requires width { width ≤ 32 }
    requires inside { start + width ≤ 8 * length payload.now }
    ensures value { result ≡ number_at payload.now start width }
    ensures range { result < 2 ^ width }
{
    let window = window(payload, usize::from(start / 8), byte_count(start, width));
    (window >> start % 8 & mask(width)) as u32
}

/// Sets `width` bits from bit `start` on to a number.
pub(crate) fn set_bits(payload: &mut [u8], start: u16, width: u8, number: u32)
    requires some { 0 < width }
    requires width { width ≤ 32 }
    requires inside { start + width ≤ 8 * length payload.old }
    requires range { number < 2 ^ width }
    ensures written { number_at payload.new start width ≡ number }
    ensures others { (j : ℕ) → (j < start) ⊎ (start + width ≤ j) → bit payload.new j ≡ bit payload.old j }
{
    let first = usize::from(start / 8);
    let count = byte_count(start, width);
    let old = window(payload, first, count);
    let new = merged(old, u64::from(number), start % 8, width);
    set_window(payload, first, count, new);
}
