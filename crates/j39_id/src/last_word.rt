//! The last word of a line.
ghost use Rattle.std.specs.Prelude.{◌≡◌, ◌-◌, ◌<◌, ◌≤◌, true, false, length, slice_index, IfNone, IfSome};
ghost use Rattle.std.specs.List.{AllPass, AllWithin};
ghost use Rattle.j39_id.specs.FrameLine.{SplitsLast, is_separator as separates};

/// Whether it parts the words of a line: a space, a tab or a carriage return.
#[inline(always)]
pub fn is_separator(byte: u8) -> bool
    ensures { result ≡ separates byte }
{
    matches!(byte, b' ' | b'\t' | b'\r')
}

/// Where the words of a line end: nothing but separators stands from there on.
pub fn words_end(line: &[u8]) -> usize
    ensures within { result ≤ length line.now }
    ensures blank { AllWithin (λ c. separates c ≡ true) line.now result (length line.now) }
    ensures ends { 0 < result → separates (slice_index line.now (result - 1)) ≡ false }
{
    let mut stop = line.len();
    while stop > 0 && is_separator(line[stop - 1]) {
        stop -= 1;
    }
    stop
}

// Where the last word begins of a line that ends in one. By itself its loop takes six instructions a byte, within its
// caller ten.
#[inline(never)]
fn word_start(line: &[u8]) -> usize
    requires some { 0 < length line.now }
    requires ends { separates (slice_index line.now (length line.now - 1)) ≡ false }
    ensures start { result < length line.now }
    ensures word { AllWithin (λ c. separates c ≡ false) line.now result (length line.now) }
    ensures parted { 0 < result → separates (slice_index line.now (result - 1)) ≡ true }
{
    let mut start = line.len() - 1;
    while start > 0 && !is_separator(line[start - 1]) {
        start -= 1;
    }
    start
}

/// What stands before the last word of a line, and the word; `None` where the line has none.
pub fn split_last(line: &[u8]) -> Option<(&[u8], &[u8])>
    ensures found { IfSome result (λ parts. SplitsLast line.now parts.0.now parts.1.now) }
    ensures none { IfNone result (AllPass separates line.now) }
{
    let stop = words_end(line);
    if stop == 0 {
        return None;
    }
    let start = word_start(&line[..stop]);
    Some((&line[..start], &line[start..stop]))
}
