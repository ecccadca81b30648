//! The words of a line.
ghost use Rattle.std.specs.Prelude.{◌≡◌, ◌≢◌, ◌==◌, not, ◌-◌, ◌<◌, ◌≤◌, ◌↔◌, ℕ, List, length, slice_index, take, true};
ghost use Rattle.std.specs.Prelude.{false, IfNone, IfSome, IsTrue};
ghost use Rattle.std.specs.List.{All, AllPass, AllWithin, list_all};
ghost use Rattle.j39_id.specs.FrameLine.{Spells, SplitsLast, is_separator as separates};
ghost use Rattle.j39_follow.specs.LogLines.{BeginsWithTime, HasWord, IsDirection, IsFirstWord, IsMarkedLast, IsOfTime};
ghost use Rattle.j39_follow.specs.LogLines.{IsTime};
ghost use Rattle.j39_follow.specs.inside.Splitting.{IsEnclosed, IsWordAt, IsDirectionLetter};

use j39_id::{Frame, is_separator, split_last, words_end};

/// The digits and the point of a time as `candump -L` writes it: seconds and microseconds.
pub(crate) const WHOLE_TIME: usize = 17;

// How many separators stand before the first word of a line.
fn blank_start(line: &[u8]) -> usize
    ensures within { result ≤ length line.now }
    ensures blank { AllWithin (λ c. separates c ≡ true) line.now 0 result }
    ensures ends { result < length line.now → separates (slice_index line.now result) ≡ false }
{
    let mut start = 0;
    while start < line.len() && is_separator(line[start]) {
        start += 1;
    }
    start
}

// How long the word is that a line begins with.
fn word_length(line: &[u8]) -> usize
    ensures within { result ≤ length line.now }
    ensures word { AllWithin (λ c. separates c ≡ false) line.now 0 result }
    ensures parted { result < length line.now → separates (slice_index line.now result) ≡ true }
{
    let mut stop = 0;
    while stop < line.len() && !is_separator(line[stop]) {
        stop += 1;
    }
    stop
}

/// The first word of a line.
pub(crate) fn first_word(line: &[u8]) -> Option<&[u8]>
    ensures found { IfSome result (λ word. IsFirstWord line.now word.now) }
    ensures none { IfNone result (AllPass separates line.now) }
{
    let start = blank_start(line);
    if start == line.len() {
        return None;
    }
    let rest = &line[start..];
    Some(&rest[..word_length(rest)])
}

// Whether a word of this letter says whether a frame was received or transmitted.
fn is_direction(letter: u8) -> bool
    ensures { IsTrue result ↔ IsDirectionLetter letter }
{
    matches!(letter, b'R' | b'T')
}

// Whether what stands before a word parts it from others.
fn is_parted(front: &[u8]) -> bool
    ensures { IsTrue result ↔ (0 < length front.now → separates (slice_index front.now (length front.now - 1)) ≡ true) }
{
    if front.is_empty() {
        return true;
    }
    is_separator(front[front.len() - 1])
}

/// What stands before the last word of a line, where this says whether the frame was received or transmitted.
pub(crate) fn before_direction(line: &[u8]) -> Option<&[u8]>
    ensures found { IfSome result (λ front. (word : List ℕ) × SplitsLast line.now front.now word × IsDirection word) }
    ensures none { IfNone result ((front : List ℕ) (word : List ℕ) → SplitsLast line.now front word
        → ¬ IsDirection word) }
{
    let stop = words_end(line);
    if stop == 0 {
        return None;
    }
    if !is_direction(line[stop - 1]) {
        return None;
    }
    let front = &line[..stop - 1];
    if !is_parted(front) {
        return None;
    }
    Some(front)
}

/// What stands before the last word of a line, which spells this frame.
pub(crate) fn before_frame<'a>(line: &'a [u8], frame: &Frame) -> &'a [u8]
    requires { Spells line.now frame.now }
    ensures { (word : List ℕ) × SplitsLast line.now result.now word }
{
    let size = 9 + 2 * frame.payload.len();
    &line[..words_end(line) - size]
}

// Whether a line begins with these bytes.
fn begins_with(line: &[u8], word: &[u8]) -> bool
    ensures begins { result ≡ true → take (length word.now) line.now ≡ word.now }
    ensures not { result ≡ false → take (length word.now) line.now ≢ word.now }
{
    let size = word.len();
    if line.len() < size {
        return false;
    }
    if &line[..size] == word {
        return true;
    }
    false
}

// Whether a word stands in a line at a place, parted from what is beside it.
fn is_word_at(line: &[u8], place: usize, word: &[u8]) -> bool
    requires { place ≤ length line.now }
    ensures { IsTrue result ↔ IsWordAt line.now place word.now }
{
    if !is_parted(&line[..place]) {
        return false;
    }
    let rest = &line[place..];
    if !begins_with(rest, word) {
        return false;
    }
    is_ended(rest, word.len())
}

/// Whether a word stands in a line.
pub(crate) fn has_word(line: &[u8], word: &[u8]) -> bool
    ensures { IsTrue result ↔ HasWord line.now word.now }
{
    for place in 0..line.len() + 1 {
        if is_word_at(line, place, word) {
            return true;
        }
    }
    false
}

// Whether none of these is a '#'.
fn are_unmarked(bytes: &[u8]) -> bool
    ensures { result ≡ list_all (λ c. not (c == 35)) bytes.now }
{
    bytes.iter().all(|byte| *byte != b'#')
}

/// Whether no word of a line but the last has a '#'.
pub(crate) fn is_marked_last(line: &[u8]) -> bool
    ensures { IsTrue result ↔ IsMarkedLast line.now }
{
    match split_last(line) {
        Some((front, _word)) => are_unmarked(front),
        None => true,
    }
}

// Whether a time has this byte between its parentheses.
fn is_of_time(byte: u8) -> bool
    ensures { IsTrue result ↔ IsOfTime byte }
{
    matches!(byte, b'0'..=b'9' | b'.')
}

// Whether these begin with as many digits and points as a whole time has, looked at together.
#[inline(always)]
fn are_whole_time(bytes: &[u8]) -> bool
    requires { 17 ≤ length bytes.now }
    ensures { result ≡ true → AllWithin IsOfTime bytes.now 0 17 }
{
    let mut all = true;
    for at in 0..WHOLE_TIME {
        if !is_of_time(bytes[at]) {
            all = false;
        }
    }
    all
}

// How many digits and points these begin with, as far as it is reported without a look at each: a whole time, or none.
#[inline(always)]
fn time_start(bytes: &[u8]) -> usize
    ensures within { result ≤ length bytes.now }
    ensures time { AllWithin IsOfTime bytes.now 0 result }
{
    if bytes.len() < WHOLE_TIME {
        return 0;
    }
    if are_whole_time(bytes) { WHOLE_TIME } else { 0 }
}

// How many digits and points these begin with.
fn time_length(bytes: &[u8]) -> usize
    ensures within { result ≤ length bytes.now }
    ensures time { AllWithin IsOfTime bytes.now 0 result }
{
    let mut stop = time_start(bytes);
    while stop < bytes.len() && is_of_time(bytes[stop]) {
        stop += 1;
    }
    stop
}

// Whether a word of so many bytes ends there, with which a line begins.
fn is_ended(line: &[u8], size: usize) -> bool
    ensures { IsTrue result ↔ (size < length line.now → separates (slice_index line.now size) ≡ true) }
{
    if size < line.len() {
        return is_separator(line[size]);
    }
    true
}

/// The time that a line begins with, found in one pass. Lines that have separators in front are left out.
pub(crate) fn leading_time(line: &[u8]) -> Option<&[u8]>
    ensures { IfSome result (λ word. BeginsWithTime line.now word.now) }
{
    if line.is_empty() {
        return None;
    }
    let size = time_length(&line[1..]) + 2;
    if line.len() < size {
        return None;
    }
    let word = &line[..size];
    if !is_enclosed(word) {
        return None;
    }
    if !is_ended(line, size) {
        return None;
    }
    Some(word)
}

// Whether a time has these between its parentheses.
fn are_of_time(bytes: &[u8]) -> bool
    ensures { IsTrue result ↔ All IsOfTime bytes.now }
{
    let mut at = 0;
    while at < bytes.len() && is_of_time(bytes[at]) {
        at += 1;
    }
    at == bytes.len()
}

// Whether a word has the size and the parentheses of a time.
fn is_enclosed(word: &[u8]) -> bool
    ensures { IsTrue result ↔ IsEnclosed word.now }
{
    let size = word.len();
    3 <= size && size <= 32 && word[0] == b'(' && word[size - 1] == b')'
}

/// Whether a word is a time: 1 to 30 digits and points in parentheses.
pub(crate) fn is_time(word: &[u8]) -> bool
    ensures { IsTrue result ↔ IsTime word.now }
{
    if !is_enclosed(word) {
        return false;
    }
    are_of_time(&word[1..word.len() - 1])
}
