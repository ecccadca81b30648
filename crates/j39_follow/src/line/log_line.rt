//! What a line of a log says beside its frame.
ghost use Rattle.std.specs.Prelude.{◌≡◌, ◌≢◌, ◌↔◌, ℕ, List, Some, true, false, IfErr, IfNone, IfOk, IfSome, IsTrue};
ghost use Rattle.std.specs.Option.{option_copied};
ghost use Rattle.j39_id.specs.FrameLine.{HasLineFault, IsLastWord, Spells};
ghost use Rattle.j39_follow.specs.LogLines.{IsElsewhere, IsInterface, IsReadPart, IsTime, IsTimeText, LooksElsewhere};

use crate::line::words::{
    before_direction, before_frame, first_word, has_word, is_marked_last, is_time, leading_time,
};
use j39_id::{Frame, LineError, split_last};

/// The part of a line that is read: what stands before a word of direction, else all of it.
pub fn read_part(line: &[u8]) -> &[u8]
    ensures { IsReadPart line.now result.now }
{
    let Some(front) = before_direction(line) else {
        return line;
    };
    match split_last(front) {
        Some(_words) => front,
        None => line,
    }
}

// The last word of what stands before the last word of a line, where it isn't a time.
fn interface_in(front: &[u8]) -> Option<&[u8]>
    ensures named { IfSome result (λ interface. IsLastWord front.now interface.now × ¬ IsTime interface.now) }
    ensures none { IfNone result ((interface : List ℕ) → IsLastWord front.now interface → IsTime interface) }
{
    let Some((_rest, interface)) = split_last(front) else {
        return None;
    };
    if is_time(interface) {
        return None;
    }
    Some(interface)
}

// The interface that the part of a line names that is read, as a frame or not.
pub fn interface<'a>(part: &'a [u8], read: &Result<Frame, LineError>) -> Option<&'a [u8]>
    requires { IfOk read.now (λ f. Spells part.now f) }
    ensures named { IfSome result (λ interface. IsInterface part.now interface.now) }
    ensures none { IfNone result ((interface : List ℕ) → ¬ IsInterface part.now interface) }
{
    match read {
        Ok(frame) => interface_in(before_frame(part, frame)),
        Err(_fault) => match split_last(part) {
            Some((front, _word)) => interface_in(front),
            None => None,
        },
    }
}

// Whether a line that spells no frame looks like one of another interface than this.
#[inline(never)]
fn looks_elsewhere(log: &[u8], part: &[u8]) -> bool
    ensures { IsTrue result ↔ LooksElsewhere log.now part.now }
{
    let Some(word) = first_word(part) else {
        return false;
    };
    if !is_time(word) {
        return false;
    }
    if has_word(part, log) {
        return false;
    }
    is_marked_last(part)
}

// Whether two words are one.
fn is_same(word: &[u8], other: &[u8]) -> bool
    ensures same { result ≡ true → word.now ≡ other.now }
    ensures other { result ≡ false → word.now ≢ other.now }
{
    if word == other {
        return true;
    }
    false
}

// Whether the part of a line that is read, as a frame or not, and names an interface, is of another one than the log's.
fn is_other(log: &[u8], part: &[u8], read: &Result<Frame, LineError>, name: &[u8]) -> bool
    requires found { IfOk read.now (λ f. Spells part.now f) }
    requires refused { IfErr read.now (λ e. HasLineFault part.now e) }
    ensures { IsTrue result ↔ IsElsewhere (Some log.now) part.now (Some name.now) }
{
    if is_same(log, name) {
        return false;
    }
    match read {
        Ok(_frame) => true,
        Err(_fault) => looks_elsewhere(log, part),
    }
}

/// Whether the part of a line that is read, as a frame or not, names another interface than the log's.
pub fn is_elsewhere(
    log: Option<&[u8]>,
    part: &[u8],
    read: &Result<Frame, LineError>,
    named: Option<&[u8]>,
) -> bool
    requires found { IfOk read.now (λ f. Spells part.now f) }
    requires refused { IfErr read.now (λ e. HasLineFault part.now e) }
    ensures { IsTrue result ↔ IsElsewhere (option_copied log.entry) part.now (option_copied named.entry) }
{
    let Some(log) = log else {
        return false;
    };
    let Some(name) = named else {
        return false;
    };
    is_other(log, part, read, name)
}

/// What is printed of the time of a line: its first word, where that is a time.
pub fn time_text(line: &[u8]) -> &[u8]
    ensures { IsTimeText line.now result.now }
{
    match leading_time(line) {
        Some(time) => time,
        None => first_time(line),
    }
}

// The same, by the first word wherever it begins.
fn first_time(line: &[u8]) -> &[u8]
    ensures { IsTimeText line.now result.now }
{
    let Some(word) = first_word(line) else {
        return b"-";
    };
    if is_time(word) { word } else { b"-" }
}
