//! The words of a line.
ghost use Rattle.std.specs.Prelude.{◌≡◌, ◌<◌, [], ◌∷◌, length, position, not, IfSome, IfNone};
ghost use Rattle.j39_id.specs.FrameLine.{is_separator};
ghost use Rattle.j39_schedule.specs.Schedule.{words_of};

use j39_id::is_separator;

fn word_start(line: &[u8]) -> Option<usize>
    ensures { result ≡ position (λ b. not (is_separator b)) line.now }
{
    line.iter().position(|byte| !is_separator(*byte))
}

fn word_end(line: &[u8]) -> Option<usize>
    ensures { result ≡ position is_separator line.now }
{
    line.iter().position(|byte| is_separator(*byte))
}

/// The first word, and what stands behind it.
pub fn next_word(line: &[u8]) -> Option<(&[u8], &[u8])>
    ensures words { IfSome result (λ found. words_of line.now ≡ found.0.now ∷ words_of found.1.now) }
    ensures some { IfSome result (λ found. 0 < length found.0.now) }
    ensures none { IfNone result (words_of line.now ≡ []) }
{
    let Some(start) = word_start(line) else {
        return None;
    };
    let rest = &line[start..];
    match word_end(rest) {
        Some(end) => Some((&rest[..end], &rest[end + 1..])),
        None => Some((rest, &[])),
    }
}
