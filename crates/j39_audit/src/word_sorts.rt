//! Which part of an audit a word speaks of.
ghost use Rattle.std.specs.Prelude.{◌≡◌};
ghost use Rattle.j39_audit.specs.AuditText.{is_of_asking, is_of_broadcasts, is_of_load, is_of_moments};
ghost use Rattle.j39_audit.specs.AuditText.{is_of_sessions, mark_by_bus};

use crate::mark::{Mark, Word};

/// Whether a word speaks of times.
pub(crate) fn is_of_moments(word: Word) -> bool
    ensures { result ≡ is_of_moments word }
{
    matches!(
        word,
        Word::NearFlow | Word::NearRequest | Word::NearPackets | Word::SilentFlow
    )
}

/// Whether a word speaks of times by load.
pub(crate) fn is_of_load(word: Word) -> bool
    ensures { result ≡ is_of_load word }
{
    matches!(word, Word::NearOrLate | Word::SilentOrLate)
}

/// The mark under which what a mark reports by load is found.
pub(crate) fn mark_by_bus(mark: Mark) -> Mark
    ensures { result ≡ mark_by_bus mark }
{
    let word = match mark.word {
        Word::NearOrLate => Word::NearFlow,
        Word::SilentOrLate => Word::SilentFlow,
        _ => mark.word,
    };
    Mark { word, ..mark }
}

/// Whether a word speaks of who is asked for claims.
pub(crate) fn is_of_asking(word: Word) -> bool
    ensures { result ≡ is_of_asking word }
{
    matches!(word, Word::Deaf)
}

/// Whether a word speaks of planned broadcasts.
pub(crate) fn is_of_broadcasts(word: Word) -> bool
    ensures { result ≡ is_of_broadcasts word }
{
    matches!(word, Word::SilentPackets)
}

/// Whether a word speaks of sessions.
pub(crate) fn is_of_sessions(word: Word) -> bool
    ensures { result ≡ is_of_sessions word }
{
    matches!(
        word,
        Word::WrongAnnouncement | Word::WrongGrant | Word::WrongPacket | Word::WrongReceipt
    )
}
