//! What is counted of a log.
ghost use Rattle.std.specs.Prelude.{◌≡◌};

/// What is said of a line or a frame. The first nine accuse, from `NearFlow` on the next eight, and the last four.
#[derive(Clone, Copy)]
pub enum Word {
    /// A line of an 11-bit identifier.
    Short,
    /// A claim by a NAME of no unit.
    Stranger,
    /// A frame from an address at which no unit may be.
    Nobody,
    /// A claim of a unit at an address that isn't its own.
    Address,
    /// A unit says that it can't claim an address.
    Cannot,
    /// A message of a group's number that isn't as the group.
    Layout,
    /// A message of a group that no flow sends there.
    NoFlow,
    /// A message of another priority than its group's.
    Priority,
    /// A frame of a priority that only planned ones have.
    Urgent,
    /// A message of one flow.
    Seen,
    /// A message of one of several flows.
    Unclear,
    /// A request of the plan.
    Asked,
    /// A frame of a unit.
    Counted,
    /// A frame whose sender isn't known.
    Unsure,
    /// A frame before which the log breaks off.
    Break,
    /// A message of a flow too soon behind others.
    NearFlow,
    /// A request too soon behind others.
    NearRequest,
    /// A message of a flow of which the next one comes too late.
    SilentFlow,
    /// A unit that claims nothing when it is asked for claims.
    Deaf,
    /// A packet of a broadcast too soon behind others.
    NearPackets,
    /// A frame of a broadcast of which the next packet comes too late.
    SilentPackets,
    /// A message of a flow too soon behind others, or one was sent later than by load.
    NearOrLate,
    /// One of which the next one comes too late, or one was sent later than by load.
    SilentOrLate,
    /// A message of a group that no flow sends there, and that was asked for.
    Answered,
    /// A message that was asked for.
    Answers,
    /// A message that was asked for by none of the plan's requests.
    Besides,
    /// An announcement of a message that isn't right.
    WrongAnnouncement,
    /// A CTS that is right by no announcement.
    WrongGrant,
    /// A packet that no CTS cleared.
    WrongPacket,
    /// An acknowledgement that is right by no announcement, or before each packet was sent.
    WrongReceipt,
}

impl Word {
    ghost use Rattle.std.specs.Prelude.{◌≡◌};
    ghost use Rattle.j39_audit.specs.Counting.{word_number};

    /// Its place among the words.
    pub fn number(self) -> u8
        ensures { result ≡ word_number self }
    {
        match self {
            Word::Short => 0,
            Word::Stranger => 1,
            Word::Nobody => 2,
            Word::Address => 3,
            Word::Cannot => 4,
            Word::Layout => 5,
            Word::NoFlow => 6,
            Word::Priority => 7,
            Word::Urgent => 8,
            Word::Seen => 9,
            Word::Unclear => 10,
            Word::Asked => 11,
            Word::Counted => 12,
            Word::Unsure => 13,
            Word::Break => 14,
            Word::NearFlow => 15,
            Word::NearRequest => 16,
            Word::SilentFlow => 17,
            Word::Deaf => 18,
            Word::NearPackets => 19,
            Word::SilentPackets => 20,
            Word::NearOrLate => 21,
            Word::SilentOrLate => 22,
            Word::Answered => 23,
            Word::Answers => 24,
            Word::Besides => 25,
            Word::WrongAnnouncement => 26,
            Word::WrongGrant => 27,
            Word::WrongPacket => 28,
            Word::WrongReceipt => 29,
        }
    }
}

/// What is counted: a word, the address or the place from 0 of what it speaks of, and that of a group where it names
/// one.
#[derive(Clone, Copy)]
pub struct Mark {
    pub word: Word,
    pub subject: usize,
    pub group: usize,
}

/// A word that names no group.
pub(crate) fn make_mark(word: Word, subject: usize) -> Mark
    ensures { result ≡ record { word = word; subject = subject; group = 0 } }
{
    Mark {
        word,
        subject,
        group: 0,
    }
}
