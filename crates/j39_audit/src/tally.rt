//! How often what was found, and at which line first.
ghost use Rattle.std.specs.Prelude.{◌≡◌, ◌<◌, ◌^◌, ◌+◌, ◌∷◌, [], min, OnOk};
ghost use Rattle.j39_audit.specs.Counting.{greater, key_of, most_times, noted_by, occurrences_with, reported_more};
ghost use Rattle.j39_audit.specs.MessageStreams.{nothing_sighted, sighted_as};
ghost use Rattle.j39_audit.specs.Pauses.{unclear_as};
ghost use Rattle.j39_audit.specs.inside.Recalling.{AreCounted, Notes, tallied_at};

use crate::mark::{Mark, Word};
use std::alloc::{AllocError, Global};
use std::collections::HashMap;

/// How often something was found, the number of the first line, a number that belongs to it there, the greatest such
/// number, and the first line to which this belongs.
#[derive(Clone, Copy)]
pub struct Occurrences {
    pub times: u64,
    pub first: u64,
    pub detail: u64,
    pub worst: u64,
    pub worst_at: u64,
}

const NEVER: Occurrences = Occurrences {
    times: 0,
    first: 0,
    detail: 0,
    worst: 0,
    worst_at: 0,
};

/// Of which flow and of which request a frame is seen, for which unit it counts, from which of its groups a message
/// deviates, by their places from 0, and whether it was asked for by none of the plan's requests.
#[derive(Clone, Copy)]
pub struct Sighting {
    pub flow: Option<usize>,
    pub request: Option<usize>,
    pub unit: Option<usize>,
    pub deviating: Option<usize>,
    pub besides: bool,
}

const NOTHING: Sighting = Sighting {
    flow: None,
    request: None,
    unit: None,
    deviating: None,
    besides: false,
};

// With a mark more.
fn sighted(old: Sighting, mark: Mark) -> Sighting
    ensures { result ≡ sighted_as mark.word mark.subject mark.group old }
{
    match mark.word {
        Word::Seen => Sighting {
            flow: Some(mark.subject),
            ..old
        },
        Word::Asked => Sighting {
            request: Some(mark.subject),
            ..old
        },
        Word::Counted => Sighting {
            unit: Some(mark.subject),
            ..old
        },
        Word::Layout | Word::NoFlow | Word::Priority | Word::Answered => Sighting {
            deviating: Some(mark.group),
            ..old
        },
        Word::Besides => Sighting {
            besides: true,
            ..old
        },
        _ => old,
    }
}

// Keeps the place of a flow of which a frame may be a message.
fn note_unclear(unclear: &mut Vec<usize>, mark: Mark) -> Result<(), AllocError>
    ensures { OnOk result (unclear.new.items ≡ unclear_as mark.word mark.subject unclear.old.items) }
{
    match mark.word {
        Word::Unclear => {
            unclear.push(mark.subject)?;
            Ok(())
        }
        _ => Ok(()),
    }
}

// With one line more, of something that was found.
fn again(old: Occurrences, line: u64, detail: u64) -> Occurrences
    ensures { result ≡ occurrences_with (min (old.times + 1) most_times) old.first old.detail
        (greater (old.worst, old.worst_at) line detail) }
{
    let times = old.times.saturating_add(1);
    if old.worst < detail {
        Occurrences {
            times,
            worst: detail,
            worst_at: line,
            ..old
        }
    } else {
        Occurrences { times, ..old }
    }
}

// With one line more.
fn one_more(old: Occurrences, line: u64, detail: u64) -> Occurrences
    ensures { result ≡ reported_more old line detail }
{
    if old.times == 0 {
        Occurrences {
            times: 1,
            first: line,
            detail,
            worst: detail,
            worst_at: line,
        }
    } else {
        again(old, line, detail)
    }
}

/// What was found in a log: of each mark how often, without a look at the others.
#[derive(Drop)]
pub(crate) struct MarkTally {
    pub found: HashMap<(u8, usize, usize), Occurrences>,
    /// Of which flow and request the frame at hand is seen, and for which unit it counts.
    pub sighting: Sighting,
    /// Of which flows it may be a message, where they are several.
    pub unclear: Vec<usize>,
}

impl MarkTally {
    pub fn new(alloc: Global) -> Self
        ensures { AreCounted result [] }
    {
        MarkTally {
            found: HashMap::new(alloc),
            sighting: NOTHING,
            unclear: Vec::new(alloc),
        }
    }

    /// Begins with another frame.
    pub fn look_at_next(&mut self)
        ensures found { self.new.found ≡ self.old.found }
        ensures nothing { self.new.sighting ≡ nothing_sighted }
        ensures clear { self.new.unclear.items ≡ [] }
    {
        self.sighting = NOTHING;
        self.unclear.clear();
    }

    /// What was found of a mark.
    pub fn reported(&self, mark: Mark) -> Occurrences
        ensures { result ≡ tallied_at self.now (key_of mark) }
    {
        match self
            .found
            .get(&(mark.word.number(), mark.subject, mark.group))
        {
            Some(reported) => *reported,
            None => NEVER,
        }
    }

    /// Counts a mark at a line, if it is one by so much.
    pub fn note_by(&mut self, mark: Mark, line: u64, by: Option<u64>) -> Result<(), AllocError>
        ensures { OnOk result (Notes self.old self.new (noted_by mark line by)) }
    {
        match by {
            Some(by) => self.note(mark, line, by),
            None => Ok(()),
        }
    }

    /// Counts a mark at a line.
    pub fn note(&mut self, mark: Mark, line: u64, detail: u64) -> Result<(), AllocError>
        ensures { OnOk result (Notes self.old self.new (record { mark = mark; line = line; detail = detail } ∷ [])) }
    {
        let new = one_more(self.reported(mark), line, detail);
        let key = (mark.word.number(), mark.subject, mark.group);
        self.sighting = sighted(self.sighting, mark);
        note_unclear(&mut self.unclear, mark)?;
        match self.found.insert(key, new) {
            Ok(_) => Ok(()),
            Err(_) => Err(AllocError),
        }
    }
}
