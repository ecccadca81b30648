//! The earliest moments of the newest messages of streams.
ghost use Rattle.std.specs.Prelude.{◌≡◌, ◌<◌, None, OnOk};
ghost use Rattle.j39_audit.specs.Counting.{Key, key_of};
ghost use Rattle.j39_audit.specs.Moments.{with_earliest};
ghost use Rattle.j39_audit.specs.inside.Recalling.{earliest_in};

use crate::mark::Mark;
use std::alloc::{AllocError, Global};
use std::collections::HashMap;

/// Of each stream, by its mark, the earliest moment of its newest message, where one is known.
#[derive(Drop)]
pub(crate) struct Earliest {
    pub moments: HashMap<(u8, usize, usize), Option<u64>>,
}

impl Earliest {
    pub fn new(alloc: Global) -> Self
        ensures { (key : Key) → earliest_in result key ≡ None }
    {
        Earliest {
            moments: HashMap::new(alloc),
        }
    }

    /// The earliest moment of the newest message of the stream of a mark, where one is known.
    pub fn of(&self, mark: Mark) -> Option<u64>
        ensures { result ≡ earliest_in self.now (key_of mark) }
    {
        match self
            .moments
            .get(&(mark.word.number(), mark.subject, mark.group))
        {
            Some(moment) => *moment,
            None => None,
        }
    }

    /// Keeps this as that of a stream.
    pub fn set(&mut self, mark: Mark, moment: Option<u64>) -> Result<(), AllocError>
        ensures { OnOk result ((key : Key) → earliest_in self.new key ≡ with_earliest (key_of mark) moment
            (earliest_in self.old) key) }
    {
        let key = (mark.word.number(), mark.subject, mark.group);
        match self.moments.insert(key, moment) {
            Ok(_) => Ok(()),
            Err(_) => Err(AllocError),
        }
    }

    /// Forgets them all.
    pub fn forget(&mut self)
        ensures { (key : Key) → earliest_in self.new key ≡ None }
    {
        self.moments.clear();
    }
}
