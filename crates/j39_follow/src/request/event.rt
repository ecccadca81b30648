//! What concerns requests in a log.
use crate::flow::sending::Aim;

/// A number of a group, the unit that sent it, if it is one of the plan, and for whom.
#[derive(Clone, Copy)]
pub struct Reply {
    pub number: u32,
    pub sender: Option<usize>,
    pub aim: Aim,
}

/// What a frame reports of requests.
#[derive(Clone, Copy)]
pub enum Event {
    /// The request at this place was asked.
    Asked(usize),
    /// A message came.
    Brought(Reply),
    /// A unit reported that a group doesn't come.
    Refused(Reply),
}
