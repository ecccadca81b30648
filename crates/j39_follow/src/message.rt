//! A message of a log, and what it counts as.
ghost use Rattle.std.specs.Prelude.{◌≡◌};
ghost use Rattle.j39_follow.specs.FollowReports.{ended_ident as ident_of_ended, ended_message as message_ended};
ghost use Rattle.j39_follow.specs.FollowReports.{in_frame as message_in_frame};
ghost use Rattle.j39_follow.specs.FollowReports.{reports_receipt as is_receipt};
ghost use Rattle.j39_follow.specs.Received.{turned as turned_ident};
ghost use Rattle.j39_follow.specs.inside.Reporting.{arrived_message};

use j39_id::services::CONNECTION_MANAGEMENT;
use j39_id::{Frame, Ident};

/// A message: its group's number and its bytes, the identifier of its last frame, and the priority of the frame where
/// it came in one.
#[derive(Clone, Copy)]
pub(crate) struct Arrival<'a> {
    pub pgn: u32,
    pub bytes: &'a [u8],
    pub ident: Ident,
    pub framed: Option<u8>,
}

/// The message that came in a frame.
pub(crate) fn in_frame(frame: &Frame) -> Arrival<'_>
    ensures { arrived_message result ≡ message_in_frame frame.now }
{
    Arrival {
        pgn: frame.ident.pgn().number(),
        bytes: frame.payload.as_slice(),
        ident: frame.ident,
        framed: Some(frame.ident.priority),
    }
}

/// The identifier the other way round.
pub(crate) fn turned(ident: Ident) -> Ident
    ensures { result ≡ turned_ident ident }
{
    Ident {
        priority: ident.priority,
        edp: ident.edp,
        dp: ident.dp,
        pf: ident.pf,
        ps: ident.sa,
        sa: ident.ps,
    }
}

// The first byte of the packet by which a receiver says that it has a message whole.
const RECEIPT: u8 = 19;

// Whether a receiver says by a frame that it has a message whole.
fn reports_receipt(frame: &Frame) -> bool
    ensures { result ≡ is_receipt frame.now }
{
    frame.ident.pgn() == CONNECTION_MANAGEMENT && frame.payload.as_slice().first() == Some(&RECEIPT)
}

// The way of the message that a frame ends.
fn ended_ident(frame: &Frame) -> Ident
    ensures { result ≡ ident_of_ended frame.now }
{
    if reports_receipt(frame) {
        turned(frame.ident)
    } else {
        frame.ident
    }
}

/// The message that a frame ends, as far as it says who sent it to whom.
pub(crate) fn ended_message(frame: &Frame) -> Arrival<'_>
    ensures { arrived_message result ≡ message_ended frame.now }
{
    Arrival {
        pgn: frame.ident.pgn().number(),
        bytes: &[],
        ident: ended_ident(frame),
        framed: None,
    }
}

/// What a message counts as.
#[derive(Clone, Copy)]
pub enum Sort {
    /// Of the group at this place, with the place of its flow.
    Grouped(usize, Option<usize>),
    /// Of a number of which it is no group.
    Other(u32),
}

impl Sort {
    ghost use Rattle.std.specs.Prelude.{◌≡◌};
    ghost use Rattle.j39_follow.specs.inside.Reporting.{is_grouped};

    /// Whether it is of a group.
    pub(crate) fn is_grouped(self) -> bool
        ensures { result ≡ is_grouped self }
    {
        match self {
            Sort::Grouped(_, _) => true,
            Sort::Other(_) => false,
        }
    }
}
