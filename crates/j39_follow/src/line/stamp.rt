//! What stands before a report: the number of the line, and its time.
ghost use Rattle.std.specs.Prelude.{◌≡◌, ◌++◌, OnOk};
ghost use Rattle.j39_follow.specs.inside.Reporting.{front_of};

use j39_text::{TextBuffer, WriteResult};

/// The number of a line, counted from 1, and what is printed of its time.
#[derive(Clone, Copy)]
pub(crate) struct Stamp<'a> {
    pub number: u64,
    pub time: &'a [u8],
}

#[tactic(auto, unfolding(crate::specs::FollowReports::stamp))]
pub(crate) fn write_stamp(text: &mut TextBuffer, stamp: Stamp<'_>) -> WriteResult
    ensures { OnOk result (text.new ≡ text.old ++ front_of stamp.entry) }
{
    text.number(stamp.number)?;
    text.word(" ")?;
    text.bytes(stamp.time)?;
    text.word(" ")
}
