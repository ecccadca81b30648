//! What was sent: the groups and flows of messages, and how often each flow was sent and each need was met.

pub(crate) mod endings;
pub(crate) mod group_line;
pub(crate) mod needs;
pub(crate) mod sending;
pub(crate) mod tally;
