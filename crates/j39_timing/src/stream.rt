//! Messages that are queued again and again.

use crate::wants::Want;

/// Who wants the messages of a stream, where this limits them.
#[derive(Clone, Copy)]
pub enum WantedBy {
    /// Its unit, which sends one message at a time: what it wants, by its place among all such.
    Sender(usize),
    /// Those who ask for the messages: what they want.
    Askers(Want),
}

/// Messages of at most `frames` frames, each of at most `bits` bits. The releases of two messages are at least `period`
/// bits apart, which isn't 0, and each frame is queued at most `jitter` bits after the release of its message (release
/// and jitter of Davis and others 2007): 0 where all are queued with it, a period where a message of several frames has
/// ended before the next one begins.
#[derive(Clone, Copy)]
pub struct Stream {
    pub frames: u16,
    pub period: u32,
    pub bits: u16,
    pub jitter: u32,
    /// Where its unit may want less than that of it: what it wants. Where others ask for its messages, these come as
    /// they are wanted, and needn't be a period apart.
    pub wanted: Option<WantedBy>,
}
