//! Messages that were received.

/// A message that a unit received whole: who received it, who sent it and by which flow, all by place from 0, and
/// whether its frame was sent alone.
#[derive(Drop)]
pub struct Report {
    pub receiver: usize,
    pub sender: usize,
    pub flow: usize,
    pub bytes: Vec<u8>,
    pub alone: bool,
}
