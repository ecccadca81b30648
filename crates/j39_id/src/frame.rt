//! CAN frames.
use crate::Ident;
use crate::limits::FRAME_BYTES;
use arrayvec::ArrayVec;

/// A CAN data frame with a 29-bit identifier: the identifier and at most eight bytes.
#[derive(Drop)]
pub struct Frame {
    pub ident: Ident,
    pub payload: ArrayVec<u8, FRAME_BYTES>,
}
