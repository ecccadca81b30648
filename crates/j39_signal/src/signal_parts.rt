//! What a signal is made of.

use crate::Kind;
use j39_id::Label;

/// The parts of a signal, in range or not. One that is repeated comes again in further records, and one that is
/// optional stands only in messages that are long enough.
#[derive(Clone, Copy)]
pub struct SignalParts {
    pub(crate) label: Label,
    pub(crate) start: u16,
    pub(crate) bits: u8,
    pub(crate) kind: Kind,
    pub(crate) step: u32,
    pub(crate) offset: i64,
    pub(crate) per: u32,
    pub(crate) unit: Label,
    pub(crate) repeated: bool,
    pub(crate) optional: bool,
}
