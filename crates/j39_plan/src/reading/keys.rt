//! The keys of each table of a plan file, and the version since which each is known, where a table was there before it.
use super::{Key, Version};

/// The keys of a plan file.
pub const TOP_KEYS: [(Key, Version); 12] = [
    (Key::Version, Version::First),
    (Key::KeepFree, Version::Second),
    (Key::Strangers, Version::Fourth),
    (Key::Live, Version::Fourth),
    (Key::Timing, Version::Third),
    (Key::Unit, Version::First),
    (Key::Group, Version::First),
    (Key::Flow, Version::First),
    (Key::Need, Version::Fourth),
    (Key::Request, Version::Fourth),
    (Key::Choice, Version::Fourth),
    (Key::Never, Version::Fourth),
];

/// The keys of the table `timing`.
pub const TIMING_KEYS: [(Key, Version); 8] = [
    (Key::Bitrate, Version::Third),
    (Key::Unplanned, Version::Third),
    (Key::UnplannedPriority, Version::Fourth),
    (Key::TransportPriority, Version::Fourth),
    (Key::BroadcastGap, Version::Fourth),
    (Key::BroadcastGapMost, Version::Fourth),
    (Key::Drift, Version::Fourth),
    (Key::Errors, Version::Fourth),
];

/// The keys of `errors`, the damage that a bus may do.
pub const ERROR_KEYS: [Key; 2] = [Key::Count, Key::Every];

/// The keys of a unit.
pub const UNIT_KEYS: [(Key, Version); 8] = [
    (Key::Label, Version::First),
    (Key::Address, Version::First),
    (Key::Chooser, Version::First),
    (Key::Window, Version::First),
    (Key::Queue, Version::Fourth),
    (Key::Name, Version::First),
    (Key::Claims, Version::Fourth),
    (Key::With, Version::Fourth),
];

/// The keys of a NAME.
pub const NAME_KEYS: [Key; 9] = [
    Key::Identity,
    Key::Manufacturer,
    Key::Ecu,
    Key::FunctionInstance,
    Key::Function,
    Key::System,
    Key::SystemInstance,
    Key::Industry,
    Key::Arbitrary,
];

/// The keys of a group.
pub const GROUP_KEYS: [(Key, Version); 11] = [
    (Key::Label, Version::First),
    (Key::Pgn, Version::First),
    (Key::Priority, Version::First),
    (Key::Length, Version::First),
    (Key::Private, Version::Third),
    (Key::Most, Version::Third),
    (Key::Every, Version::Third),
    (Key::When, Version::Fourth),
    (Key::Signal, Version::First),
    (Key::Text, Version::Third),
    (Key::With, Version::Fourth),
];

/// The keys of `when`, by which groups of one number are distinguished.
pub const SELECTOR_KEYS: [Key; 4] = [Key::Byte, Key::Bit, Key::Bits, Key::Value];

/// The keys of a signal.
pub const SIGNAL_KEYS: [(Key, Version); 13] = [
    (Key::Label, Version::First),
    (Key::Byte, Version::First),
    (Key::Bit, Version::First),
    (Key::Bits, Version::First),
    (Key::Kind, Version::First),
    (Key::Step, Version::First),
    (Key::Per, Version::Third),
    (Key::Offset, Version::First),
    (Key::Unit, Version::First),
    (Key::Repeated, Version::Third),
    (Key::Optional, Version::Fourth),
    (Key::Spn, Version::Fourth),
    (Key::Values, Version::Fourth),
];

/// The keys of a text.
pub const TEXT_KEYS: [Key; 3] = [Key::Label, Key::Byte, Key::Bytes];

/// The keys of a flow.
pub const FLOW_KEYS: [(Key, Version); 9] = [
    (Key::Group, Version::First),
    (Key::From, Version::First),
    (Key::To, Version::First),
    (Key::Period, Version::Third),
    (Key::Deadline, Version::Third),
    (Key::Jitter, Version::Fourth),
    (Key::Pause, Version::Fourth),
    (Key::OnRequest, Version::Fourth),
    (Key::With, Version::Fourth),
];

/// The keys of a need.
pub const NEED_KEYS: [Key; 6] = [
    Key::Unit,
    Key::Group,
    Key::Signal,
    Key::From,
    Key::Within,
    Key::With,
];

/// The keys of a request.
pub const REQUEST_KEYS: [Key; 5] = [Key::Group, Key::From, Key::To, Key::Period, Key::With];
