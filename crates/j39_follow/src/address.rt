//! Who stands behind the addresses of a log: who holds them, who contests them, and what changes hands.

pub(crate) mod changed_hands;
pub(crate) mod claim;
pub(crate) mod claimants;
pub(crate) mod contest;
pub(crate) mod contests;
pub(crate) mod directory;
pub(crate) mod holders;
pub(crate) mod known_parties;
pub(crate) mod naming;
pub(crate) mod party_text;
pub(crate) mod taking;
pub(crate) mod who;
