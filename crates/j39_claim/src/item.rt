//! What units send one another about addresses.
use j39_id::Address;

/// What a unit says of itself (SAE J1939-81, Address Claimed and Cannot Claim).
#[derive(Clone, Copy)]
pub enum Say {
    Claim(Address),
    Cannot,
}

/// What a unit sends to the others: its claim, or that it asks them for their addresses.
#[derive(Clone, Copy)]
pub enum Item {
    AddressClaimed(Say),
    Request,
}
