//! The groups by which the network itself runs (SAE J1939-21 and SAE J1939-81).
ghost use Rattle.std.specs.Prelude.{◌≡◌};
ghost use Rattle.j39_id.specs.Services.{is_service};

use crate::Pgn;

/// A positive or negative answer.
pub const ACKNOWLEDGEMENT: Pgn = Pgn { number: 59392 };

/// Asks for a group, whose number it carries.
pub const REQUEST: Pgn = Pgn { number: 59904 };

/// TP.DT: data of the transport protocol.
pub const DATA_TRANSFER: Pgn = Pgn { number: 60160 };

/// TP.CM: connection management of the transport protocol.
pub const CONNECTION_MANAGEMENT: Pgn = Pgn { number: 60416 };

/// Address claimed and, from the null address, cannot claim address: both carry the NAME of the unit.
pub const ADDRESS_CLAIMED: Pgn = Pgn { number: 60928 };

/// Asks a unit to take another address.
pub const COMMANDED_ADDRESS: Pgn = Pgn { number: 65240 };

/// The priority of a request and of an address claimed.
pub const CLAIM_PRIORITY: u8 = 6;

/// The priority of TP.DT and TP.CM.
pub const TRANSPORT_PRIORITY: u8 = 7;

/// All of them.
pub const SERVICE_GROUPS: [Pgn; 6] = [
    ACKNOWLEDGEMENT,
    REQUEST,
    DATA_TRANSFER,
    CONNECTION_MANAGEMENT,
    ADDRESS_CLAIMED,
    COMMANDED_ADDRESS,
];

/// Whether the number is that of one of them.
pub fn is_service(number: u32) -> bool
    ensures { result ≡ is_service number }
{
    SERVICE_GROUPS
        .iter()
        .any(|service| service.number() == number)
}
