//! Conformance tests of the libraries below the bus: signals and layouts of SAE J1939-71, claims of addresses, and
//! transfers of long messages.
#![tactic(auto)]

#[cfg(test)]
mod claims;
#[cfg(test)]
mod groups;
#[cfg(test)]
mod kinds;
#[cfg(test)]
mod packets;
#[cfg(test)]
mod signals;
#[cfg(test)]
mod transfers;
