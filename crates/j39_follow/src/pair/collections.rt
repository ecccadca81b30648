//! The packets of messages to one unit of each pair of addresses, in whatever order they come.
ghost use Rattle.std.specs.Prelude.{◌≡◌, ◌≢◌, ◌<◌, ◌==◌, ◌||◌, ◌∷◌, [], ℕ, List, None, OnOk, IfOk, if◌then◌else◌};
ghost use Rattle.std.specs.Prelude.{option_map, Some as ASome};
ghost use Rattle.j39_tp.specs.declared.packet.Packet.{Packet as APacket};
ghost use Rattle.j39_log.specs.PairListeners.{is_of_pair, is_pair};
ghost use Rattle.j39_follow.specs.Received.{IsReceivedOr, way_packet};
ghost use Rattle.j39_log.specs.LogPairs.{is_abort as aborts};
ghost use Rattle.j39_follow.specs.inside.Collecting.{reports_whole};
ghost use Rattle.j39_follow.specs.inside.Collecting.{IsCollectedOf, CollectsOn, collected_between, collected_for};
ghost use Rattle.j39_follow.specs.inside.Collecting.{pair_key as key_of_pair};

use crate::pair::collected::Collected;
use crate::pair::collecting::{collect, whole};
use j39_id::{Ident, Pgn};
use j39_tp::{Packet, Size};
use std::alloc::{AllocError, Global};
use std::collections::BTreeMap;

/// What is kept of each pair to which a message was announced whose packets haven't come in order.
#[derive(Drop)]
pub(crate) struct Collections {
    alloc: Global,
    kept: BTreeMap<u32, Collected>,
}

// The number of a pair.
fn pair_key(source: u8, destination: u8) -> u32
    ensures { result ≡ key_of_pair source destination }
{
    u32::from(source) * 256 + u32::from(destination)
}

// Whether a receiver says by a packet that it has a message whole.
fn is_receipt(packet: &Packet) -> bool
    ensures { result ≡ reports_whole packet.now }
{
    match packet {
        Packet::EndAck { .. } => true,
        _ => false,
    }
}

fn is_abort(packet: &Packet) -> bool
    ensures { result ≡ aborts packet.now }
{
    match packet {
        Packet::Abort { .. } => true,
        _ => false,
    }
}

impl Collections {
    pub fn new(alloc: Global) -> Self
        ensures { (source destination : ℕ) → collected_between result source destination ≡ None }
    {
        Collections {
            alloc,
            kept: BTreeMap::new(alloc),
        }
    }

    // A packet of a pair.
    fn turn(&mut self, key: u32, packet: &Packet) -> Result<(), AllocError>
        ensures one { OnOk result (CollectsOn (collected_for self.old key) (collected_for self.new key)
            (packet.now ∷ [])) }
        ensures others { OnOk result ((other : ℕ) → other ≢ key
            → collected_for self.new other ≡ collected_for self.old other) }
    {
        let kept = self.kept.remove(&key);
        let Some(collected) = collect(self.alloc, kept, packet)? else {
            return Ok(());
        };
        match self.kept.insert(key, collected) {
            Ok(_) => Ok(()),
            Err(_) => Err(AllocError),
        }
    }

    // A packet of two pairs, which may be one.
    fn turn_both(&mut self, there: u32, back: u32, packet: &Packet) -> Result<(), AllocError>
        ensures { OnOk result ((key : ℕ) → CollectsOn (collected_for self.old key) (collected_for self.new key)
            (if there == key || back == key then packet.now ∷ [] else [])) }
    {
        self.turn(there, packet)?;
        if back == there {
            return Ok(());
        }
        self.turn(back, packet)
    }

    /// A packet of the pairs that it is of: an Abort is of both ways round, and what says that a message was received
    /// of the other one.
    pub fn hear(&mut self, ident: Ident, packet: &Packet) -> Result<(), AllocError>
        ensures { OnOk result ((source destination : ℕ) → source < 256 → destination < 256
            → CollectsOn (collected_between self.old source destination) (collected_between self.new source destination)
            (way_packet source destination ident (ASome packet.now))) }
    {
        let there = pair_key(ident.sa, ident.ps);
        let back = pair_key(ident.ps, ident.sa);
        if is_receipt(packet) {
            return self.turn(back, packet);
        }
        if is_abort(packet) {
            return self.turn_both(there, back, packet);
        }
        self.turn(there, packet)
    }

    /// The bytes of the message from one address to another that has this size and PGN, as a receiver says that has it
    /// whole; none where its packets came in order, or not all.
    pub fn received(
        &self,
        source: u8,
        destination: u8,
        size: Size,
        pgn: Pgn,
    ) -> Result<Option<Vec<u8>>, AllocError>
        ensures { IfOk result (λ message. (h : List APacket)
            → IsCollectedOf (collected_between self.now source destination) h
            → IsReceivedOr h size pgn (option_map (λ bytes. bytes.items) message)) }
    {
        match self.kept.get(&pair_key(source, destination)) {
            Some(collected) => whole(collected, self.alloc, size, pgn),
            None => Ok(None),
        }
    }

    // The pair begins anew.
    fn close(&mut self, source: u8, destination: u8)
        ensures { (s d : ℕ) → s < 256 → d < 256 → collected_between self.new s d
            ≡ (if is_pair source destination s d then None else collected_between self.old s d) }
    {
        let _ = self.kept.remove(&pair_key(source, destination));
    }

    /// Each pair of this address begins anew.
    pub fn forget(&mut self, address: u8)
        ensures { (s d : ℕ) → s < 256 → d < 256 → collected_between self.new s d
            ≡ (if is_of_pair address s d then None else collected_between self.old s d) }
    {
        for other in 0..256_usize {
            self.close(address, other as u8);
            self.close(other as u8, address);
        }
    }
}
