//! A listener for each pair of addresses.
ghost use Rattle.std.specs.Prelude.{◌≡◌, ◌≢◌, ◌<◌, ◌==◌, ℕ, [], true, false, vec_len, None, OnOk, IfOk, IfSome, IfNone};
ghost use Rattle.std.specs.Prelude.{if◌then◌else◌};
ghost use Rattle.j39_tp.specs.Packets.{is_announcement};
ghost use Rattle.j39_tp.specs.Receiver.{fresh, message_of, receives};
ghost use Rattle.j39_tp.specs.declared.receiving.manner.Manner.TheVariants.{Listening};
ghost use Rattle.j39_log.specs.PairListeners.{HasListener, completed_group, is_of_pair, is_pair};
ghost use Rattle.j39_log.specs.PairListeners.{listener_at, listener_in, listener_of_pair, slots_at};
ghost use Rattle.j39_log.specs.LogPairs.{is_abort as aborts, is_heard_by};

use j39_id::{Ident, Pgn};
use j39_tp::{Packet, Receiver};
use std::alloc::{AllocError, Global};

// A place for the listener of one source to each destination, up to the greatest that was announced to.
type Row = Vec<Option<Box<Receiver>>>;

/// A listener for each pair of addresses that had an announcement: a row for each source, up to the greatest that
/// announced.
#[derive(Drop)]
pub struct Listeners {
    alloc: Global,
    rows: Vec<Row>,
}

fn is_abort(packet: &Packet) -> bool
    ensures { result ≡ aborts packet.now }
{
    match packet {
        Packet::Abort { .. } => true,
        _ => false,
    }
}

// Places up to this destination.
fn lengthen(row: &mut Row, destination: usize) -> Result<(), AllocError>
    ensures same { (d : ℕ) → listener_at row.new.items d ≡ listener_at row.old.items d }
    ensures there { OnOk result (destination < vec_len row.new) }
{
    while row.len() <= destination {
        row.push(None)?;
    }
    Ok(())
}

// Rows up to this source.
fn add_rows(alloc: Global, rows: &mut Vec<Row>, source: usize) -> Result<(), AllocError>
    ensures same { (s : ℕ) → slots_at rows.new.items s ≡ slots_at rows.old.items s }
    ensures there { OnOk result (source < vec_len rows.new) }
{
    while rows.len() <= source {
        rows.push(Vec::new(alloc))?;
    }
    Ok(())
}

// A listener in the slot, if there is none.
fn fill(alloc: Global, slot: &mut Option<Box<Receiver>>) -> Result<(), AllocError>
    ensures same { listener_in slot.new ≡ listener_in slot.old }
    ensures filled { OnOk result (slot.new ≢ None) }
{
    if slot.is_none() {
        let Ok(listener) = Box::new(alloc, Receiver::listener()) else {
            return Err(AllocError);
        };
        *slot = Some(listener);
    }
    Ok(())
}

// The group of the message that the packet completes of a listener.
fn hear_by_one(listener: &mut Receiver, packet: &Packet) -> Option<Pgn>
    ensures heard { listener.new ≡ receives listener.old packet.now }
    ensures group { result ≡ completed_group listener.old packet.now }
{
    if listener.hear(packet).is_complete() {
        listener.group()
    } else {
        None
    }
}

// The group of the message that the packet completes of the listener in the slot.
fn hear_in(slot: &mut Option<Box<Receiver>>, packet: &Packet) -> Option<Pgn>
    requires { is_announcement packet.now ≡ true → slot.old ≢ None }
    ensures heard { listener_in slot.new ≡ receives (listener_in slot.old) packet.now }
    ensures group { result ≡ completed_group (listener_in slot.old) packet.now }
{
    match slot {
        Some(listener) => hear_by_one(listener, packet),
        None => None,
    }
}

// A listener at a place of a row, if there is none.
fn open_in(alloc: Global, row: &mut Row, destination: usize) -> Result<(), AllocError>
    ensures same { (d : ℕ) → listener_at row.new.items d ≡ listener_at row.old.items d }
    ensures open { OnOk result (HasListener row.new.items destination) }
{
    lengthen(row, destination)?;
    fill(alloc, &mut row[destination])
}

// The group of the message that the packet completes of the listener at a place of a row.
fn hear_at(row: &mut Row, destination: usize, packet: &Packet) -> Option<Pgn>
    requires { is_announcement packet.now ≡ true → HasListener row.old.items destination }
    ensures heard { listener_at row.new.items destination
        ≡ receives (listener_at row.old.items destination) packet.now }
    ensures others { (d : ℕ) → d ≢ destination → listener_at row.new.items d ≡ listener_at row.old.items d }
    ensures group { result ≡ completed_group (listener_at row.old.items destination) packet.now }
{
    if row.len() <= destination {
        return None;
    }
    hear_in(&mut row[destination], packet)
}

// No listener at a place of a row.
fn empty(row: &mut Row, destination: usize)
    ensures { (d : ℕ) → listener_at row.new.items d
        ≡ (if destination == d then fresh Listening else listener_at row.old.items d) }
{
    if row.len() <= destination {
        return;
    }
    row[destination] = None;
}

impl Listeners {
    pub fn new(alloc: Global) -> Self
        ensures { result.rows.items ≡ [] }
    {
        Listeners {
            alloc,
            rows: Vec::new(alloc),
        }
    }

    // A listener of the pair, if there is none.
    fn open(&mut self, source: usize, destination: usize) -> Result<(), AllocError>
        ensures same { (s d : ℕ) → listener_of_pair self.new.rows.items s d ≡ listener_of_pair self.old.rows.items s d }
        ensures open { OnOk result (HasListener (slots_at self.new.rows.items source) destination) }
    {
        add_rows(self.alloc, &mut self.rows, source)?;
        open_in(self.alloc, &mut self.rows[source], destination)
    }

    // The group of the message of the pair that the packet completes. The pair has a listener where the packet opens a
    // session.
    fn hear_by(&mut self, source: usize, destination: usize, packet: &Packet) -> Option<Pgn>
        requires { is_announcement packet.now ≡ true → HasListener (slots_at self.old.rows.items source) destination }
        ensures heard { listener_of_pair self.new.rows.items source destination
            ≡ receives (listener_of_pair self.old.rows.items source destination) packet.now }
        ensures others { (s d : ℕ) → is_pair source destination s d ≡ false
            → listener_of_pair self.new.rows.items s d ≡ listener_of_pair self.old.rows.items s d }
        ensures group { result ≡ completed_group (listener_of_pair self.old.rows.items source destination) packet.now }
    {
        if self.rows.len() <= source {
            return None;
        }
        hear_at(&mut self.rows[source], destination, packet)
    }

    /// The group of the message that the packet completes of the pair that hears it.
    pub fn hear(
        &mut self,
        source: u8,
        destination: u8,
        packet: &Packet,
    ) -> Result<Option<Pgn>, AllocError>
        ensures heard { OnOk result (listener_of_pair self.new.rows.items source destination
            ≡ receives (listener_of_pair self.old.rows.items source destination) packet.now) }
        ensures others { (s d : ℕ) → is_pair source destination s d ≡ false
            → listener_of_pair self.new.rows.items s d ≡ listener_of_pair self.old.rows.items s d }
        ensures group { IfOk result (λ group. group ≡ completed_group
            (listener_of_pair self.old.rows.items source destination) packet.now) }
    {
        let source = usize::from(source);
        let destination = usize::from(destination);
        if packet.is_announcement() {
            self.open(source, destination)?;
        }
        Ok(self.hear_by(source, destination, packet))
    }

    // The pair begins anew.
    fn close(&mut self, source: usize, destination: usize)
        ensures { (s d : ℕ) → listener_of_pair self.new.rows.items s d
            ≡ (if is_pair source destination s d then fresh Listening else listener_of_pair self.old.rows.items s d) }
    {
        if self.rows.len() <= source {
            return;
        }
        empty(&mut self.rows[source], destination);
    }

    /// Each pair of this address begins anew.
    pub fn forget(&mut self, address: u8)
        ensures { (s d : ℕ) → s < 256 → d < 256 → listener_of_pair self.new.rows.items s d
            ≡ (if is_of_pair address s d then fresh Listening else listener_of_pair self.old.rows.items s d) }
    {
        let place = usize::from(address);
        for other in 0..256 {
            self.close(place, other);
            self.close(other, place);
        }
    }

    // The listener of a pair.
    fn listener(&self, source: u8, destination: u8) -> Option<&Receiver>
        ensures some { IfSome result (λ listener. listener.now
            ≡ listener_of_pair self.now.rows.items source destination) }
        ensures none { IfNone result (listener_of_pair self.now.rows.items source destination ≡ fresh Listening) }
    {
        let row = self.rows.get(usize::from(source))?;
        match row.get(usize::from(destination)) {
            Some(Some(listener)) => Some(listener),
            _ => None,
        }
    }

    /// The bytes of the message that a pair completed last, until the next announcement; else none.
    pub fn bytes(&self, source: u8, destination: u8) -> &[u8]
        ensures { result.now ≡ message_of (listener_of_pair self.now.rows.items source destination).progress
            (listener_of_pair self.now.rows.items source destination).bytes }
    {
        match self.listener(source, destination) {
            Some(listener) => listener.bytes(),
            None => &[],
        }
    }
}

/// The group of the message that the packet completes of the pair that it is sent from and to. An Abort is heard both
/// ways round.
pub fn listen(
    listeners: &mut Listeners,
    ident: Ident,
    packet: &Packet,
) -> Result<Option<Pgn>, AllocError>
    ensures heard { OnOk result ((source destination : ℕ) → source < 256 → destination < 256
        → listener_of_pair listeners.new.rows.items source destination
        ≡ (if is_heard_by source destination ident packet.now
        then receives (listener_of_pair listeners.old.rows.items source destination) packet.now
        else listener_of_pair listeners.old.rows.items source destination)) }
    ensures group { IfOk result (λ group. group ≡ completed_group
        (listener_of_pair listeners.old.rows.items ident.sa ident.ps) packet.now) }
{
    if is_abort(packet) && ident.sa != ident.ps {
        listeners.hear(ident.ps, ident.sa, packet)?;
    }
    listeners.hear(ident.sa, ident.ps, packet)
}
