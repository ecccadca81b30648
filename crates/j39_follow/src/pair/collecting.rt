//! The packets of a message to one unit, in whatever order they come.
ghost use Rattle.std.specs.Prelude.{◌≡◌, ◌<◌, ◌==◌, ◌&&◌, ◌+◌, ◌∷◌, [], ℕ, List, Some, Option, length, IfOk};
ghost use Rattle.std.specs.Prelude.{if◌then◌else◌};
ghost use Rattle.std.specs.Prelude.{option_map};
ghost use Rattle.j39_tp.specs.declared.packet.Packet.{Packet as APacket};
ghost use Rattle.j39_tp.specs.declared.packet.Packet.TheVariants.{Dt as Data, Rts as AStart};
ghost use Rattle.j39_follow.specs.inside.Collecting.{Closes, HasBytes, IsCollected, IsMoreOf, IsOpened, CollectsOn};
ghost use Rattle.j39_follow.specs.inside.Collecting.{chunk_at};
ghost use Rattle.j39_follow.specs.Received.{IsReceivedOr};
ghost use Rattle.j39_follow.specs.declared.pair.collected.Collected.{Collected as ACollected};
ghost use Rattle.j39_tp.specs.Chunks.{packets_of};

use crate::pair::collected::Collected;
use j39_id::Pgn;
use j39_tp::{Chunk, Packet, Size};
use std::alloc::{AllocError, Global};

// The bytes of packets 1 to this one, unless one of them didn't come.
fn bytes_to(
    alloc: Global,
    chunks: &[Option<Chunk>],
    last: usize,
) -> Result<Option<Vec<u8>>, AllocError>
    requires { last < length chunks.now }
    ensures { IfOk result (λ bytes. HasBytes chunks.now last bytes) }
{
    let mut bytes = Vec::new(alloc);
    for number in 0..last {
        let Some(chunk) = &chunks[number + 1] else {
            return Ok(None);
        };
        bytes.extend_from_slice(chunk)?;
    }
    Ok(Some(bytes))
}

// Whether a message is of this size and PGN.
fn is_of_message(collected: &Collected, size: Size, pgn: Pgn) -> bool
    ensures { result ≡ (collected.now.size == size && collected.now.pgn == pgn) }
{
    collected.size == size && collected.pgn == pgn
}

fn is_of(collected: &Collected, pgn: Pgn) -> bool
    ensures { result ≡ (collected.now.pgn == pgn) }
{
    collected.pgn == pgn
}

// Whether all packets came in order.
fn is_in_order(collected: &Collected) -> bool
    ensures { result ≡ (collected.now.held == packets_of collected.now.size) }
{
    collected.held == collected.size.packets()
}

// All bytes of the packets that came, unless one didn't.
fn all_bytes(collected: &Collected, alloc: Global) -> Result<Option<Vec<u8>>, AllocError>
    ensures { IfOk result (λ bytes. HasBytes collected.now.chunks.items (packets_of collected.now.size) bytes) }
{
    bytes_to(
        alloc,
        &collected.chunks,
        usize::from(collected.size.packets()),
    )
}

// Nothing yet of a message that is announced.
fn opened(alloc: Global, size: Size, pgn: Pgn) -> Result<Collected, AllocError>
    ensures { IfOk result (λ c. IsOpened size pgn c) }
{
    let chunks = vec![in alloc; None; usize::from(size.packets()) + 1]?;
    Ok(Collected {
        size,
        pgn,
        held: 0,
        chunks,
    })
}

// Keeps what came of a packet, in the place of what came of it before.
fn keep(chunks: &mut Vec<Option<Chunk>>, number: u8, chunk: Chunk)
    ensures count { length chunks.new.items ≡ length chunks.old.items }
    ensures kept { (k : ℕ) → k < length chunks.old.items
        → chunk_at chunks.new.items k ≡ (if number == k then Some chunk else chunk_at chunks.old.items k) }
{
    let place = usize::from(number);
    if place < chunks.len() {
        chunks[place] = Some(chunk);
    }
}

// One packet more.
fn added(mut collected: Collected, number: u8, chunk: Chunk) -> Collected
    ensures { IsMoreOf collected number chunk result }
{
    keep(&mut collected.chunks, number, chunk);
    if usize::from(number) == usize::from(collected.held) + 1 {
        collected.held = number;
    }
    collected
}

// What is kept once a data packet came. Of a message whose packets came in order nothing is.
fn with_data(collected: Option<Collected>, number: u8, chunk: Chunk) -> Option<Collected>
    ensures { CollectsOn collected result (Data number chunk ∷ []) }
{
    let Some(collected) = collected else {
        return None;
    };
    let collected = added(collected, number, chunk);
    if is_in_order(&collected) {
        None
    } else {
        Some(collected)
    }
}

// What is kept behind a packet that ends a message of a PGN.
fn without(collected: Option<Collected>, pgn: Pgn) -> Option<Collected>
    ensures { (p : APacket) → Closes pgn p → CollectsOn collected result (p ∷ []) }
{
    let Some(collected) = collected else {
        return None;
    };
    if is_of(&collected, pgn) {
        None
    } else {
        Some(collected)
    }
}

// What is kept behind the announcement of a message to one.
fn started(alloc: Global, size: Size, pgn: Pgn) -> Result<Option<Collected>, AllocError>
    ensures { IfOk result (λ new. (old : Option ACollected) (limit : ℕ)
        → CollectsOn old new (AStart size limit pgn ∷ [])) }
{
    let _ = size.bytes();
    let collected = opened(alloc, size, pgn)?;
    Ok(Some(collected))
}

/// What is kept of the packets of a pair once one more came.
pub(crate) fn collect(
    alloc: Global,
    collected: Option<Collected>,
    packet: &Packet,
) -> Result<Option<Collected>, AllocError>
    ensures { IfOk result (λ new. CollectsOn collected new (packet.now ∷ [])) }
{
    match *packet {
        Packet::Rts { size, pgn, .. } => started(alloc, size, pgn),
        Packet::Bam { .. } => Ok(None),
        Packet::Dt { number, chunk } => Ok(with_data(collected, number, chunk)),
        Packet::Abort { pgn, .. } => Ok(without(collected, pgn)),
        Packet::EndAck { pgn, .. } => Ok(without(collected, pgn)),
        Packet::Cts { .. } => Ok(collected),
    }
}

/// The bytes of the message, unless it has another size or PGN, or one of its packets didn't come.
pub(crate) fn whole(
    collected: &Collected,
    alloc: Global,
    size: Size,
    pgn: Pgn,
) -> Result<Option<Vec<u8>>, AllocError>
    ensures { IfOk result (λ message. (h : List APacket) → IsCollected collected.now h
        → IsReceivedOr h size pgn (option_map (λ bytes. bytes.items) message)) }
{
    if !is_of_message(collected, size, pgn) {
        return Ok(None);
    }
    let Some(mut bytes) = all_bytes(collected, alloc)? else {
        return Ok(None);
    };
    bytes.truncate(usize::from(size.bytes()));
    Ok(Some(bytes))
}
