//! What is on the wire between units: what one sent of a message and another has not taken yet.
ghost use Rattle.std.specs.Prelude.{◌≡◌, ◌<◌, [], ◌∷◌, drop, not, length, IfNone, IfSome, OnOk};
ghost use Rattle.std.specs.List.{list_all};
ghost use Rattle.j39_bus.specs.Queued.{IsTable, pair_in};
ghost use Rattle.j39_world.specs.Resting.{is_of_sender, is_of_receiver};
ghost use Rattle.j39_bus.specs.inside.KeptMessages.{AreUnits, HasRoomTo};
ghost use Rattle.j39_world.specs.Transfers.{added};

use crate::queues::Queues;
use j39_tp::Packet;
use j39_world::Wired;
use std::alloc::AllocError;
use std::collections::VecDeque;

/// The oldest item of one unit that another has not taken yet.
pub(crate) fn oldest(wire: &Queues<Wired>, from: usize, to: usize) -> Option<&Wired>
    requires from { from < length wire.now.lists }
    requires to { to < length wire.now.lists }
    ensures some { IfSome result (λ item. pair_in wire.now.lists from to ≡ item.now
        ∷ drop 1 (pair_in wire.now.lists from to)) }
    ensures none { IfNone result (pair_in wire.now.lists from to ≡ []) }
{
    let queue = wire.between(from, to);
    queue.front()
}

/// Makes room for one item from a unit to each of these.
pub(crate) fn reserve_each(
    wire: &mut Queues<Wired>,
    from: usize,
    targets: &[usize],
) -> Result<(), AllocError>
    requires from { from < length wire.old.lists }
    requires targets { AreUnits (length wire.old.lists) targets.now }
    ensures lists { wire.new.lists ≡ wire.old.lists }
    ensures room { OnOk result (HasRoomTo wire.new from targets.now) }
{
    for target in targets {
        wire.reserve(from, *target, 1)?;
    }
    Ok(())
}

/// Adds an item from a unit to each of these, where there is room for it.
pub(crate) fn post_each(wire: &mut Queues<Wired>, from: usize, targets: &[usize], item: &Wired)
    requires table { IsTable (length wire.old.lists) wire.old.lists }
    requires from { from < length wire.old.lists }
    requires targets { AreUnits (length wire.old.lists) targets.now }
    requires room { HasRoomTo wire.old from targets.now }
    ensures table { IsTable (length wire.old.lists) wire.new.lists }
    ensures lists { pair_in wire.new.lists ≡ added (pair_in wire.old.lists) from targets.now item.now }
{
    for target in targets {
        wire.post(from, *target, item.copy());
    }
}

// What a sender sends its receivers, and an Abort, which may be of either; nobody waits for a frame that was sent
// alone.
fn is_of_sender(item: &Wired) -> bool
    ensures { result ≡ is_of_sender item.now }
{
    !matches!(
        item,
        Wired::Packet(Packet::Cts { .. })
            | Wired::Packet(Packet::EndAck { .. })
            | Wired::Alone(_, _)
    )
}

// What a receiver answers, and an Abort.
fn is_of_receiver(item: &Wired) -> bool
    ensures { result ≡ is_of_receiver item.now }
{
    matches!(
        item,
        Wired::Packet(Packet::Cts { .. })
            | Wired::Packet(Packet::EndAck { .. })
            | Wired::Packet(Packet::Abort { .. })
    )
}

/// Whether there is nothing that a sender sends its receivers.
pub(crate) fn none_of_sender(queue: &VecDeque<Wired>) -> bool
    ensures { result ≡ list_all (λ item. not (is_of_sender item)) queue.now.items }
{
    queue.iter().all(|item| !is_of_sender(item))
}

/// Whether there is nothing that a receiver answers.
pub(crate) fn none_of_receiver(queue: &VecDeque<Wired>) -> bool
    ensures { result ≡ list_all (λ item. not (is_of_receiver item)) queue.now.items }
{
    queue.iter().all(|item| !is_of_receiver(item))
}
