//! Messages that are sent.
ghost use Rattle.std.specs.Prelude.{◌≡◌, ◌≤◌, not, nat_eq, length};
ghost use Rattle.std.specs.List.{filter};
ghost use Rattle.j39_id.specs.Limits.{message_bytes};
ghost use Rattle.j39_network.specs.declared.plan.to.To.{To};
ghost use Rattle.j39_tp.specs.declared.sending.outcome.Outcome.TheVariants.{GaveUp};
ghost use Rattle.j39_tp.specs.Sender.{data_next, after_packet, ended, timeout_packet, after_timeout, outcome_of};
ghost use Rattle.j39_tp.specs.Sender.{phase_of};
ghost use Rattle.j39_world.specs.Flows.{dest_of};
ghost use Rattle.j39_bus.specs.inside.Content.{GoesTo, bytes_in, group_in, stage_in};
ghost use Rattle.j39_world.specs.TransferSteps.{begun_stage, first_item, outgoing_hears};
ghost use Rattle.j39_world.specs.SwitchingOff.{without_target};
ghost use Rattle.j39_world.specs.Transfers.{is_among};

use j39_id::Pgn;
use j39_id::limits::FRAME_BYTES;
use j39_network::To;
use j39_tp::{Dest, Message, Outcome, Packet, Phase, Reaction, Transfer};
use j39_world::{Flow, Short, Wired};
use std::marker::Model;

/// A message from its beginning until its sender rests, with the units that it goes to. Contracts see it as a world has
/// it.
#[derive(Drop)]
pub(crate) struct Session {
    flow: usize,
    to: To,
    targets: Vec<usize>,
    content: Content,
}

// What is sent: a message of one frame, with the PGN of its group, which has ended, or one that the transport protocol
// carries.
#[derive(Drop)]
enum Content {
    Short(Pgn, Short),
    Long(Transfer),
}

// What is sent of a message that is begun, and what is sent first: the whole message, or its announcement.
fn content_of(flow: &Flow, bytes: &[u8]) -> (Content, Wired)
    requires { length bytes.now ≤ message_bytes }
    ensures goes { GoesTo flow.now.to result.0 }
    ensures group { group_in result.0 ≡ flow.now.pgn }
    ensures bytes { bytes_in result.0 ≡ bytes.now }
    ensures stage { stage_in result.0 ≡ begun_stage flow.now bytes.now }
    ensures item { result.1 ≡ first_item flow.now bytes.now }
{
    if bytes.len() <= FRAME_BYTES {
        return (
            Content::Short(flow.pgn, Short::new(bytes)),
            Wired::Short(Short::new(bytes)),
        );
    }
    let Some(message) = Message::new(flow.pgn, bytes) else {
        unreachable!()
    };
    let dest = match flow.to {
        To::All => Dest::All,
        To::One(_) => Dest::One,
    };
    let (transfer, announcement) = Transfer::begin(message, dest);
    (Content::Long(transfer), Wired::Packet(announcement))
}

// Whether a unit is one of these.
fn is_among(targets: &[usize], unit: usize) -> bool
    ensures { result ≡ is_among targets.now unit }
{
    targets.iter().any(|target| unit == *target)
}

// A unit is struck from these.
fn strike(targets: &mut Vec<usize>, unit: usize)
    ensures { targets.new.items ≡ filter (λ v. not (nat_eq v unit)) targets.old.items }
{
    targets.retain(|target| *target != unit);
}

// What is sent is given up without a packet, unless it has ended.
fn give_up(content: &mut Content)
    ensures group { group_in content.new ≡ group_in content.old }
    ensures bytes { bytes_in content.new ≡ bytes_in content.old }
    ensures stage { stage_in content.new ≡ (ended GaveUp (stage_in content.old)).0 }
    ensures goes { (to : To) → GoesTo to content.old → GoesTo to content.new }
{
    match content {
        Content::Short(_, _) => {}
        Content::Long(transfer) => transfer.give_up(),
    }
}

impl Model for Session {
    ghost use Rattle.j39_world.specs.Transfers.{Outgoing};

    ghost Value = { Outgoing };

    ghost use Rattle.j39_bus.specs.inside.Content.{GoesTo, bytes_in, group_in, stage_in};

    ghost view = { λ s. record {
      flow = s.flow;
      pgn = group_in s.content;
      to = s.to;
      targets = s.targets.items;
      bytes = bytes_in s.content;
      stage = stage_in s.content;
    } };

    ghost invariant = { λ s. GoesTo s.to s.content };
}

impl Session {
    /// The message of the flow at a place, which is begun, and what is sent first: the whole message, or its
    /// announcement.
    pub(crate) fn begin(
        place: usize,
        flow: &Flow,
        bytes: &[u8],
        targets: Vec<usize>,
    ) -> (Self, Wired)
        requires { length bytes.now ≤ message_bytes }
        ensures session { result.0 ≡ record {
          flow = place;
          pgn = flow.now.pgn;
          to = flow.now.to;
          targets = targets.items;
          bytes = bytes.now;
          stage = begun_stage flow.now bytes.now;
        } }
        ensures item { result.1 ≡ first_item flow.now bytes.now }
    {
        let (content, item) = content_of(flow, bytes);
        let session = Session {
            flow: place,
            to: flow.to,
            targets,
            content,
        };
        (session, item)
    }

    /// The place of its flow.
    pub(crate) fn flow(&self) -> usize
        ensures { result ≡ self.now.flow }
    {
        self.flow
    }

    /// The PGN of its group.
    pub(crate) fn group(&self) -> Pgn
        ensures { result ≡ self.now.pgn }
    {
        match &self.content {
            Content::Short(group, _) => *group,
            Content::Long(transfer) => transfer.pgn(),
        }
    }

    /// Where it goes.
    pub(crate) fn to(&self) -> To
        ensures { result ≡ self.now.to }
    {
        self.to
    }

    /// The units that it goes to.
    pub(crate) fn targets(&self) -> &[usize]
        ensures { result.now ≡ self.now.targets }
    {
        self.targets.as_slice()
    }

    /// The next data packet, if one may be sent now.
    pub(crate) fn next_packet(&mut self) -> Option<Packet>
        ensures packet { result ≡ data_next self.old.bytes self.old.stage }
        ensures after { self.new ≡ record self.old { stage = after_packet (dest_of self.old.to) self.old.stage } }
    {
        match &mut self.content {
            Content::Short(_, _) => None,
            Content::Long(transfer) => transfer.next_packet(),
        }
    }

    /// What is sent where nothing was heard in time.
    pub(crate) fn late(&mut self) -> Option<Packet>
        ensures packet { result ≡ timeout_packet self.old.pgn self.old.stage }
        ensures after { self.new ≡ record self.old { stage = after_timeout self.old.stage } }
    {
        match &mut self.content {
            Content::Short(_, _) => None,
            Content::Long(transfer) => transfer.late(),
        }
    }

    /// What the sender does with a packet of a unit: it hears the one alone that its message goes to, and of a message
    /// to all nobody.
    pub(crate) fn hear(&mut self, from: usize, packet: &Packet) -> Reaction
        ensures reaction { result ≡ (outgoing_hears self.old from packet.now).1 }
        ensures after { self.new ≡ record self.old { stage = (outgoing_hears self.old from packet.now).0 } }
    {
        let hears = match self.to {
            To::One(_) => is_among(self.targets.as_slice(), from),
            To::All => false,
        };
        match &mut self.content {
            Content::Long(transfer) if hears => transfer.hear(packet),
            _ => Reaction::Nothing,
        }
    }

    /// Goes to a unit no more, since this is off. A message to it alone is given up, unless it has ended.
    pub(crate) fn leave_out(&mut self, unit: usize)
        ensures { self.new ≡ without_target unit self.old }
    {
        strike(&mut self.targets, unit);
        match self.to {
            To::One(receiver) if receiver == unit => give_up(&mut self.content),
            _ => {}
        }
    }

    /// How it ended, if it did.
    pub(crate) fn outcome(&self) -> Option<Outcome>
        ensures { result ≡ outcome_of self.now.stage }
    {
        match &self.content {
            Content::Short(_, _) => Some(Outcome::Sent),
            Content::Long(transfer) => transfer.outcome(),
        }
    }

    /// What its sender is doing: it sends data packets, waits for its receiver, or rests.
    pub(crate) fn phase(&self) -> Phase
        ensures { result ≡ phase_of self.now.stage }
    {
        match &self.content {
            Content::Short(_, _) => Phase::Resting,
            Content::Long(transfer) => transfer.phase(),
        }
    }
}
