//! Why steps are refused.
ghost use Rattle.std.specs.Prelude.{◌≡◌, ◌&&◌, ◌||◌, not, Some, length};
ghost use Rattle.j39_network.specs.declared.steps.Step.TheVariants.{Up, Give, Ask, Emit, Take, LateSender};
ghost use Rattle.j39_network.specs.declared.steps.Step.TheVariants.{LateReceiver, Rest};
ghost use Rattle.j39_world.specs.Flows.{can_be_sent, has_length, is_short};
ghost use Rattle.j39_bus.specs.Stations.{station_at};
ghost use Rattle.j39_bus.specs.BusState.{Histories, nowhere};
ghost use Rattle.j39_bus.specs.inside.Network.{IsNetwork, IsRefusal, flow_refusals, world_in};
ghost use Rattle.j39_id.specs.FirstFault.{first_fault};
ghost use Rattle.j39_world.specs.Run.{at_ends, begin_refusal, has_address, is_a_transfer_open, is_nothing_undelivered};
ghost use Rattle.j39_world.specs.Run.{is_on, pair_refusals, send_refusal, unit_refusals};
ghost use Rattle.j39_bus.specs.inside.KeptMessages.{IsFlow};
ghost use Rattle.j39_bus.specs.Queued.{pair_in};

use crate::network::Network;
use crate::{StepError, sessions};
use j39_id::limits::FRAME_BYTES;
use j39_network::{Step, To};
use j39_signal::is_selected;
use j39_world::Flow;

// Whether a flow to one unit goes to another one, and its group can be sent to one.
fn can_be_sent(flow: &Flow) -> bool
    ensures { result ≡ can_be_sent flow.now }
{
    match flow.to {
        To::All => true,
        To::One(unit) => unit != flow.sender
            && (flow.pgn.is_pdu1() || usize::from(flow.most) > FRAME_BYTES),
    }
}

// Whether a flow has messages of so many bytes.
fn fits(flow: &Flow, bytes: &[u8]) -> bool
    ensures { result ≡ has_length flow.now (length bytes.now) }
{
    usize::from(flow.length) <= bytes.len() && bytes.len() <= usize::from(flow.most)
}

// Whether a flow has messages of so many bytes, and one frame has room for them.
fn fits_one_frame(flow: &Flow, bytes: &[u8]) -> bool
    ensures { result ≡ (has_length flow.now (length bytes.now) && is_short (length bytes.now)) }
{
    fits(flow, bytes) && bytes.len() <= FRAME_BYTES
}

fn is_either(one: bool, other: bool) -> bool
    ensures { result ≡ (one || other) }
{
    one || other
}

impl Network {
    /// The first cause for which a step is refused, if there is one.
    #[tactic(auto, using(crate::proofs::Acting::refusal_as))]
    pub(crate) fn refusal(&self, step: &Step) -> Option<StepError>
        requires { IsNetwork self.now }
        ensures { IsRefusal self.now step.now result }
    {
        match step {
            Step::Up(unit) => self.refusal_of_up(*unit),
            Step::Down(unit) => self.refusal_of_ask(*unit),
            Step::Give(from, to) => self.refusal_of_give(*from, *to),
            Step::Ask(unit) => self.refusal_of_ask(*unit),
            Step::Begin(place, bytes) => match self.flows.get(*place) {
                Some(flow) => self.refusal_of_message(flow, bytes.as_slice()),
                None => Some(StepError::NoSuchFlow),
            },
            Step::Send(place, bytes) => match self.flows.get(*place) {
                Some(flow) => self.refusal_of_frame(flow, bytes.as_slice()),
                None => Some(StepError::NoSuchFlow),
            },
            Step::Emit(unit) => self.refusal_of_emit(*unit),
            Step::Take(from, to) => self.refusal_of_take(*from, *to),
            Step::Lose(from, to) => self.refusal_of_take(*from, *to),
            Step::LateSender(unit) => self.refusal_of_late_sender(*unit),
            Step::LateReceiver(from, to) => self.refusal_of_late_receiver(*from, *to),
            Step::Rest(unit) => self.refusal_of_rest(*unit),
        }
    }

    // Of a unit that has to be on.
    fn refusal_of_unit(&self, unit: usize) -> Option<StepError>
        ensures { result
            ≡ first_fault (unit_refusals (length self.now.claimers.items) (station_at self.now.claimers.items) unit) }
    {
        if unit >= self.claimers.len() {
            return Some(StepError::UnknownUnit);
        }
        if !self.claimers[unit].is_started() {
            return Some(StepError::NotStarted);
        }
        None
    }

    // Of two units that have to be on.
    fn refusal_of_pair(&self, from: usize, to: usize) -> Option<StepError>
        ensures { result
            ≡ first_fault (pair_refusals (length self.now.claimers.items)
            (station_at self.now.claimers.items) from to) }
    {
        let count = self.claimers.len();
        if from >= count || to >= count {
            return Some(StepError::UnknownUnit);
        }
        if !self.claimers[from].is_started() || !self.claimers[to].is_started() {
            return Some(StepError::NotStarted);
        }
        None
    }

    fn refusal_of_up(&self, unit: usize) -> Option<StepError>
        requires { IsNetwork self.now }
        ensures { IsRefusal self.now (Up unit) result }
    {
        if unit >= self.claimers.len() {
            return Some(StepError::UnknownUnit);
        }
        if self.claimers[unit].is_started() {
            return Some(StepError::AlreadyStarted);
        }
        if self.waits_for_transfers() {
            return Some(StepError::TransferOpen);
        }
        None
    }

    // The unit that hears has to be on; the other may be off again.
    fn refusal_of_give(&self, from: usize, to: usize) -> Option<StepError>
        requires { IsNetwork self.now }
        ensures { IsRefusal self.now (Give from to) result }
    {
        if from >= self.claimers.len() {
            return Some(StepError::UnknownUnit);
        }
        if let Some(error) = self.refusal_of_unit(to) {
            return Some(error);
        }
        if self.claims.between(from, to).is_empty() {
            return Some(StepError::NothingUndelivered);
        }
        None
    }

    // Of a unit that asks all others, or is switched off.
    fn refusal_of_ask(&self, unit: usize) -> Option<StepError>
        requires { IsNetwork self.now }
        ensures { IsRefusal self.now (Ask unit) result }
    {
        if let Some(error) = self.refusal_of_unit(unit) {
            return Some(error);
        }
        if self.waits_for_transfers() {
            return Some(StepError::TransferOpen);
        }
        None
    }

    // Of these bytes by a planned flow, in a message that is begun.
    fn refusal_of_message(&self, flow: &Flow, bytes: &[u8]) -> Option<StepError>
        requires network { IsNetwork self.now }
        requires flow { IsFlow (length self.now.claimers.items) flow.now }
        ensures { (h : Histories)
            → result ≡ begin_refusal self.now.live (length self.now.claimers.items) (world_in h self.now)
            (Some flow.now) bytes.now }
    {
        let is_busy = sessions::is_open(self.sessions.as_slice(), flow.sender);
        self.refusal_of_flow(flow, bytes, is_busy, fits(flow, bytes))
    }

    // Of these bytes by a planned flow, in a frame that is sent alone: its group's messages stay in their order.
    fn refusal_of_frame(&self, flow: &Flow, bytes: &[u8]) -> Option<StepError>
        requires network { IsNetwork self.now }
        requires flow { IsFlow (length self.now.claimers.items) flow.now }
        ensures { (h : Histories)
            → result ≡ send_refusal self.now.live (length self.now.claimers.items) (world_in h self.now)
            (Some flow.now) bytes.now }
    {
        let is_busy = sessions::is_of_group(self.sessions.as_slice(), flow.sender, flow.pgn);
        self.refusal_of_flow(flow, bytes, is_busy, fits_one_frame(flow, bytes))
    }

    // Of these bytes by a planned flow, whose sender may be busy, and which may have such bytes or not.
    fn refusal_of_flow(
        &self,
        flow: &Flow,
        bytes: &[u8],
        is_busy: bool,
        fits: bool,
    ) -> Option<StepError>
        requires network { IsNetwork self.now }
        requires flow { IsFlow (length self.now.claimers.items) flow.now }
        ensures { (h : Histories) → result ≡ first_fault
            (flow_refusals self.now.live (length self.now.claimers.items)
            (world_in h self.now) flow.now bytes.now is_busy fits) }
    {
        if !can_be_sent(flow) {
            return Some(StepError::NoSuchFlow);
        }
        if !self.are_started(flow) {
            return Some(StepError::NotStarted);
        }
        if self.waits_for_claims() {
            return Some(StepError::NotSettled);
        }
        if !self.have_addresses(flow) {
            return Some(StepError::NoAddress);
        }
        if is_busy {
            return Some(StepError::Busy);
        }
        if !fits {
            return Some(StepError::WrongLength);
        }
        if !is_selected(flow.when, bytes) {
            return Some(StepError::WrongSelector);
        }
        None
    }

    fn refusal_of_emit(&self, unit: usize) -> Option<StepError>
        requires { IsNetwork self.now }
        ensures { IsRefusal self.now (Emit unit) result }
    {
        if let Some(error) = self.refusal_of_unit(unit) {
            return Some(error);
        }
        if !sessions::is_sending(self.sessions.as_slice(), unit) {
            return Some(StepError::NothingToSend);
        }
        None
    }

    // Of a unit that takes what another sent, or for which this is lost.
    fn refusal_of_take(&self, from: usize, to: usize) -> Option<StepError>
        requires { IsNetwork self.now }
        ensures { IsRefusal self.now (Take from to) result }
    {
        if let Some(error) = self.refusal_of_pair(from, to) {
            return Some(error);
        }
        if self.wire.between(from, to).is_empty() {
            return Some(StepError::NothingUndelivered);
        }
        None
    }

    fn refusal_of_late_sender(&self, unit: usize) -> Option<StepError>
        requires { IsNetwork self.now }
        ensures { IsRefusal self.now (LateSender unit) result }
    {
        if let Some(error) = self.refusal_of_unit(unit) {
            return Some(error);
        }
        if !sessions::is_waiting(self.sessions.as_slice(), unit) {
            return Some(StepError::NoSession);
        }
        None
    }

    fn refusal_of_late_receiver(&self, from: usize, to: usize) -> Option<StepError>
        requires { IsNetwork self.now }
        ensures { IsRefusal self.now (LateReceiver from to) result }
    {
        if let Some(error) = self.refusal_of_pair(from, to) {
            return Some(error);
        }
        if !self.receivers.is_open(from, to) {
            return Some(StepError::NoSession);
        }
        None
    }

    fn refusal_of_rest(&self, unit: usize) -> Option<StepError>
        requires { IsNetwork self.now }
        ensures { IsRefusal self.now (Rest unit) result }
    {
        if let Some(error) = self.refusal_of_unit(unit) {
            return Some(error);
        }
        if !self.can_rest(unit) {
            return Some(StepError::CannotRest);
        }
        None
    }

    // Whether some unit is between its Begin and its Rest, or something of a message is undelivered.
    fn is_transfer_open(&self) -> bool
        requires { IsNetwork self.now }
        ensures { result ≡ is_a_transfer_open (length self.now.claimers.items) (world_in nowhere self.now) }
    {
        let is_sending = sessions::is_any_open(self.sessions.as_slice());
        let is_untaken = !self.wire.is_empty();
        is_either(is_sending, is_untaken)
    }

    // Whether a unit can't be switched or ask for claims yet: a transfer is open, and the bus isn't live.
    fn waits_for_transfers(&self) -> bool
        requires { IsNetwork self.now }
        ensures { result
            ≡ (not self.now.live && is_a_transfer_open (length self.now.claimers.items) (world_in nowhere self.now)) }
    {
        !self.live && self.is_transfer_open()
    }

    // Whether no unit can send yet: a claim or a request is undelivered, and the bus isn't live.
    fn waits_for_claims(&self) -> bool
        requires { IsNetwork self.now }
        ensures { result
            ≡ (not self.now.live
            && not (is_nothing_undelivered (length self.now.claimers.items) (pair_in self.now.claims.lists))) }
    {
        !self.live && !self.is_nothing_undelivered()
    }

    // Whether no claim and no request is undelivered.
    fn is_nothing_undelivered(&self) -> bool
        requires { IsNetwork self.now }
        ensures { result ≡ is_nothing_undelivered (length self.now.claimers.items) (pair_in self.now.claims.lists) }
    {
        self.claims.is_empty()
    }

    // Whether the sender of a flow is on, and its one receiver.
    fn are_started(&self, flow: &Flow) -> bool
        requires { IsFlow (length self.now.claimers.items) flow.now }
        ensures { result ≡ at_ends (is_on (station_at self.now.claimers.items)) flow.now.sender flow.now.to }
    {
        self.claimers[flow.sender].is_started()
            && match flow.to {
                To::All => true,
                To::One(unit) => self.claimers[unit].is_started(),
            }
    }

    // Whether the sender of a flow holds an address, and its one receiver.
    fn have_addresses(&self, flow: &Flow) -> bool
        requires { IsFlow (length self.now.claimers.items) flow.now }
        ensures { result ≡ at_ends (has_address (station_at self.now.claimers.items)) flow.now.sender flow.now.to }
    {
        self.claimers[flow.sender].address().is_some()
            && match flow.to {
                To::All => true,
                To::One(unit) => self.claimers[unit].address().is_some(),
            }
    }
}
