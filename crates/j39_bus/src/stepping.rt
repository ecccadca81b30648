//! The steps of a bus.
ghost use Rattle.std.specs.Prelude.{◌≡◌, true, None, OnOk, OnErr, IfErr, length};
ghost use Rattle.j39_network.specs.declared.plan.Plan.{Plan};
ghost use Rattle.j39_world.specs.World.{World};
ghost use Rattle.j39_world.specs.Run.{refusal, cause_of, takes_memory, StepsTo, RunsThrough};
ghost use Rattle.j39_bus.specs.Stands.{Stands, IsRefusedAt};

use crate::network::Network;
use crate::{Bus, StepError};
use j39_claim::Choose;
use j39_network::Step;
use std::alloc::AllocError;

impl Network {
    ghost use Rattle.j39_bus.specs.inside.Network.{IsAllowed, IsNetwork, IsSameNetwork, KeepsPlan, Steps};

    /// Does a step that is not refused. Where there is no memory for it, nothing changes.
    #[tactic(auto, using(crate::proofs::Acting::allowed_as, crate::proofs::Acting::steps_as, crate::proofs::Acting::steps_if_done, crate::proofs::Acting::memory_as))]
    pub(crate) fn act(
        &mut self,
        choosers: &[Box<dyn Choose>],
        step: &Step,
    ) -> Result<(), AllocError>
        requires network { IsNetwork self.old }
        requires choosers { length choosers.now ≡ length self.old.claimers.items }
        requires allowed { IsAllowed self.old step.now }
        ensures network { IsNetwork self.new }
        ensures plan { KeepsPlan self.old self.new }
        ensures steps { OnOk result (Steps self.old step.now self.new) }
        ensures memory { OnErr result (takes_memory step.now ≡ true) }
        ensures same { OnErr result (IsSameNetwork self.old self.new) }
    {
        match step {
            Step::Up(unit) => self.up(*unit),
            Step::Down(unit) => {
                self.down(*unit);
                Ok(())
            }
            Step::Give(from, to) => self.give(choosers, *from, *to),
            Step::Ask(unit) => self.ask(*unit),
            Step::Begin(flow, bytes) => self.begin(*flow, bytes),
            Step::Send(flow, bytes) => self.send(*flow, bytes),
            Step::Emit(unit) => self.emit(*unit),
            Step::Take(from, to) => self.take(*from, *to),
            Step::Lose(from, to) => {
                self.lose(*from, *to);
                Ok(())
            }
            Step::LateSender(unit) => self.late_sender(*unit),
            Step::LateReceiver(from, to) => self.late_receiver(*from, *to),
            Step::Rest(unit) => {
                self.rest(*unit);
                Ok(())
            }
        }
    }
}

impl Bus {
    /// Does one step. A refused step changes nothing: the error is the first cause that holds, in the order of
    /// `StepError`. Want of memory comes only where no cause holds, and never for `Down`, `Lose` and `Rest`; it changes
    /// nothing either.
    pub fn step(&mut self, step: &Step) -> Result<(), StepError>
        ensures ok { OnOk result ((plan : Plan) (w : World) → Stands self.old plan w
            → (refusal plan w step.now ≡ None)
            × ((after : World) × StepsTo plan w step.now after × Stands self.new plan after)) }
        ensures refused { IfErr result (λ e. (plan : Plan) (w : World) → Stands self.old plan w
            → refusal plan w step.now ≡ cause_of e) }
        ensures memory { IfErr result (λ e. e ≡ StepError.Memory → takes_memory step.now ≡ true) }
        ensures same { OnErr result (self.new ≡ self.old) }
        ensures units { length self.new.units ≡ length self.old.units }
    {
        if let Some(error) = self.network.refusal(step) {
            return Err(error);
        }
        let Ok(()) = self.network.act(self.choosers.as_slice(), step) else {
            return Err(StepError::Memory);
        };
        Ok(())
    }

    /// Does the steps in turn, up to the first that is refused. An error has that step's place; those before it are
    /// done.
    pub fn run(&mut self, steps: &[Step]) -> Result<(), (usize, StepError)>
        ensures ok { OnOk result ((plan : Plan) (w : World) → Stands self.old plan w
            → (after : World) × RunsThrough plan w steps.now after × Stands self.new plan after) }
        ensures refused { IfErr result (λ r. IsRefusedAt self.old self.new steps.now r.0 r.1) }
        ensures units { length self.new.units ≡ length self.old.units }
    {
        for (place, step) in steps.iter().enumerate() {
            if let Err(error) = self.step(step) {
                return Err((place, error));
            }
        }
        Ok(())
    }
}
