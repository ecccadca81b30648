//! What a plan asks of its bus.
ghost use Rattle.std.specs.Prelude.{◌≡◌, ◌≢◌, [], ◌≤◌, ◌<◌, ◌⊎◌, ◌^◌, Bool, All, length, sum_by, IfOk, OnErr};
ghost use Rattle.j39_network.specs.PlanLimits.{flow_limit, request_limit};
ghost use Rattle.j39_network.specs.declared.plan.unit_plan.UnitPlan.{UnitPlan as APlannedUnit};
ghost use Rattle.j39_load.specs.Asked.{asked_of, total_load};
ghost use Rattle.j39_load.specs.SoundLoads.{IsSoundIfAsked, IsSoundIfKnown, IsSoundIfSent};
ghost use Rattle.j39_findings.specs.Standing.{DecidesWhoStays, stays_of};
ghost use Rattle.j39_id.specs.Limits.{unit_limit};
ghost use Rattle.std.proofs.Props.{props};
ghost use Rattle.std.specs.Option.{option_map_or};

mod answers;
mod broadcasts;
mod flow_load;
mod flow_loads;
mod parts;
mod request_load;
mod requests;
mod unit_load;

use crate::frames::{PlannedBus, load_of_damage};
use crate::live_claims::unplanned_end;
pub use answers::{answered_within, askers_of};
use broadcasts::unit_loads_of;
pub use flow_load::FlowLoad;
use flow_loads::loads_of;
use j39_findings::Standing;
use j39_network::{Plan, Timing};
pub use request_load::RequestLoad;
use requests::request_loads_of;
use std::alloc::{AllocError, Global};
pub use unit_load::UnitLoad;

// How many bits a flow takes in a second at most, and none where it isn't known how often it is sent.
fn bits_of_flow(load: &Option<FlowLoad>) -> u64
    ensures bits { result ≡ option_map_or (λ l. l.bits_per_second) load.now 0 }
    ensures few { result < 2 ^ 32 }
{
    match load {
        Some(load) => u64::from(load.bits_per_second),
        None => 0,
    }
}

// How many bits the broadcasts of a unit take in a second at most.
fn bits_of_unit(load: &Option<UnitLoad>) -> u64
    ensures bits { result ≡ option_map_or (λ l. l.bits_per_second) load.now 0 }
    ensures few { IsSoundIfSent load.now → result < 2 ^ 34 }
{
    match load {
        Some(load) => load.bits_per_second,
        None => 0,
    }
}

// How many bits a request takes in a second at most, and none where it isn't known how often it is sent.
fn bits_of_request(load: &Option<RequestLoad>) -> u64
    ensures bits { result ≡ option_map_or (λ l. l.bits_per_second) load.now 0 }
    ensures few { result < 2 ^ 32 }
{
    match load {
        Some(load) => u64::from(load.bits_per_second),
        None => 0,
    }
}

/// What a plan asks of its bus.
#[derive(Drop)]
pub struct Loads {
    pub timing: Timing,
    /// What each flow asks, in order: nothing where it isn't known how often it is sent.
    pub flows: Vec<Option<FlowLoad>>,
    /// What the broadcasts of each unit ask, in order: nothing where it has none.
    pub units: Vec<Option<UnitLoad>>,
    /// What each request asks, in order: nothing where it isn't known how often it is sent.
    pub requests: Vec<Option<RequestLoad>>,
    /// What isn't planned has identifiers below this number.
    pub unplanned_end: u64,
    pub ghost count: { length flows.items ≤ flow_limit },
    pub ghost unit_count: { length units.items ≤ unit_limit },
    pub ghost request_count: { length requests.items ≤ request_limit },
    pub ghost sound: { All IsSoundIfKnown flows.items } by { Prim.hlevel props },
    pub ghost sound_units: { All IsSoundIfSent units.items } by { Prim.hlevel props },
    pub ghost sound_requests: { All IsSoundIfAsked requests.items } by { Prim.hlevel props },
}

impl Loads {
    ghost use Rattle.j39_load.specs.AskedLoads.{asked_in};

    /// What a plan asks of its bus. No memory is asked for where it has neither flows nor requests.
    pub fn new(alloc: Global, timing: Timing, plan: &Plan) -> Result<Self, AllocError>
        ensures timing { IfOk result (λ loads. loads.timing ≡ timing) }
        ensures asked { IfOk result (λ loads. (stays : APlannedUnit → Bool) × DecidesWhoStays plan.now stays
            × (asked_in loads ≡ asked_of timing plan.now stays)) }
        ensures count { IfOk result (λ loads. length loads.flows.items ≡ length plan.now.flows.items) }
        ensures memory { OnErr result ((plan.now.flows.items ≢ []) ⊎ (plan.now.requests.items ≢ [])) }
    {
        let standing = Standing::new(plan);
        let bus = PlannedBus {
            timing,
            plan,
            standing: &standing,
        };
        let flows = loads_of(alloc, &bus)?;
        let units = unit_loads_of(alloc, &bus, flows.as_slice())?;
        let requests = request_loads_of(alloc, &bus)?;
        Ok(Loads {
            timing,
            flows,
            units,
            requests,
            unplanned_end: unplanned_end(plan),
        })
    }

    // How many bits all flows take in a second at most, but for broadcasts.
    fn total_of_flows(&self) -> u64
        ensures total { result ≡ sum_by (λ load. option_map_or (λ l. l.bits_per_second) load 0) self.now.flows.items }
        ensures few { result < 2 ^ 42 }
    {
        let mut total = 0;
        for load in &self.flows {
            total += bits_of_flow(load);
        }
        total
    }

    // How many bits the broadcasts of all units do.
    fn total_of_units(&self) -> u64
        ensures total { result ≡ sum_by (λ load. option_map_or (λ l. l.bits_per_second) load 0) self.now.units.items }
        ensures few { result < 2 ^ 42 }
    {
        let mut total = 0;
        for load in &self.units {
            total += bits_of_unit(load);
        }
        total
    }

    // How many bits all requests do.
    fn total_of_requests(&self) -> u64
        ensures total { result
            ≡ sum_by (λ load. option_map_or (λ l. l.bits_per_second) load 0) self.now.requests.items }
        ensures few { result < 2 ^ 42 }
    {
        let mut total = 0;
        for load in &self.requests {
            total += bits_of_request(load);
        }
        total
    }

    /// How many bits all of it takes in a second at most.
    pub fn total(&self) -> u64
        ensures { result ≡ total_load self.now.timing (asked_in self.now) }
    {
        let damage = load_of_damage(self.timing);
        damage + (self.total_of_flows() + (self.total_of_units() + self.total_of_requests()))
    }
}
