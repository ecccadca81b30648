//! How late a message may be, by the load of the bus.
ghost use Rattle.std.specs.Prelude.{◌≡◌, ◌≤◌, ◌^◌, All, IfOk, map};
ghost use Rattle.j39_audit.specs.Responses.{AreResponses, bits_reported, response, us_at_logger};
ghost use Rattle.j39_audit.specs.inside.ResponseTimes.{IsResponse};

use j39_load::{Delay, Loads, timing_of, us_of_bits};
use j39_network::{Plan, Timing};
use std::alloc::{AllocError, Global};

/// By what it is known how early the moment of a message may have been.
#[derive(Clone, Copy)]
pub enum Bound {
    /// By the last bit before it that the log shows as idle.
    Bus,
    /// By its end and the response time of its flow, as the load command answers it.
    Load,
}

// The bits of a response time, where one is reported.
fn bits_reported(delay: Option<Delay>) -> Option<u32>
    ensures { result ≡ bits_reported delay }
{
    match delay {
        Some(Delay::Within(bits)) => Some(bits),
        Some(Delay::Beyond(bits)) => Some(bits),
        Some(Delay::Late) => None,
        Some(Delay::Long(_)) => None,
        Some(Delay::Whole(_)) => None,
        None => None,
    }
}

// How long so many microseconds last at most by the logger's clock.
fn us_at_logger(us: u64) -> u64
    requires { us ≤ 2 ^ 40 }
    ensures { result ≡ us_at_logger us }
{
    us + us / 1_000 + 1
}

// How long behind its moment a message of this delay has been sent at most.
fn response(timing: Timing, delay: &Option<Delay>) -> Option<u64>
    ensures value { result ≡ response timing delay.now }
    ensures few { IsResponse result }
{
    match bits_reported(*delay) {
        Some(bits) => Some(us_at_logger(us_of_bits(timing, u64::from(bits)) as u64)),
        None => None,
    }
}

// How long behind their moments messages of each of these delays have been sent at most.
fn responses_by(
    alloc: Global,
    timing: Timing,
    delays: &[Option<Delay>],
) -> Result<Vec<Option<u64>>, AllocError>
    ensures values { IfOk result (λ responses. responses.items ≡ map (response timing) delays.now) }
    ensures few { IfOk result (λ responses. All IsResponse responses.items) }
{
    let mut responses = Vec::new(alloc);
    for delay in delays {
        responses.push(response(timing, delay))?;
    }
    Ok(responses)
}

/// How long behind its moment a message of each flow has been sent at most, in microseconds of the logger's clock.
pub(crate) fn responses_of(alloc: Global, plan: &Plan) -> Result<Vec<Option<u64>>, AllocError>
    ensures values { IfOk result (λ responses. AreResponses plan.now responses.items) }
    ensures few { IfOk result (λ responses. All IsResponse responses.items) }
{
    let Some(timing) = timing_of(plan) else {
        return Ok(Vec::new(alloc));
    };
    let loads = Loads::new(alloc, timing, plan)?;
    let delays = loads.delays(alloc)?;
    responses_by(alloc, timing, &delays)
}
