//! Times of the flows, ages of what is needed, and the load of a line of vehicles: the greatest of some of its
//! variants.
ghost use Rattle.std.specs.Prelude.{◌≡◌, ◌≢◌, ◌∷◌, ◌++◌, [], ℕ, List, IfOk, None, Some, length, map};
ghost use Rattle.j39_answer.specs.PlanAnswers.{IsBusAnswer};
ghost use Rattle.std.specs.List.{range_with_len};
ghost use Rattle.j39_load.specs.BusTimes.{timing_of};
ghost use Rattle.j39_line_findings.specs.VariantAnswers.{IsVariantAnswer};
ghost use Rattle.j39_variants.specs.declared.line.ProductLine.{ProductLine as ALine};
ghost use Rattle.j39_line_bounds.specs.declared.times.LineTimes.{LineTimes as Times};
ghost use Rattle.j39_line_bounds.specs.LineTimes.{AreTimesAmong, AreVariantTimes, AreWorst, time_of_flow, time_of_need};
ghost use Rattle.j39_line_bounds.specs.LineTimes.{worse, youngest_here};
ghost use Rattle.j39_line_bounds.specs.LineTimes.{age_here, of_degree, badness_known, delay_badness, flow_badness};
ghost use Rattle.j39_line_bounds.specs.LineTimes.{flow_time};
ghost use Rattle.j39_line_bounds.specs.LineTimes.{is_less_bad, need_badness, need_time, place_in_variant};
ghost use Rattle.j39_line_bounds.specs.LineTimes.{time_reported};

use j39_line_findings::{Present, VariantAnswer, is_need_asked_for, place_in_file};
use j39_load::{Delay, LoadAnswer, WholeTime, has_several, least_age, youngest_flow};
use j39_network::{NeedPlan, Plan, Timing, is_met};
use j39_variants::ProductLine;
use std::alloc::{AllocError, Global};

/// What is reported of a flow of a line, in some of its variants.
#[derive(Clone, Copy)]
pub enum FlowTime {
    /// None of them has it.
    NoVariant,
    /// Its worst delay in those that have it; none where it isn't known how often it is sent.
    Reported(Option<Delay>),
}

/// What is reported of a need of a line that asks for an age, in some of its variants.
#[derive(Clone, Copy)]
pub enum NeedTime {
    /// In none of them that asks for it a flow meets it.
    NoVariant,
    /// In a possible variant that asks for it no flow meets it: a finding of the line, which no variant's times have.
    Unmet,
    /// How old what is needed is at most, in microseconds, where that is known; and the place of the flow that brings
    /// it, where several do.
    Age(Option<u64>, Option<usize>),
}

/// What is reported of the flows and needs of a line, in order, and its load.
#[derive(Drop)]
pub struct LineTimes {
    pub flows: Vec<FlowTime>,
    pub needs: Vec<NeedTime>,
    /// Bits in a second.
    pub load: u64,
}

impl LineTimes {
    /// What is reported of the flow at a place of the file.
    pub fn flow(&self, place: usize) -> FlowTime
        ensures { result ≡ time_of_flow self.now place }
    {
        match self.flows.get(place) {
            Some(time) => *time,
            None => FlowTime::NoVariant,
        }
    }

    /// What is reported of the need at a place of the file.
    pub fn need(&self, place: usize) -> NeedTime
        ensures { result ≡ time_of_need self.now place }
    {
        match self.needs.get(place) {
            Some(time) => *time,
            None => NeedTime::NoVariant,
        }
    }
}

// How bad a time is, and how long it is.
#[derive(Clone, Copy)]
struct Badness {
    degree: u8,
    time: u64,
}

fn of_degree(degree: u8, time: u64) -> Badness
    ensures { result ≡ of_degree degree time }
{
    Badness { degree, time }
}

fn is_less_bad(one: Badness, other: Badness) -> bool
    ensures { result ≡ is_less_bad one other }
{
    one.degree < other.degree || one.degree == other.degree && one.time < other.time
}

fn badness_known(time: Option<u64>) -> Badness
    ensures { result ≡ badness_known time }
{
    match time {
        None => of_degree(3, 0),
        Some(time) => of_degree(1, time),
    }
}

// The time that is reported of long messages to all: that of each of them, where a deadline is written.
fn time_reported(whole: &WholeTime) -> Option<u64>
    ensures { result ≡ time_reported whole.now }
{
    if whole.limit.is_some() {
        whole.time_of_each()
    } else {
        whole.bits
    }
}

fn delay_badness(delay: &Delay) -> Badness
    ensures { result ≡ delay_badness delay.now }
{
    match delay {
        Delay::Within(bits) => of_degree(1, u64::from(*bits)),
        Delay::Beyond(bits) => of_degree(2, u64::from(*bits)),
        Delay::Late => of_degree(3, 0),
        Delay::Long(frames) => of_degree(1, u64::from(*frames)),
        Delay::Whole(whole) => badness_known(time_reported(whole)),
    }
}

fn flow_badness(time: &FlowTime) -> Badness
    ensures { result ≡ flow_badness time.now }
{
    match time {
        FlowTime::NoVariant => of_degree(0, 0),
        FlowTime::Reported(None) => of_degree(1, 0),
        FlowTime::Reported(Some(delay)) => delay_badness(delay),
    }
}

fn need_badness(time: &NeedTime) -> Badness
    ensures { result ≡ need_badness time.now }
{
    match time {
        NeedTime::NoVariant | NeedTime::Unmet => of_degree(0, 0),
        NeedTime::Age(age, _) => badness_known(*age),
    }
}

// The place in the plan of a variant of what stands at a place in the file.
fn place_in_variant(places: &[usize], place: usize) -> Option<usize>
    ensures { result ≡ place_in_variant places.now place }
{
    places.iter().position(|other| *other == place)
}

fn flow_time(there: &[usize], delays: &[Option<Delay>], flow: usize) -> FlowTime
    ensures { result ≡ flow_time there.now delays.now flow }
{
    match place_in_variant(there, flow) {
        None => FlowTime::NoVariant,
        Some(place) => match delays.get(place) {
            Some(delay) => FlowTime::Reported(*delay),
            None => FlowTime::Reported(None),
        },
    }
}

// The plan of a variant, with what is reported of it.
#[derive(Clone, Copy)]
struct VariantLoad<'a> {
    line: &'a ProductLine,
    variant: &'a [usize],
    there: &'a Present,
    plan: &'a Plan,
    timing: Timing,
    delays: &'a [Option<Delay>],
}

impl VariantLoad<'_> {
    // The flow of the file that brings what is needed, where several do.
    fn youngest(&self, need: &NeedPlan) -> Option<usize>
        requires { length self.now.delays.now ≡ length self.now.plan.now.flows.items }
        ensures { result
            ≡ youngest_here self.now.there.now.flows.items self.now.plan.now self.now.timing self.now.delays.now need.now }
    {
        if !has_several(&self.plan.requests, &self.plan.flows, need) {
            return None;
        }
        match youngest_flow(
            self.timing,
            &self.plan.requests,
            &self.plan.flows,
            self.delays,
            need,
        ) {
            Some(flow) => Some(place_in_file(&self.there.flows, flow)),
            None => None,
        }
    }

    // The age of what a need of the variant's plan is for.
    fn age_of(&self, need: &NeedPlan) -> NeedTime
        requires { length self.now.delays.now ≡ length self.now.plan.now.flows.items }
        ensures { result
            ≡ age_here self.now.there.now.flows.items self.now.plan.now self.now.timing self.now.delays.now need.now }
    {
        if !is_met(&self.plan.requests, &self.plan.flows, need) {
            return NeedTime::NoVariant;
        }
        let age = least_age(
            self.timing,
            &self.plan.requests,
            &self.plan.flows,
            self.delays,
            need,
        );
        NeedTime::Age(age, self.youngest(need))
    }

    fn need_time(&self, place: usize) -> NeedTime
        requires { length self.now.delays.now ≡ length self.now.plan.now.flows.items }
        ensures { result
            ≡ need_time self.now.line.now self.now.variant.now self.now.there.now self.now.plan.now self.now.timing self.now.delays.now place }
    {
        if !is_need_asked_for(self.line, self.variant, place) {
            return NeedTime::NoVariant;
        }
        match place_in_variant(&self.there.needs, place) {
            None => NeedTime::NoVariant,
            Some(found) => match self.plan.needs.get(found) {
                Some(need) => self.age_of(need),
                None => NeedTime::NoVariant,
            },
        }
    }

    fn flow_times(&self, alloc: Global) -> Result<Vec<FlowTime>, AllocError>
        ensures { IfOk result (λ v. v.items ≡ map (flow_time self.now.there.now.flows.items self.now.delays.now)
            (range_with_len 0 (length self.now.line.now.plan.flows.items))) }
    {
        (0..self.line.plan.flows.len())
            .map(|place| flow_time(&self.there.flows, self.delays, place))
            .collect(alloc)
    }

    fn need_times(&self, alloc: Global) -> Result<Vec<NeedTime>, AllocError>
        requires { length self.now.delays.now ≡ length self.now.plan.now.flows.items }
        ensures { IfOk result (λ v. v.items ≡ map
            (need_time self.now.line.now self.now.variant.now self.now.there.now self.now.plan.now self.now.timing self.now.delays.now) (range_with_len 0 (length self.now.line.now.plan.needs.items))) }
    {
        (0..self.line.plan.needs.len())
            .map(|place| self.need_time(place))
            .collect(alloc)
    }
}

// What is reported of a variant of a line of which this is known, with this load.
fn variant_times(
    alloc: Global,
    line: &ProductLine,
    variant: &[usize],
    known: &VariantAnswer,
    load: &LoadAnswer,
) -> Result<LineTimes, AllocError>
    requires known { IsVariantAnswer line.now variant.now known.now }
    requires load { IsBusAnswer known.now.plan (timing_of known.now.plan) (Some load.now) }
    ensures { IfOk result (AreVariantTimes line.now variant.now) }
{
    let reported = VariantLoad {
        line,
        variant,
        there: &known.there,
        plan: &known.plan,
        timing: load.loads.timing,
        delays: &load.delays,
    };
    Ok(LineTimes {
        flows: reported.flow_times(alloc)?,
        needs: reported.need_times(alloc)?,
        load: load.loads.total(),
    })
}

fn worse_flow(one: FlowTime, other: FlowTime) -> FlowTime
    ensures { result ≡ worse flow_badness one other }
{
    if is_less_bad(flow_badness(&one), flow_badness(&other)) {
        other
    } else {
        one
    }
}

fn worse_need(one: NeedTime, other: NeedTime) -> NeedTime
    ensures { result ≡ worse need_badness one other }
{
    if is_less_bad(need_badness(&one), need_badness(&other)) {
        other
    } else {
        one
    }
}

fn worse_flows(
    alloc: Global,
    one: &LineTimes,
    other: &LineTimes,
) -> Result<Vec<FlowTime>, AllocError>
    ensures { IfOk result (λ v. v.items ≡ map (λ f. worse flow_badness (time_of_flow one.now f)
        (time_of_flow other.now f)) (range_with_len 0 (length one.now.flows.items))) }
{
    (0..one.flows.len())
        .map(|place| worse_flow(one.flow(place), other.flow(place)))
        .collect(alloc)
}

fn worse_needs(
    alloc: Global,
    one: &LineTimes,
    other: &LineTimes,
) -> Result<Vec<NeedTime>, AllocError>
    ensures { IfOk result (λ v. v.items ≡ map (λ d. worse need_badness (time_of_need one.now d)
        (time_of_need other.now d)) (range_with_len 0 (length one.now.needs.items))) }
{
    (0..one.needs.len())
        .map(|place| worse_need(one.need(place), other.need(place)))
        .collect(alloc)
}

// The worst of two.
fn worse(alloc: Global, one: &LineTimes, other: &LineTimes) -> Result<LineTimes, AllocError>
    ensures { IfOk result (λ worse. (line : ALine) (each : List Times) → AreWorst line each one.now
        → AreWorst line (each ++ other.now ∷ []) worse) }
{
    Ok(LineTimes {
        flows: worse_flows(alloc, one, other)?,
        needs: worse_needs(alloc, one, other)?,
        load: one.load.max(other.load),
    })
}

fn nothing(alloc: Global, line: &ProductLine) -> Result<LineTimes, AllocError>
    ensures { IfOk result (AreWorst line.now []) }
{
    Ok(LineTimes {
        flows: line
            .plan
            .flows
            .iter()
            .map(|_flow| FlowTime::NoVariant)
            .collect(alloc)?,
        needs: line
            .plan
            .needs
            .iter()
            .map(|_need| NeedTime::NoVariant)
            .collect(alloc)?,
        load: 0,
    })
}

/// What is reported of no variant.
pub fn no_times(alloc: Global, line: &ProductLine) -> Result<LineTimes, AllocError>
    ensures { IfOk result (AreTimesAmong line.now []) }
{
    let times = nothing(alloc, line)?;
    Ok(times)
}

/// What is reported of each flow and each need of a line whose bus is known, and its load, in one variant more: the
/// places of the alternatives that it takes, choice by choice, with all that is known of it.
pub fn times_with(
    alloc: Global,
    line: &ProductLine,
    variant: &[usize],
    known: &VariantAnswer,
    so_far: LineTimes,
) -> Result<LineTimes, AllocError>
    requires { IsVariantAnswer line.now variant.now known.now }
    ensures { IfOk result (λ times. (variants : List (List ℕ)) → timing_of line.now.plan ≢ None
        → AreTimesAmong line.now variants so_far
        → AreTimesAmong line.now (variants ++ variant.now ∷ []) times) }
{
    let Some(load) = &known.answer.load else {
        return Ok(so_far);
    };
    let here = variant_times(alloc, line, variant, known, load)?;
    let times = worse(alloc, &so_far, &here)?;
    Ok(times)
}
