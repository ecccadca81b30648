//! The plan of a variant.
ghost use Rattle.std.specs.Prelude.{◌≡◌, IfOk};
ghost use Rattle.std.specs.List.{filter_map};
ghost use Rattle.j39_variants.specs.VariantPlans.{IsVariantPlan, flag_at, flags, picked, place_at, places};
ghost use Rattle.j39_variants.specs.VariantPlans.{moved_flow, moved_from, moved_need, moved_request, moved_receivers};
ghost use Rattle.j39_variants.specs.VariantPlans.{where_all_are};

mod copies;

use crate::variant::is_in;
use crate::{Alternative, ProductLine};
use copies::copies;
use j39_network::{FlowPlan, NeedPlan, Plan, RequestPlan, To};
use std::alloc::{AllocError, Global};

// Of each list, whether the variant is in its box.
fn flags(
    alloc: Global,
    variant: &[usize],
    lists: &[Vec<Alternative>],
) -> Result<Vec<bool>, AllocError>
    ensures { IfOk result (λ v. v.items ≡ flags variant.now lists.now) }
{
    lists.iter().map(|list| is_in(variant, list)).collect(alloc)
}

// The places of what is there among what is there.
fn places(alloc: Global, flags: &[bool]) -> Result<Vec<Option<usize>>, AllocError>
    ensures { IfOk result (λ v. v.items ≡ places 0 flags.now) }
{
    let mut places = Vec::new(alloc);
    let mut count: usize = 0;
    for flag in flags {
        if *flag {
            places.push(Some(count))?;
            count += 1;
        } else {
            places.push(None)?;
        }
    }
    Ok(places)
}

fn flag_at(flags: &[bool], index: usize) -> bool
    ensures { result ≡ flag_at flags.now index }
{
    match flags.get(index) {
        Some(flag) => *flag,
        None => false,
    }
}

// The values whose flag is true, in order.
fn picked<T: Copy>(alloc: Global, flags: &[bool], values: &[T]) -> Result<Vec<T>, AllocError>
    ensures { IfOk result (λ v. v.items ≡ picked flags.now values.now) }
{
    let mut picked = Vec::new(alloc);
    for (index, value) in values.iter().enumerate() {
        if flag_at(flags, index) {
            picked.push(*value)?;
        }
    }
    Ok(picked)
}

fn place_at(places: &[Option<usize>], index: usize) -> Option<usize>
    ensures { result ≡ place_at places.now index }
{
    match places.get(index) {
        Some(place) => *place,
        None => None,
    }
}

fn moved_receivers(units: &[Option<usize>], to: To) -> Option<To>
    ensures { result ≡ moved_receivers units.now to }
{
    match to {
        To::All => Some(To::All),
        To::One(unit) => match place_at(units, unit) {
            Some(place) => Some(To::One(place)),
            None => None,
        },
    }
}

fn moved_from(units: &[Option<usize>], from: Option<usize>) -> Option<Option<usize>>
    ensures { result ≡ moved_from units.now from }
{
    match from {
        None => Some(None),
        Some(unit) => match place_at(units, unit) {
            Some(place) => Some(Some(place)),
            None => None,
        },
    }
}

// Three values, where all of them are there.
fn where_all_are<A: Copy, B: Copy, C: Copy>(
    first: Option<A>,
    second: Option<B>,
    third: Option<C>,
) -> Option<(A, B, C)>
    ensures { result ≡ where_all_are first second third }
{
    Some((first?, second?, third?))
}

// The group, the sender and the receivers of what is sent, by the places of what is there.
fn moved_ends(
    units: &[Option<usize>],
    groups: &[Option<usize>],
    group: usize,
    sender: usize,
    to: To,
) -> Option<(usize, usize, To)>
    ensures { result
        ≡ where_all_are (place_at groups.now group) (place_at units.now sender) (moved_receivers units.now to) }
{
    where_all_are(
        place_at(groups, group),
        place_at(units, sender),
        moved_receivers(units, to),
    )
}

// What names units and groups of a plan by their places.
trait Move {
    ghost use Rattle.std.specs.Prelude.{ℕ, List, Option};

    // The same by the places of what is there: none where something that it names isn't.
    ghost by_places: { List (Option ℕ) → List (Option ℕ) → Self → Option Self };

    fn moved(&self, units: &[Option<usize>], groups: &[Option<usize>]) -> Option<Self>
        ensures { result ≡ by_places units.now groups.now self.now };
}

impl Move for FlowPlan {
    ghost by_places = { moved_flow };

    fn moved(&self, units: &[Option<usize>], groups: &[Option<usize>]) -> Option<Self> {
        let ends = moved_ends(units, groups, self.group, self.sender, self.to)?;
        let mut moved = *self;
        (moved.group, moved.sender, moved.to) = ends;
        Some(moved)
    }
}

impl Move for NeedPlan {
    ghost by_places = { moved_need };

    fn moved(&self, units: &[Option<usize>], groups: &[Option<usize>]) -> Option<Self> {
        let mut moved = *self;
        (moved.unit, moved.group, moved.from) = where_all_are(
            place_at(units, self.unit),
            place_at(groups, self.group),
            moved_from(units, self.from),
        )?;
        Some(moved)
    }
}

impl Move for RequestPlan {
    ghost by_places = { moved_request };

    fn moved(&self, units: &[Option<usize>], groups: &[Option<usize>]) -> Option<Self> {
        let ends = moved_ends(units, groups, self.group, self.sender, self.to)?;
        let mut moved = *self;
        (moved.group, moved.sender, moved.to) = ends;
        Some(moved)
    }
}

// Those of some values of which the variant is in the box, by the places of its units and groups.
fn moved<T: Copy + Move>(
    alloc: Global,
    variant: &[usize],
    lists: &[Vec<Alternative>],
    values: &[T],
    units: &[Option<usize>],
    groups: &[Option<usize>],
) -> Result<Vec<T>, AllocError>
    ensures { IfOk result (λ v. v.items ≡ filter_map (T.by_places units.now groups.now)
        (picked (flags variant.now lists.now) values.now)) }
{
    let are_there = flags(alloc, variant, lists)?;
    let there = picked(alloc, &are_there, values)?;
    there
        .iter()
        .filter_map(|value| value.moved(units, groups))
        .collect(alloc)
}

/// The plan of a variant, which takes the alternatives of these places, choice by choice.
pub fn plan_of(alloc: Global, line: &ProductLine, variant: &[usize]) -> Result<Plan, AllocError>
    ensures { IfOk result (IsVariantPlan line.now variant.now) }
{
    let units_there = flags(alloc, variant, &line.lists.units)?;
    let groups_there = flags(alloc, variant, &line.lists.groups)?;
    let unit_places = places(alloc, &units_there)?;
    let group_places = places(alloc, &groups_there)?;
    let units = picked(alloc, &units_there, &line.plan.units)?;
    let groups = copies(alloc, &groups_there, &line.plan.groups)?;
    let flows = moved(
        alloc,
        variant,
        &line.lists.flows,
        &line.plan.flows,
        &unit_places,
        &group_places,
    )?;
    let needs = moved(
        alloc,
        variant,
        &line.lists.needs,
        &line.plan.needs,
        &unit_places,
        &group_places,
    )?;
    let requests = moved(
        alloc,
        variant,
        &line.lists.requests,
        &line.plan.requests,
        &unit_places,
        &group_places,
    )?;
    Ok(Plan {
        keep_free: line.plan.keep_free.copy(),
        strangers: line.plan.strangers,
        live: line.plan.live,
        timing: line.plan.timing,
        units,
        groups,
        flows,
        needs,
        requests,
    })
}
