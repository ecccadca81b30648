//! Which signals of groups are met by others in later records.
ghost use Rattle.std.specs.Prelude.{◌≡◌, ◌≤◌, ◌+◌, ◌*◌, ◌/◌};
ghost use Rattle.j39_search.specs.Adding.{Adds};
ghost use Rattle.j39_search.specs.ListPlaces.{found_if};
ghost use Rattle.j39_findings.specs.Found.{comes_onto, do_records_meet, group_overlaps, overlaps_of, record_findings};

use crate::checking::finding::Finding;
use j39_network::GroupPlan;
use j39_search::{FindResult, Rule, find_each, push_if};
use j39_signal::Signal;

// The bits to the first record that stands further on than these.
fn bits_behind(every: u8, bits: u32) -> u32
    requires some { 1 ≤ every }
    requires range { bits ≤ 65535 }
    ensures value { result ≡ 8 * (every * (bits / (8 * every) + 1)) }
    ensures most { result ≤ bits + 2040 }
{
    let record = 8 * u32::from(every);
    bits - bits % record + record
}

// Whether a later one of so many records of the first signal comes onto the second.
fn comes_onto(every: u8, count: usize, signal: &Signal, other: &Signal) -> bool
    requires { 1 ≤ every }
    ensures { result ≡ comes_onto every count signal.now other.now }
{
    let gap = u32::from(other.start()).saturating_sub(signal.end());
    let nearest = gap / (8 * u32::from(every)) + 1;
    let behind = bits_behind(every, gap);
    let start = u32::from(signal.start()) + behind;
    let end = signal.end() + behind;
    (nearest as usize) < count && start.max(u32::from(other.start())) < end.min(other.end())
}

// A signal that is repeated, at its place in its group.
#[derive(Clone, Copy)]
struct RepeatedSignal<'a> {
    every: u8,
    count: usize,
    group: usize,
    place: usize,
    signal: &'a Signal,
    ghost every_positive: { 1 ≤ every },
}

fn do_records_meet(first: &RepeatedSignal, place: usize, second: &Signal) -> bool
    ensures { result
        ≡ do_records_meet first.now.every first.now.count first.now.place place first.now.signal.now second.now }
{
    let meets = comes_onto(first.every, first.count, first.signal, second);
    if second.is_repeated() {
        first.place <= place
            && (meets || comes_onto(first.every, first.count, second, first.signal))
    } else {
        meets
    }
}

impl Rule<Signal, Finding> for RepeatedSignal<'_> {
    ghost use Rattle.j39_findings.specs.declared.checking.finding.Finding.TheVariants.{RecordOverlap};

    ghost gives = { λ rule t other.
        found_if (do_records_meet rule.every rule.count rule.place t rule.signal.now other)
        (RecordOverlap rule.group rule.place t) };

    fn find(&self, findings: &mut Vec<Finding>, place: usize, other: &Signal) -> FindResult {
        push_if(
            findings,
            do_records_meet(self, place, other),
            Finding::RecordOverlap(self.group, self.place, place),
        )
    }
}

// The signals of a group of records.
#[derive(Clone, Copy)]
struct RecordSignals<'a> {
    every: u8,
    count: usize,
    group: usize,
    signals: &'a [Signal],
    ghost every_positive: { 1 ≤ every },
}

impl Rule<Signal, Finding> for RecordSignals<'_> {
    ghost gives = { λ rule s signal. overlaps_of rule.every rule.count rule.group rule.signals.now s signal };

    fn find(&self, findings: &mut Vec<Finding>, place: usize, signal: &Signal) -> FindResult {
        if !signal.is_repeated() {
            return Ok(());
        }
        let rule = RepeatedSignal {
            every: self.every,
            count: self.count,
            group: self.group,
            place,
            signal,
        };
        find_each(findings, &rule, self.signals)
    }
}

#[derive(Clone, Copy)]
struct Records;

impl Rule<GroupPlan, Finding> for Records {
    ghost gives = { λ _ g group. group_overlaps g group };

    fn find(&self, findings: &mut Vec<Finding>, place: usize, group: &GroupPlan) -> FindResult {
        let Some(every) = group.every else {
            return Ok(());
        };
        let rule = RecordSignals {
            every,
            count: group.record_count(usize::from(group.most)),
            group: place,
            signals: group.signals.as_slice(),
        };
        find_each(findings, &rule, &group.signals)
    }
}

/// Adds the signals that later records come onto.
#[tactic(auto, unfolding(crate::specs::Found::record_findings))]
pub fn find_in_records(findings: &mut Vec<Finding>, groups: &[GroupPlan]) -> FindResult
    ensures { Adds result findings.old.items findings.new.items (record_findings groups.now) }
{
    find_each(findings, &Records, groups)
}
