//! Findings at their places in the file of a line of vehicles.
ghost use Rattle.std.specs.Prelude.{◌≡◌};
ghost use Rattle.j39_line_findings.specs.InFile.{amount_of, finding_in_file, finding_rank, load_finding_in_file};
ghost use Rattle.j39_line_findings.specs.InFile.{load_finding_rank, rank_by, rank_of};

use crate::rank::Rank;
use crate::there::{Present, place_in_file};
use j39_findings::Finding;
use j39_load::LoadFinding;

/// One thing that is wrong with the plan of a variant, named by places in the file of its line.
#[derive(Clone, Copy)]
pub enum LineFinding {
    /// With what the plan says.
    OfPlan(Finding),
    /// With what it asks of its bus.
    OfLoad(LoadFinding),
}

/// A finding of the plan of a variant, at its places in the file.
pub(crate) fn finding_in_file(there: &Present, finding: Finding) -> Finding
    ensures { result ≡ finding_in_file there.now finding }
{
    match finding {
        Finding::SameName(u1, u2) => Finding::SameName(
            place_in_file(&there.units, u1),
            place_in_file(&there.units, u2),
        ),
        Finding::SameFixedAddress(u1, u2) => Finding::SameFixedAddress(
            place_in_file(&there.units, u1),
            place_in_file(&there.units, u2),
        ),
        Finding::TooFewAddresses(n) => Finding::TooFewAddresses(n),
        Finding::BadPgn(g) => Finding::BadPgn(place_in_file(&there.groups, g)),
        Finding::SamePgn(g1, g2) => Finding::SamePgn(
            place_in_file(&there.groups, g1),
            place_in_file(&there.groups, g2),
        ),
        Finding::SignalWidth(g, s) => Finding::SignalWidth(place_in_file(&there.groups, g), s),
        Finding::SignalOutside(g, s) => Finding::SignalOutside(place_in_file(&there.groups, g), s),
        Finding::SignalOverlap(g1, s2, s3) => Finding::SignalOverlap(
            place_in_file(&there.groups, g1),
            s2,
            s3,
        ),
        Finding::FlowToOne(f) => Finding::FlowToOne(place_in_file(&there.flows, f)),
        Finding::FlowToSelf(f) => Finding::FlowToSelf(place_in_file(&there.flows, f)),
        Finding::FlowRepeated(f1, f2) => Finding::FlowRepeated(
            place_in_file(&there.flows, f1),
            place_in_file(&there.flows, f2),
        ),
        Finding::KeptAddress(u) => Finding::KeptAddress(place_in_file(&there.units, u)),
        Finding::PrivateUnsent(g) => Finding::PrivateUnsent(place_in_file(&there.groups, g)),
        Finding::RecordOverlap(g1, s2, s3) => Finding::RecordOverlap(
            place_in_file(&there.groups, g1),
            s2,
            s3,
        ),
        Finding::TextOutside(g, s) => Finding::TextOutside(place_in_file(&there.groups, g), s),
        Finding::NeedUnmet(d) => Finding::NeedUnmet(place_in_file(&there.needs, d)),
        Finding::RequestUnanswered(r) => Finding::RequestUnanswered(place_in_file(
            &there.requests,
            r,
        )),
        Finding::RequestUnheard(r) => Finding::RequestUnheard(place_in_file(&there.requests, r)),
        Finding::AnswerAstray(r) => Finding::AnswerAstray(place_in_file(&there.requests, r)),
        Finding::WhenOutside(g) => Finding::WhenOutside(place_in_file(&there.groups, g)),
        Finding::RequestRepeated(r1, r2) => Finding::RequestRepeated(
            place_in_file(&there.requests, r1),
            place_in_file(&there.requests, r2),
        ),
        Finding::SilentAddress(u1, u2) => Finding::SilentAddress(
            place_in_file(&there.units, u1),
            place_in_file(&there.units, u2),
        ),
        Finding::SilentInPool(u) => Finding::SilentInPool(place_in_file(&there.units, u)),
        Finding::FlowContested(f) => Finding::FlowContested(place_in_file(&there.flows, f)),
    }
}

/// One of its load, alike.
pub(crate) fn load_finding_in_file(there: &Present, finding: LoadFinding) -> LoadFinding
    ensures { result ≡ load_finding_in_file there.now finding }
{
    match finding {
        LoadFinding::NoPeriod(f) => LoadFinding::NoPeriod(place_in_file(&there.flows, f)),
        LoadFinding::Overload(n) => LoadFinding::Overload(n),
        LoadFinding::LateFlow(f) => LoadFinding::LateFlow(place_in_file(&there.flows, f)),
        LoadFinding::NeedTooOld(d) => LoadFinding::NeedTooOld(place_in_file(&there.needs, d)),
        LoadFinding::AskedTooOften(f) => LoadFinding::AskedTooOften(place_in_file(&there.flows, f)),
    }
}

fn rank_by(number: u8, first: usize, second: usize, third: usize) -> Rank
    ensures { result ≡ rank_by number first second third }
{
    Rank {
        number,
        first,
        second,
        third,
    }
}

fn finding_rank(finding: Finding) -> Rank
    ensures { result ≡ finding_rank finding }
{
    match finding {
        Finding::SameName(u1, u2) => rank_by(1, u1, u2, 0),
        Finding::SameFixedAddress(u1, u2) => rank_by(2, u1, u2, 0),
        Finding::TooFewAddresses(_) => rank_by(3, 0, 0, 0),
        Finding::BadPgn(g) => rank_by(4, g, 0, 0),
        Finding::SamePgn(g1, g2) => rank_by(5, g1, g2, 0),
        Finding::SignalWidth(g, s) => rank_by(6, g, s, 0),
        Finding::SignalOutside(g, s) => rank_by(7, g, s, 0),
        Finding::SignalOverlap(g1, s2, s3) => rank_by(8, g1, s2, s3),
        Finding::FlowToOne(f) => rank_by(9, f, 0, 0),
        Finding::FlowToSelf(f) => rank_by(10, f, 0, 0),
        Finding::FlowRepeated(f1, f2) => rank_by(11, f1, f2, 0),
        Finding::KeptAddress(u) => rank_by(12, u, 0, 0),
        Finding::PrivateUnsent(g) => rank_by(13, g, 0, 0),
        Finding::RecordOverlap(g1, s2, s3) => rank_by(14, g1, s2, s3),
        Finding::TextOutside(g, s) => rank_by(15, g, s, 0),
        Finding::NeedUnmet(d) => rank_by(19, d, 0, 0),
        Finding::RequestUnanswered(r) => rank_by(21, r, 0, 0),
        Finding::RequestUnheard(r) => rank_by(22, r, 0, 0),
        Finding::AnswerAstray(r) => rank_by(23, r, 0, 0),
        Finding::WhenOutside(g) => rank_by(24, g, 0, 0),
        Finding::RequestRepeated(r1, r2) => rank_by(25, r1, r2, 0),
        Finding::SilentAddress(u1, u2) => rank_by(26, u1, u2, 0),
        Finding::SilentInPool(u) => rank_by(27, u, 0, 0),
        Finding::FlowContested(f) => rank_by(28, f, 0, 0),
    }
}

fn load_finding_rank(finding: LoadFinding) -> Rank
    ensures { result ≡ load_finding_rank finding }
{
    match finding {
        LoadFinding::NoPeriod(f) => rank_by(16, f, 0, 0),
        LoadFinding::Overload(_) => rank_by(17, 0, 0, 0),
        LoadFinding::LateFlow(f) => rank_by(18, f, 0, 0),
        LoadFinding::NeedTooOld(d) => rank_by(20, d, 0, 0),
        LoadFinding::AskedTooOften(f) => rank_by(31, f, 0, 0),
    }
}

impl LineFinding {
    /// By what it is reported: its number, and the places that it names.
    pub fn rank(self) -> Rank
        ensures { result ≡ rank_of self }
    {
        match self {
            LineFinding::OfPlan(finding) => finding_rank(finding),
            LineFinding::OfLoad(finding) => load_finding_rank(finding),
        }
    }

    // How many addresses are needed, or how many bits the load has.
    pub(crate) fn amount(self) -> u64
        ensures { result ≡ amount_of self }
    {
        match self {
            LineFinding::OfPlan(Finding::TooFewAddresses(count)) => count as u64,
            LineFinding::OfLoad(LoadFinding::Overload(bits)) => bits,
            _ => 0,
        }
    }
}
