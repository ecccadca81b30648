//! What can be wrong with a plan.
ghost use Rattle.std.specs.Prelude.{◌≡◌};

/// One thing that is wrong with a plan, named by places from 0. Findings are in order by their number, then by their
/// places.
#[derive(Clone, Copy)]
pub enum Finding {
    /// F1: two units may be one: they have one NAME, or nothing but serial numbers distinguishes them, and not both are
    /// given.
    SameName(usize, usize),
    /// F2: two fixed units that claim have one address.
    SameFixedAddress(usize, usize),
    /// F3: this many units need an address of 128 to 247 that isn't kept free, and there are fewer.
    TooFewAddresses(usize),
    /// F4: the group's PGN is none, or one that may not be planned, or it is a maker's own and the group isn't private,
    /// or the other way round.
    BadPgn(usize),
    /// F5: two groups have one PGN, and their selectors don't differ in the value alone; of private ones only where a
    /// unit sends both to receivers that meet.
    SamePgn(usize, usize),
    /// F6: of a group, the signal's width doesn't fit its kind.
    SignalWidth(usize, usize),
    /// F7: of a group, the signal ends behind the group's last bit.
    SignalOutside(usize, usize),
    /// F8: of a group, two signals share a bit.
    SignalOverlap(usize, usize, usize),
    /// F9: the flow sends a frame to one unit that has no destination (SAE J1939-21, PDU2).
    FlowToOne(usize),
    /// F10: the flow's sender is its receiver.
    FlowToSelf(usize),
    /// F11: two flows have one group, sender and receiver.
    FlowRepeated(usize, usize),
    /// F12: the arbitrary unit prefers an address that is kept free.
    KeptAddress(usize),
    /// F13: the private group is sent by no flow.
    PrivateUnsent(usize),
    /// F14: of a group, the first signal is repeated and comes, in a later record, onto a bit of the second; or both
    /// are repeated, and a later record of one of them comes onto a bit of the other.
    RecordOverlap(usize, usize, usize),
    /// F15: of a group, the text begins behind the byte after the last one of the shortest message, or ends behind the
    /// last byte of the longest.
    TextOutside(usize, usize),
    /// F19: no flow brings the need's unit what it needs.
    NeedUnmet(usize),
    /// F21: one unit is asked, and no flow answers the request.
    RequestUnanswered(usize),
    /// F22: all units are asked, and no flow answers the request.
    RequestUnheard(usize),
    /// F23: one unit is asked, for a group whose messages can name a receiver, and only answered to all; or all are
    /// asked, and each answer goes to one unit.
    AnswerAstray(usize),
    /// F24: the bits of the group's selector end behind its shortest messages.
    WhenOutside(usize),
    /// F25: two requests are for one number, from one unit, and to the same.
    RequestRepeated(usize, usize),
    /// F26: two units have one address, and not both of them claim it.
    SilentAddress(usize, usize),
    /// F27: the unit never claims, and others may move to its address: it is one of 128 to 247, and isn't kept free, or
    /// strangers, which don't know what is, may come.
    SilentInPool(usize),
    /// F28: the plan is live, and an end of the flow isn't alone at its address: its sender, or the one unit that it
    /// goes to.
    FlowContested(usize),
}

impl Finding {
    ghost use Rattle.j39_findings.specs.Findings.{finding_number};

    /// The number under which it is known, without the F.
    pub fn number(&self) -> u8
        ensures { result ≡ finding_number self.now }
    {
        match self {
            Finding::SameName(..) => 1,
            Finding::SameFixedAddress(..) => 2,
            Finding::TooFewAddresses(_) => 3,
            Finding::BadPgn(_) => 4,
            Finding::SamePgn(..) => 5,
            Finding::SignalWidth(..) => 6,
            Finding::SignalOutside(..) => 7,
            Finding::SignalOverlap(..) => 8,
            Finding::FlowToOne(_) => 9,
            Finding::FlowToSelf(_) => 10,
            Finding::FlowRepeated(..) => 11,
            Finding::KeptAddress(_) => 12,
            Finding::PrivateUnsent(_) => 13,
            Finding::RecordOverlap(..) => 14,
            Finding::TextOutside(..) => 15,
            Finding::NeedUnmet(_) => 19,
            Finding::RequestUnanswered(_) => 21,
            Finding::RequestUnheard(_) => 22,
            Finding::AnswerAstray(_) => 23,
            Finding::WhenOutside(_) => 24,
            Finding::RequestRepeated(..) => 25,
            Finding::SilentAddress(..) => 26,
            Finding::SilentInPool(_) => 27,
            Finding::FlowContested(_) => 28,
        }
    }
}

/// Everything that is wrong with a plan, in order.
pub type Findings = Vec<Finding>;
