//! The words that orders begin with.
ghost use Rattle.std.specs.Prelude.{◌≡◌, option_map};
ghost use Rattle.j39_schedule.specs.Schedule.{as_ordered, does, order_named};
ghost use Rattle.j39_schedule.specs.inside.OrderWords.{beside, message_order, order_word, unit_step, units_step};

use j39_network::Step;

/// An order for a unit.
#[derive(Clone, Copy)]
pub enum UnitOrder {
    Up,
    Down,
    Ask,
    Emit,
    Rest,
}

impl UnitOrder {
    /// The step that is ordered of this unit.
    pub fn step(self, unit: usize) -> Step
        ensures step { result ≡ unit_step self unit }
        ensures without_bytes { as_ordered result ≡ does result }
    {
        match self {
            UnitOrder::Up => Step::Up(unit),
            UnitOrder::Down => Step::Down(unit),
            UnitOrder::Ask => Step::Ask(unit),
            UnitOrder::Emit => Step::Emit(unit),
            UnitOrder::Rest => Step::Rest(unit),
        }
    }
}

/// An order for two units.
#[derive(Clone, Copy)]
pub enum UnitsOrder {
    Give,
    Take,
    Lose,
}

impl UnitsOrder {
    /// The step that is ordered of these units.
    pub fn step(self, from: usize, to: usize) -> Step
        ensures step { result ≡ units_step self from to }
        ensures without_bytes { as_ordered result ≡ does result }
    {
        match self {
            UnitsOrder::Give => Step::Give(from, to),
            UnitsOrder::Take => Step::Take(from, to),
            UnitsOrder::Lose => Step::Lose(from, to),
        }
    }
}

/// An order for a message of a flow.
#[derive(Clone, Copy)]
pub enum MessageOrder {
    Begin,
    Send,
}

impl MessageOrder {
    /// The step that is ordered of this flow with these bytes.
    pub fn step(self, flow: usize, bytes: Vec<u8>) -> Step
        ensures { as_ordered result ≡ message_order self flow bytes.items }
    {
        match self {
            MessageOrder::Begin => Step::Begin(flow, bytes),
            MessageOrder::Send => Step::Send(flow, bytes),
        }
    }
}

/// A word that an order begins with.
#[derive(Clone, Copy)]
pub enum OrderWord {
    OfUnit(UnitOrder),
    OfUnits(UnitsOrder),
    OfMessage(MessageOrder),
    Late,
}

// Each word, with what begins with it.
const WORDS: [(&str, OrderWord); 11] = [
    ("up", OrderWord::OfUnit(UnitOrder::Up)),
    ("down", OrderWord::OfUnit(UnitOrder::Down)),
    ("give", OrderWord::OfUnits(UnitsOrder::Give)),
    ("ask", OrderWord::OfUnit(UnitOrder::Ask)),
    ("begin", OrderWord::OfMessage(MessageOrder::Begin)),
    ("send", OrderWord::OfMessage(MessageOrder::Send)),
    ("emit", OrderWord::OfUnit(UnitOrder::Emit)),
    ("take", OrderWord::OfUnits(UnitsOrder::Take)),
    ("lose", OrderWord::OfUnits(UnitsOrder::Lose)),
    ("late", OrderWord::Late),
    ("rest", OrderWord::OfUnit(UnitOrder::Rest)),
];

// What stands beside a text in a table.
#[tactic(auto, unfolding(crate::specs::inside::OrderWords::beside))]
fn beside(words: &[(&str, OrderWord)], text: &[u8]) -> Option<OrderWord>
    ensures { result ≡ beside words.now text.now }
{
    for named in words {
        if named.0.as_bytes() == text {
            return Some(named.1);
        }
    }
    None
}

impl OrderWord {
    /// The order word that is spelled so.
    pub fn spelled(text: &[u8]) -> Option<Self>
        ensures { option_map order_word result ≡ order_named text.now }
    {
        beside(&WORDS, text)
    }
}
