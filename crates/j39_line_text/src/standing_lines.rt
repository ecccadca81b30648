//! The lines that say which units of a line of vehicles stay.
ghost use Rattle.std.specs.Prelude.{◌≡◌, ◌++◌, IfOk, OnOk};
ghost use Rattle.j39_line_text.specs.StandingLines.{is_staying, line_unit_text, standing_text, standings_text};
ghost use Rattle.j39_line_text.specs.StandingLines.{shown_standing, shown_standings};

use crate::possible_places::is_place_possible;
use j39_line_bounds::LineStanding;
use j39_network::UnitPlan;
use j39_plan_text::{WriteLines, write_each};
use j39_text::{TextBuffer, WriteResult};
use std::alloc::{AllocError, Global};

#[tactic(auto, unfolding(crate::specs::StandingLines::standing_text))]
fn write_standing(text: &mut TextBuffer, standing: LineStanding, address: u8) -> WriteResult
    ensures { OnOk result (text.new ≡ text.old ++ standing_text standing address) }
{
    match standing {
        LineStanding::NoVariant => text.word(" no variant"),
        LineStanding::Stays => text.field(" stays ", address),
        LineStanding::MayMove => text.field(" may move from ", address),
    }
}

#[tactic(auto, unfolding(crate::specs::StandingLines::line_unit_text))]
fn write_unit(text: &mut TextBuffer, standing: LineStanding, unit: &UnitPlan) -> WriteResult
    ensures { OnOk result (text.new ≡ text.old ++ line_unit_text standing unit.now) }
{
    text.word("unit ")?;
    text.word(unit.label.as_str())?;
    write_standing(text, standing, unit.address.number())?;
    text.end_line()
}

// That no possible variant has a unit, where these say so, though a variant looked at does.
fn shown_standing(possible: &[bool], standings: &[LineStanding], place: usize) -> LineStanding
    ensures { result ≡ shown_standing possible.now standings.now place }
{
    if !is_place_possible(possible, place) {
        return LineStanding::NoVariant;
    }
    match standings.get(place) {
        Some(standing) => *standing,
        None => LineStanding::NoVariant,
    }
}

/// What is written of each unit, where this is reported of it, and these say of each whether some possible variant has
/// it.
pub(crate) fn shown_standings(
    alloc: Global,
    possible: &[bool],
    standings: &[LineStanding],
) -> Result<Vec<LineStanding>, AllocError>
    ensures { IfOk result (λ v. v.items ≡ shown_standings possible.now standings.now) }
{
    (0..standings.len())
        .map(|place| shown_standing(possible, standings, place))
        .collect(alloc)
}

// Writes each unit, of which this is reported.
#[derive(Drop)]
struct UnitStandings<'a>(&'a [LineStanding]);

impl WriteLines<UnitPlan> for UnitStandings<'_> {
    ghost use Rattle.j39_line_text.specs.StandingLines.{line_unit_at};

    ghost lines = { λ w. line_unit_at w.0.now };

    fn write(&self, text: &mut TextBuffer, at: usize, unit: &UnitPlan) -> WriteResult {
        match self.0.get(at) {
            Some(standing) => write_unit(text, *standing, unit),
            None => write_unit(text, LineStanding::NoVariant, unit),
        }
    }
}

fn is_staying(standing: LineStanding) -> bool
    ensures { result ≡ is_staying standing }
{
    matches!(standing, LineStanding::Stays)
}

#[tactic(auto, unfolding(crate::specs::StandingLines::standings_text))]
fn write_standings(
    text: &mut TextBuffer,
    standings: &[LineStanding],
    units: &[UnitPlan],
) -> WriteResult
    ensures { OnOk result (text.new ≡ text.old ++ standings_text standings.now units.now) }
{
    write_each(text, &UnitStandings(standings), units)?;
    let staying = standings
        .iter()
        .filter(|standing| is_staying(**standing))
        .count();
    text.field("stay ", staying)?;
    text.field(" of ", units.len())?;
    text.end_line()
}

/// A line for each unit of a line of vehicles, in order, of which this is reported, and how many of them stay.
pub(crate) fn standings_text(
    alloc: Global,
    standings: &[LineStanding],
    units: &[UnitPlan],
) -> Result<TextBuffer, AllocError>
    ensures { IfOk result (λ text. text ≡ standings_text standings.now units.now) }
{
    let mut text = TextBuffer::new(alloc);
    write_standings(&mut text, standings, units)?;
    Ok(text)
}
