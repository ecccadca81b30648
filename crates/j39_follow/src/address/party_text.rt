//! The texts of who stands behind an address.
ghost use Rattle.std.specs.Prelude.{◌≡◌, ◌++◌, ℕ, List, OnOk, codes, if◌then◌else◌};
ghost use Rattle.j39_follow.specs.Contests.{Timed};
ghost use Rattle.j39_follow.specs.FollowReports.{IsWay, answer_way_text, identity_text, is_to_all as goes_to_all};
ghost use Rattle.j39_follow.specs.FollowReports.{named_text};
ghost use Rattle.j39_follow.specs.Who.{name_text, party_text, who_text};
ghost use Rattle.j39_follow.specs.inside.Contesting.{ShowsParties};
ghost use Rattle.j39_follow.specs.inside.Recounting.{HasNames, party_at};

use crate::address::known_parties::Parties;
use crate::address::who::{Who, is_of_any, unit_named};
use j39_id::Ident;
use j39_id::addresses::GLOBAL_ADDRESS;
use j39_network::Plan;
use j39_text::{TextBuffer, WriteResult, unit_label};

// The identity numbers of NAMEs: 0 to 2,097,151.
const IDENTITIES: u64 = 1 << 21;

/// Writes a NAME of no unit.
#[tactic(auto, unfolding(crate::specs::Who::name_text))]
pub fn write_name(text: &mut TextBuffer, name: u64) -> WriteResult
    ensures { OnOk result (text.new ≡ text.old ++ name_text name) }
{
    text.word("#")?;
    text.hex(&name.to_be_bytes())
}

/// Writes a unit by its NAME.
#[tactic(auto, unfolding(crate::specs::FollowReports::named_text))]
pub(crate) fn write_named(text: &mut TextBuffer, plan: &Plan, name: u64) -> WriteResult
    ensures { OnOk result (text.new ≡ text.old ++ named_text plan.now name) }
{
    match unit_named(plan, name) {
        Some(unit) => text.word(unit_label(plan, unit)),
        None => write_name(text, name),
    }
}

/// Writes the serial number of the box of a NAME, where its unit is of any.
#[tactic(auto, unfolding(crate::specs::FollowReports::identity_text))]
pub(crate) fn write_identity(text: &mut TextBuffer, plan: &Plan, name: u64) -> WriteResult
    ensures { OnOk result (text.new ≡ text.old ++ identity_text plan.now name) }
{
    if is_of_any(plan, unit_named(plan, name)) {
        text.field(" identity ", name % IDENTITIES)
    } else {
        Ok(())
    }
}

#[tactic(auto, unfolding(crate::specs::Who::party_text))]
fn write_party(text: &mut TextBuffer, plan: &Plan, who: Who) -> WriteResult
    ensures { OnOk result (text.new ≡ text.old ++ party_text plan.now who) }
{
    match who {
        Who::Holder(unit) => text.word(unit_label(plan, unit)),
        Who::Stranger(name) => write_name(text, name),
        Who::Likely(unit) => {
            text.word(unit_label(plan, unit))?;
            text.word("?")
        }
        Who::LikelyStranger(name) => {
            write_name(text, name)?;
            text.word("?")
        }
        Who::Unknown => text.word("?"),
    }
}

/// Writes who stands behind an address.
#[tactic(auto, unfolding(crate::specs::Who::who_text, j39_text::specs::Texts::field_text))]
pub(crate) fn write_who(text: &mut TextBuffer, plan: &Plan, who: Who, address: u8) -> WriteResult
    ensures { OnOk result (text.new ≡ text.old ++ who_text plan.now who address) }
{
    write_party(text, plan, who)?;
    text.field("@", address)
}

/// Whether a frame goes to all.
pub(crate) fn is_to_all(ident: Ident) -> bool
    ensures { result ≡ goes_to_all ident }
{
    !ident.pgn().is_pdu1() || ident.ps == GLOBAL_ADDRESS
}

// Writes who stands behind an address, from the text that was kept of it where there is one.
fn write_party_at(text: &mut TextBuffer, plan: &Plan, parties: &Parties, address: u8) -> WriteResult
    ensures { OnOk result (HasNames plan.now parties.now.all parties.now.names
        → text.new ≡ text.old ++ who_text plan.now (party_at parties.now.all address) address) }
{
    match parties.name(address) {
        Some(name) => text.bytes(name),
        None => write_who(text, plan, parties.party(address), address),
    }
}

fn write_receiver(
    text: &mut TextBuffer,
    plan: &Plan,
    parties: &Parties,
    ident: Ident,
) -> WriteResult
    ensures { OnOk result (HasNames plan.now parties.now.all parties.now.names → text.new ≡ text.old
        ++ (codes " to "
        ++ (if goes_to_all ident then codes "all"
        else who_text plan.now (party_at parties.now.all ident.ps) ident.ps))) }
{
    if is_to_all(ident) {
        text.word(" to all")
    } else {
        text.word(" to ")?;
        write_party_at(text, plan, parties, ident.ps)
    }
}

/// Writes from whom to whom a frame goes, behind the word for it.
pub(crate) fn write_parties(
    text: &mut TextBuffer,
    plan: &Plan,
    parties: &Parties,
    ident: Ident,
) -> WriteResult
    ensures { OnOk result ((log : List Timed) → ShowsParties plan.now parties.now log ident
        → (way : List ℕ) × IsWay plan.now log ident (codes " from " ++ way) × (text.new ≡ text.old ++ way)) }
{
    write_party_at(text, plan, parties, ident.sa)?;
    write_receiver(text, plan, parties, ident)
}

/// Writes from whom to whom a frame goes.
pub(crate) fn write_way(
    text: &mut TextBuffer,
    plan: &Plan,
    parties: &Parties,
    ident: Ident,
) -> WriteResult
    ensures { OnOk result ((log : List Timed) → ShowsParties plan.now parties.now log ident
        → (way : List ℕ) × IsWay plan.now log ident way × (text.new ≡ text.old ++ way)) }
{
    text.word(" from ")?;
    write_parties(text, plan, parties, ident)
}

/// Writes from whom an acknowledgement is, and who asked.
#[tactic(auto, unfolding(crate::specs::FollowReports::answer_way_text))]
pub(crate) fn write_answer_way(
    text: &mut TextBuffer,
    plan: &Plan,
    parties: &Parties,
    source: u8,
    asker: u8,
) -> WriteResult
    ensures { OnOk result (HasNames plan.now parties.now.all parties.now.names → text.new ≡ text.old
        ++ answer_way_text plan.now (party_at parties.now.all source) source (party_at parties.now.all asker) asker) }
{
    text.word(" from ")?;
    write_party_at(text, plan, parties, source)?;
    text.word(" to ")?;
    if asker == GLOBAL_ADDRESS {
        text.word("all")
    } else {
        write_party_at(text, plan, parties, asker)
    }
}
