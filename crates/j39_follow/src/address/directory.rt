//! Who stands behind each address.
ghost use Rattle.std.specs.Prelude.{◌≡◌, [], ◌∷◌, ◌++◌, List, length, IfOk};
ghost use Rattle.j39_id.specs.declared.frame.Frame.{Frame as AFrame};
ghost use Rattle.j39_network.specs.declared.plan.Plan.{Plan as APlan};
ghost use Rattle.j39_follow.specs.Holders.{IsHolder};
ghost use Rattle.j39_follow.specs.inside.Contesting.{IsGuess, IsLikelyName, IsNameAt};
ghost use Rattle.j39_follow.specs.inside.Recounting.{ArePartiesOf, HasNames, Knows, Recounts};

use crate::address::holders::Holders;
use crate::address::known_parties::{ADDRESSES, Parties};
use crate::address::naming::names_of;
use crate::address::who::{Who, who_at};
use j39_id::Frame;
use j39_network::Plan;
use j39_text::TextBuffer;
use std::alloc::{AllocError, Global};

/// Who stands behind each address, by the frames that were heard, and the texts of it as long as no memory was refused
/// to them.
#[derive(Drop)]
pub(crate) struct Directory {
    alloc: Global,
    // 6 KB, so they aren't kept on the stack.
    holders: Box<Holders>,
    parties: Parties,
}

// Who stands behind each address, as the holders report.
fn parties_of(plan: &Plan, holders: &Holders) -> [Who; ADDRESSES]
    ensures { (frames : List AFrame) → Recounts plan.now holders.now frames → ArePartiesOf plan.now frames result }
{
    let mut parties = [Who::Unknown; ADDRESSES];
    for address in 0..ADDRESSES {
        parties[address] = who_at(plan, holders, address as u8);
    }
    parties
}

// The texts of who stands behind each address, if there is memory for them.
fn kept_names(alloc: Global, plan: &Plan, parties: &[Who; ADDRESSES]) -> Option<Vec<TextBuffer>>
    ensures { HasNames plan.now parties.now result }
{
    match names_of(alloc, plan, parties) {
        Ok(names) => Some(names),
        Err(_) => None,
    }
}

// The NAME of the unit at a place, if there is one.
fn name_of(plan: &Plan, place: usize) -> Option<u64>
    ensures { IsNameAt plan.now place result }
{
    if place < plan.units.len() {
        let unit = &plan.units[place];
        Some(unit.name.to_bits())
    } else {
        None
    }
}

// The NAME of the unit that is likely, if one is.
fn likely_name(plan: &Plan, who: Who) -> Option<u64>
    ensures { IsLikelyName plan.now who result }
{
    match who {
        Who::Likely(unit) => name_of(plan, unit),
        Who::Holder(_) | Who::Stranger(_) | Who::LikelyStranger(_) | Who::Unknown => None,
    }
}

impl Directory {
    pub fn new(alloc: Global, plan: &Plan) -> Result<Self, AllocError>
        ensures { IfOk result (λ directory. Knows plan.now directory []) }
    {
        let holders = Box::new(alloc, Holders::new())?;
        let all = parties_of(plan, &*holders);
        let names = kept_names(alloc, plan, &all);
        Ok(Directory {
            alloc,
            holders,
            parties: Parties { all, names },
        })
    }

    /// The holders of the addresses.
    pub fn holders(&self) -> &Holders
        ensures { result.now ≡ self.now.holders.value }
    {
        &*self.holders
    }

    /// Who stands behind each address.
    pub fn parties(&self) -> &Parties
        ensures { result.now ≡ self.now.parties }
    {
        &self.parties
    }

    /// Who stands behind each address, as it is now.
    pub fn all_parties(&self) -> [Who; ADDRESSES]
        ensures { result ≡ self.now.parties.all }
    {
        self.parties.all
    }

    /// The NAME that holds an address.
    pub fn holder(&self, address: u8) -> Option<u64>
        ensures { (plan : APlan) (frames : List AFrame) → Knows plan self.now frames → IsHolder frames address result }
    {
        self.holders.holder(address)
    }

    /// The NAME of the unit that is guessed at an address, if no NAME holds it.
    pub fn guessed(&self, plan: &Plan, address: u8) -> Option<u64>
        ensures { (frames : List AFrame) → Knows plan.now self.now frames → IsGuess plan.now frames address result }
    {
        likely_name(plan, self.parties.party(address))
    }

    /// Notes what a frame reports behind so many others.
    pub fn hear(&mut self, plan: &Plan, frame: &Frame, count: u64)
        ensures { (frames : List AFrame) → length frames ≡ count → Knows plan.now self.old frames
            → Knows plan.now self.new (frames ++ frame.now ∷ []) }
    {
        self.holders.hear(plan, frame, count);
        let all = parties_of(plan, &*self.holders);
        let names = kept_names(self.alloc, plan, &all);
        self.parties = Parties { all, names };
    }
}
