//! A unit that claims an address, or has one without claiming it.
ghost use Rattle.std.specs.Prelude.{◌≡◌, true, false, None};
ghost use Rattle.std.specs.FinSet as set;
ghost use Rattle.j39_claim.specs.ClaimRule.{Reacts, started, off, claim_of, said_by, say_of};
ghost use Rattle.j39_claim.specs.declared.item.Item.TheVariants.{AddressClaimed};
ghost use Rattle.j39_claim.specs.ClaimerValue.{can_note};
ghost use Rattle.j39_claim.specs.ExactAnswer.{said_exactly, left_exactly, moved_to, IsFreeMove};

use crate::notes::Notes;
use crate::{AddressSet, Choose, Say};
use j39_id::{Address, Name};
use std::marker::Model;

/// A unit that claims an address under a NAME (SAE J1939-81, address claim procedures). One that doesn't claim, as
/// older ones, is set to its address: it hears what others say and does nothing.
#[derive(Drop)]
pub struct Claimer {
    name: Name,
    preferred: Address,
    kept: AddressSet,
    claims: bool,
    started: bool,
    address: Option<Address>,
    notes: Notes,
}

impl Model for Claimer {
    ghost use Rattle.std.specs.Prelude.{◌≡◌, false, None};
    ghost use Rattle.j39_claim.specs.ClaimerValue.{ClaimerValue, coded_claimer};

    ghost Value = { ClaimerValue };

    ghost coded = { coded_claimer };

    ghost view = { λ a. record {
      planned = record { name = a.name; preferred = a.preferred; kept = a.kept; claims = a.claims };
      state = record { on = a.started; address = a.address; notes = a.notes };
    } };

    ghost invariant = { λ a. a.started ≡ false → a.address ≡ None };
}

impl Claimer {
    /// A unit that is not started. It holds no address and has no notes.
    pub fn new(name: Name, preferred: Address) -> Self
        ensures { result
            ≡ record {
              planned = record
                  { name = name; preferred = preferred; kept = set.empty; claims = true };
              state = off;
            } }
    {
        Claimer::with_kept(name, preferred, AddressSet::new())
    }

    /// The same, of a unit that never moves to one of the kept addresses.
    pub fn with_kept(name: Name, preferred: Address, kept: AddressSet) -> Self
        ensures { result
            ≡ record {
              planned = record
                  { name = name; preferred = preferred; kept = kept; claims = true };
              state = off;
            } }
    {
        Claimer::planned(name, preferred, kept, true)
    }

    /// The same, of a unit that may not claim.
    pub fn planned(name: Name, preferred: Address, kept: AddressSet, claims: bool) -> Self
        ensures { result
            ≡ record {
              planned = record
                  { name = name; preferred = preferred; kept = kept; claims = claims };
              state = off;
            } }
    {
        Claimer {
            name,
            preferred,
            kept,
            claims,
            started: false,
            address: None,
            notes: Notes::new(),
        }
    }

    /// Begins anew, with no notes and the preferred address, and claims it, if it claims.
    pub fn start(&mut self) -> Option<Say>
        ensures said { result ≡ said_by self.old.planned (Say.Claim self.old.planned.preferred) }
        ensures started { self.new ≡ record self.old { state = started self.old.planned } }
    {
        self.stop();
        self.started = true;
        self.address = Some(self.preferred);
        self.said(Say::Claim(self.preferred))
    }

    /// Ends: it is not started, holds no address and has no notes.
    pub fn stop(&mut self)
        ensures { self.new ≡ record self.old { state = off } }
    {
        self.started = false;
        self.address = None;
        self.notes = Notes::new();
    }

    // What it says of itself: nothing, if it doesn't claim.
    fn said(&self, say: Say) -> Option<Say>
        ensures { result ≡ said_by self.now.planned say }
    {
        if self.claims { Some(say) } else { None }
    }

    /// The NAME that it claims under.
    pub fn name(&self) -> Name
        ensures { result ≡ self.now.planned.name }
    {
        self.name
    }

    /// Whether it was started.
    pub fn is_started(&self) -> bool
        ensures { result ≡ self.now.state.on }
    {
        self.started
    }

    /// The address that it holds. A unit that is not started holds none.
    pub fn address(&self) -> Option<Address>
        ensures address { result ≡ self.now.state.address }
        ensures unstarted { self.now.state.on ≡ false → result ≡ None }
    {
        self.address
    }

    /// Whether it can note what it hears of the NAME: it has noted it already, or fewer NAMEs than a network has units.
    pub fn can_note(&self, name: Name) -> bool
        ensures { result ≡ can_note self.now.state.notes name }
    {
        self.notes.can_note(name)
    }

    /// What it answers to a request for Address Claimed: Claim of its address, or Cannot where it holds none. One that
    /// doesn't claim answers nothing.
    pub fn hear_request(&self) -> Option<Say>
        ensures { result ≡ said_by self.now.planned (claim_of self.now.state.address) }
    {
        self.said(claim_of(self.address))
    }

    /// What it answers to Address Claimed of this address under the NAME. A number above 253 is Cannot Claim.
    /// The smaller NAME keeps an address, and an arbitrary unit that loses its own moves to what the chooser picks. One
    /// that doesn't claim answers nothing and stays as it was.
    pub fn hear_claim(&mut self, name: Name, address: u8, chooser: &dyn Choose) -> Option<Say>
        requires { can_note self.old.state.notes name ≡ true }
        ensures said { result ≡ said_exactly (pick chooser.now) self.old.planned self.old.state name (say_of address) }
        ensures left { self.new
            ≡ record self.old {
              state = left_exactly (pick chooser.now) self.old.planned self.old.state name
                  (say_of address);
            } }
        ensures rule { Reacts self.old.planned self.old.state name
            (AddressClaimed (say_of address)) result self.new.state }
    {
        if !self.claims {
            return None;
        }
        let claimed = match Address::new(address) {
            Some(claimed) => claimed,
            None => {
                self.notes.forget(name);
                return None;
            }
        };
        self.notes.note(name, claimed);
        if self.address != Some(claimed) {
            return None;
        }
        let yields = name < self.name;
        if yields {
            let taken = self.notes.addresses().union(&self.kept);
            self.address = moved_to(self.name, claimed, &taken, chooser);
        }
        Some(claim_of(self.address))
    }
}

/// Claim of the address that is held, or Cannot.
fn claim_of(address: Option<Address>) -> Say
    ensures { result ≡ claim_of address }
{
    match address {
        Some(address) => Say::Claim(address),
        None => Say::Cannot,
    }
}

/// Where a unit moves that loses an address: a fixed one holds none from then on, nor does one with no free address
/// left.
fn moved_to(name: Name, lost: Address, taken: &AddressSet, chooser: &dyn Choose) -> Option<Address>
    ensures place { result ≡ moved_to (pick chooser.now) name lost taken.now }
    ensures free { IsFreeMove (pick chooser.now) name lost taken.now }
{
    if name.is_arbitrary() && taken.free_count() > 0 {
        Address::new(chooser.choose(name, lost.number(), taken))
    } else {
        None
    }
}
