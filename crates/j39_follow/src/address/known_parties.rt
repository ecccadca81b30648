//! Who is taken to be behind each address.
ghost use Rattle.std.specs.Prelude.{◌≡◌, List, IfSome};
ghost use Rattle.j39_network.specs.declared.plan.Plan.{Plan as APlan};
ghost use Rattle.j39_follow.specs.Contests.{IsTaken, Timed};
ghost use Rattle.j39_follow.specs.Who.{who_text};
ghost use Rattle.j39_follow.specs.inside.Contesting.{ShowsParties};
ghost use Rattle.j39_follow.specs.inside.Recounting.{HasNames, party_at};

use crate::address::who::Who;
use j39_id::Ident;
use j39_text::TextBuffer;

/// The addresses of a network: 0 to 255.
pub(crate) const ADDRESSES: usize = 256;

/// Who is taken to be behind each address, and the texts of it, if they are kept.
#[derive(Drop)]
pub(crate) struct Parties {
    pub all: [Who; ADDRESSES],
    pub names: Option<Vec<TextBuffer>>,
}

impl Parties {
    /// Who is behind an address.
    pub fn party(&self, address: u8) -> Who
        ensures { result ≡ party_at self.now.all address }
    {
        self.all[usize::from(address)]
    }

    /// Who sent a frame.
    pub fn source(&self, ident: Ident) -> Who
        ensures { (plan : APlan) (log : List Timed) → ShowsParties plan self.now log ident
            → IsTaken plan log ident.sa result }
    {
        self.party(ident.sa)
    }

    /// Who is behind the address to which a frame goes.
    pub fn receiver(&self, ident: Ident) -> Who
        ensures { (plan : APlan) (log : List Timed) → ShowsParties plan self.now log ident
            → IsTaken plan log ident.ps result }
    {
        self.party(ident.ps)
    }

    /// The text of who is behind an address, if it is kept.
    pub fn name(&self, address: u8) -> Option<&[u8]>
        ensures { IfSome result (λ name. (plan : APlan) → HasNames plan self.now.all self.now.names
            → name.now ≡ who_text plan (party_at self.now.all address) address) }
    {
        let Some(names) = &self.names else {
            return None;
        };
        match names.get(usize::from(address)) {
            Some(name) => Some(name.as_slice()),
            None => None,
        }
    }
}
