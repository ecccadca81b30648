//! Who is taken to be behind the addresses of a frame.
ghost use Rattle.std.specs.Prelude.{◌≡◌, ◌⊎◌, ℕ, None};
ghost use Rattle.j39_follow.specs.inside.Contesting.{defender_at, taken_party};
ghost use Rattle.j39_follow.specs.inside.Recounting.{party_at};

use crate::address::contests::Contests;
use crate::address::known_parties::Parties;
use crate::address::who::Who;
use j39_id::Ident;

// Who is taken to be behind an address: who defends it in a contest, else who stands there.
fn taken_for(who: Who, defender: Option<Who>) -> Who
    ensures { result ≡ taken_party who defender }
{
    match defender {
        Some(defender) => defender,
        None => who,
    }
}

/// Who is taken to be behind an address on a line with this time.
pub(crate) fn taken_at(
    parties: &Parties,
    contests: &Contests,
    address: u8,
    time: Option<u64>,
) -> Who
    ensures { result ≡ taken_party (party_at parties.now.all address) (defender_at contests.now address time) }
{
    taken_for(parties.party(address), contests.defender(address, time))
}

/// The parties, with who is taken to be behind the addresses of a frame, and behind one more, on a line with this time.
pub(crate) fn taken(
    parties: &Parties,
    contests: &Contests,
    ident: Ident,
    asker: u8,
    time: Option<u64>,
) -> Parties
    ensures taken { (address : ℕ) → (address ≡ ident.sa) ⊎ (address ≡ ident.ps) ⊎ (address ≡ asker)
        → party_at result.all address
        ≡ taken_party (party_at parties.now.all address) (defender_at contests.now address time) }
    ensures names { result.names ≡ None }
{
    let mut all = parties.all;
    let source = taken_at(parties, contests, ident.sa, time);
    let receiver = taken_at(parties, contests, ident.ps, time);
    let third = taken_at(parties, contests, asker, time);
    all[usize::from(asker)] = third;
    all[usize::from(ident.sa)] = source;
    all[usize::from(ident.ps)] = receiver;
    Parties { all, names: None }
}
