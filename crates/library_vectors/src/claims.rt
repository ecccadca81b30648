//! Units that claim addresses, and sets of addresses.
use j39_claim::{AddressSet, Choose, Claimer, Lowest, Say, Upward};
use j39_id::{Address, Name};
use std::process::Abort;
use std::test::Fail;

// As the number of an address that is claimed, or of the null address.
const CANNOT: u8 = 254;

fn address(number: u8) -> Result<Address, Fail> {
    Ok(Address::new(number).ok_or("no address")?)
}

fn arbitrary(identity: u64) -> Name {
    Name::from_bits(1 << 63 | identity)
}

fn number_of(said: Say) -> u8 {
    match said {
        Say::Claim(address) => address.number(),
        Say::Cannot => CANNOT,
    }
}

// A started unit hears claims, each by the identity of a fixed unit and a number, and sees what it answers.
fn hears(
    rt: &impl Abort,
    unit: &mut Claimer,
    chooser: &dyn Choose,
    claims: &[(u64, u8, Option<u8>)],
) {
    let _ = unit.start();
    for (identity, number, answer) in claims {
        let name = Name::from_bits(*identity);
        assert!(rt; unit.can_note(name));
        let said = unit.hear_claim(name, *number, chooser);
        assert!(rt; said.map(|said| number_of(said)) == *answer);
    }
}

// A unit at 200 that has noted 128 of two NAMEs, then 129 of the first of these, and hears 200 of a third.
fn contest(rt: &impl Abort, chooser: &dyn Choose, moved: u8) -> Result<(), Fail> {
    let mut unit = Claimer::new(arbitrary(9), address(200)?);
    let claims = [
        (1, 128, None),
        (2, 128, None),
        (1, 129, None),
        (3, 200, Some(moved)),
    ];
    hears(rt, &mut unit, chooser, &claims);
    assert!(rt; unit.address() == Address::new(moved));
    Ok(())
}

#[test]
fn moves_to_what_its_chooser_picks(rt: HostRuntime) -> Result<(), Fail> {
    contest(&rt, &Lowest, 130)?;
    contest(&rt, &Upward, 201)
}

#[test]
fn moves_to_no_kept_address(rt: HostRuntime) -> Result<(), Fail> {
    let mut kept = AddressSet::new();
    kept.insert(address(128)?);
    kept.insert(address(131)?);
    let mut unit = Claimer::with_kept(arbitrary(1), address(130)?, kept.copy());
    hears(&rt, &mut unit, &Lowest, &[(3, 130, Some(129))]);
    hears(&rt, &mut unit, &Upward, &[(3, 130, Some(132))]);
    Ok(())
}

#[test]
fn a_fixed_unit_that_loses_its_address_holds_none(rt: HostRuntime) -> Result<(), Fail> {
    let mut unit = Claimer::new(Name::from_bits(2), address(5)?);
    assert!(rt; unit.name() == Name::from_bits(2));
    assert!(rt; !unit.is_started() && unit.address().is_none());
    hears(
        &rt,
        &mut unit,
        &Lowest,
        &[(3, 5, Some(5)), (1, 5, Some(CANNOT))],
    );
    assert!(rt; unit.is_started() && unit.address().is_none());
    assert!(rt; unit.hear_request().map(|said| number_of(said)) == Some(CANNOT));
    unit.stop();
    assert!(rt; !unit.is_started());
    Ok(())
}

#[test]
fn a_unit_that_never_claims_says_nothing_and_stays(rt: HostRuntime) -> Result<(), Fail> {
    let mut unit = Claimer::planned(Name::from_bits(2), address(5)?, AddressSet::new(), false);
    assert!(rt; unit.start().is_none());
    hears(
        &rt,
        &mut unit,
        &Lowest,
        &[(3, 5, None), (1, 5, None), (1, CANNOT, None)],
    );
    assert!(rt; unit.is_started() && unit.address() == Address::new(5));
    assert!(rt; unit.hear_request().is_none());
    Ok(())
}

#[test]
fn an_address_whose_unit_cannot_claim_is_free_again(rt: HostRuntime) -> Result<(), Fail> {
    let mut unit = Claimer::new(arbitrary(9), address(200)?);
    let claims = [
        (1, 128, None),
        (2, 129, None),
        (1, CANNOT, None),
        (3, 200, Some(128)),
    ];
    hears(&rt, &mut unit, &Lowest, &claims);
    Ok(())
}

#[test]
fn notes_128_names_and_no_more(rt: HostRuntime) -> Result<(), Fail> {
    let mut unit = Claimer::new(arbitrary(900), address(200)?);
    let _ = unit.start();
    for identity in 0..128_u64 {
        let name = Name::from_bits(identity);
        assert!(rt; unit.can_note(name));
        assert!(rt; unit.hear_claim(name, 7, &Lowest).is_none());
    }
    assert!(rt; unit.can_note(Name::from_bits(127)));
    assert!(rt; !unit.can_note(Name::from_bits(128)));
    Ok(())
}

#[test]
fn upward_goes_round_from_247_to_128(rt: HostRuntime) -> Result<(), Fail> {
    let mut taken = AddressSet::new();
    for number in [0, 128, 247] {
        taken.insert(address(number)?);
    }
    taken.remove(address(0)?);
    assert!(rt; taken.has(address(128)?) && !taken.has(address(0)?));
    assert!(rt; (taken.free_count(), taken.lowest_free()) == (118, Some(129)));
    for (before, chosen) in [
        (129, 130),
        (246, 129),
        (247, 129),
        (5, 129),
        (127, 129),
        (253, 129),
    ] {
        assert!(rt; Upward.choose(arbitrary(9), before, &taken) == chosen);
    }
    Ok(())
}
