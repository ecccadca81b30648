//! Which of two variants is earlier.
ghost use Rattle.std.specs.Prelude.{◌≡◌, ◌++◌, List, Option, Vec, true, false};
ghost use Rattle.std.specs.declared.alloc.Global.{Global};
ghost use Rattle.j39_variants.specs.Variants.{IsEarlier};
ghost use Rattle.j39_variants.specs.declared.line.ProductLine.{ProductLine};
ghost use Rattle.j39_line_findings.specs.Conditions.{Condition};
ghost use Rattle.j39_line_witnesses.specs.FirstMeeting.{IsWitnessOf};

/// Whether one variant is earlier than the other: in the first choice in which they differ it takes the earlier
/// alternative.
pub fn is_earlier(one: &[usize], other: &[usize]) -> bool
    ensures so { result ≡ true → IsEarlier one.now other.now }
    ensures not_so { result ≡ false → IsEarlier one.now other.now → ⊥ }
{
    for (choice, place) in one.iter().enumerate() {
        match other.get(choice) {
            Some(its) => {
                if place < its {
                    return true;
                }
                if its < place {
                    return false;
                }
            }
            None => return false,
        }
    }
    false
}

/// The earlier of the first variants that meet some conditions, and others.
#[tactic(auto, using(crate::proofs::Earlier::none_left, crate::proofs::Earlier::none_right))]
pub(crate) fn earlier_of(one: Option<Vec<usize>>, other: Option<Vec<usize>>) -> Option<Vec<usize>>
    ensures { (line : ProductLine) (some others : List Condition) → IsWitnessOf line some one
        → IsWitnessOf line others other
        → IsWitnessOf line (some ++ others) result }
{
    match one {
        None => other,
        Some(first) => match other {
            None => Some(first),
            Some(second) => {
                if is_earlier(&second, &first) {
                    Some(second)
                } else {
                    Some(first)
                }
            }
        },
    }
}
