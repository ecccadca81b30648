//! What is found of the values of a list, one after another, and of the pairs of them.
ghost use Rattle.std.specs.Prelude.{◌≡◌, ◌+◌, ◌<◌, ℕ, Bool, List, length, drop};
ghost use Rattle.j39_search.specs.ListPlaces.{found_if, each, pairs, in_each};
ghost use Rattle.j39_search.specs.Adding.{Adds};

use std::alloc::AllocError;

/// What comes of a search: memory can be refused, and nothing else.
pub type FindResult = Result<(), AllocError>;

/// What is found of one value.
pub trait Rule<T, F> {
    ghost use Rattle.j39_search.specs.Adding.{Adds};

    ghost gives: { Self → ℕ → T → List F };

    fn find(&self, findings: &mut Vec<F>, place: usize, value: &T) -> FindResult
        ensures { Adds result findings.old.items findings.new.items (gives self.now place value.now) };
}

/// What is found of one value of which a test holds.
pub trait TestRule<T, F> {
    ghost test: { Self → T → Bool };

    ghost make: { Self → ℕ → F };

    fn holds(&self, value: &T) -> bool
        ensures { result ≡ test self.now value.now };

    fn finding(&self, place: usize) -> F
        ensures { result ≡ make self.now place };
}

/// What is found of two values that stand in a relation.
pub trait PairRule<T, F> {
    ghost test: { Self → T → T → Bool };

    ghost make: { Self → ℕ → ℕ → F };

    fn holds(&self, first: &T, second: &T) -> bool
        ensures { result ≡ test self.now first.now second.now };

    fn finding(&self, first: usize, second: usize) -> F
        ensures { result ≡ make self.now first second };
}

/// Adds the finding where the test holds.
pub fn push_if<F: Drop>(findings: &mut Vec<F>, holds: bool, finding: F) -> FindResult
    ensures { Adds result findings.old.items findings.new.items (found_if holds finding) }
{
    if holds {
        findings.push(finding)?;
    }
    Ok(())
}

/// Adds what is found of each value, in the order of the values.
pub fn find_each<T, F, R: Rule<T, F>>(findings: &mut Vec<F>, rule: &R, values: &[T]) -> FindResult
    ensures { Adds result findings.old.items findings.new.items (in_each (R.gives rule.now) 0 values.now) }
{
    for (place, value) in values.iter().enumerate() {
        rule.find(findings, place, value)?;
    }
    Ok(())
}

/// Adds a finding for each value of which the test holds, in the order of the values.
pub fn find_tested<T, F: Drop, R: TestRule<T, F>>(
    findings: &mut Vec<F>,
    rule: &R,
    values: &[T],
) -> FindResult
    ensures { Adds result findings.old.items findings.new.items (each (R.test rule.now) (R.make rule.now) 0 values.now) }
{
    for (place, value) in values.iter().enumerate() {
        push_if(findings, rule.holds(value), rule.finding(place))?;
    }
    Ok(())
}

fn find_against<T, F: Drop, R: PairRule<T, F>>(
    findings: &mut Vec<F>,
    rule: &R,
    i: usize,
    value: &T,
    values: &[T],
) -> FindResult
    requires { i < length values.now }
    ensures { Adds result findings.old.items findings.new.items
        (each (R.test rule.now value.now) (R.make rule.now i) (i + 1) (drop (i + 1) values.now)) }
{
    for j in i + 1..values.len() {
        push_if(findings, rule.holds(value, &values[j]), rule.finding(i, j))?;
    }
    Ok(())
}

/// Adds a finding for each pair that stands in the relation, in rising order of the places.
pub fn find_pairs<T, F: Drop, R: PairRule<T, F>>(
    findings: &mut Vec<F>,
    rule: &R,
    values: &[T],
) -> FindResult
    ensures { Adds result findings.old.items findings.new.items (pairs (R.test rule.now) (R.make rule.now) values.now) }
{
    for (i, value) in values.iter().enumerate() {
        find_against(findings, rule, i, value, values)?;
    }
    Ok(())
}
