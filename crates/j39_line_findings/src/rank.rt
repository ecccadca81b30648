//! The order in which findings are reported.
ghost use Rattle.std.specs.Prelude.{◌≡◌};
ghost use Rattle.j39_line_findings.specs.InFile.{is_below, is_below_places};

/// By what a finding is reported: its number, and the places that it names, and 0 for those that it doesn't name.
#[derive(Clone, Copy)]
pub struct Rank {
    pub number: u8,
    pub first: usize,
    pub second: usize,
    pub third: usize,
}

fn is_below_places(one: Rank, other: Rank) -> bool
    ensures { result ≡ is_below_places one other }
{
    one.first < other.first
        || one.first == other.first
            && (one.second < other.second || one.second == other.second && one.third < other.third)
}

/// Whether a finding of one rank is reported before one of the other.
pub fn is_below(one: Rank, other: Rank) -> bool
    ensures { result ≡ is_below one other }
{
    one.number < other.number || one.number == other.number && is_below_places(one, other)
}
