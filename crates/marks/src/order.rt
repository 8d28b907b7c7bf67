// Comparing pairs and positions.
ghost use Rattle.std.specs.Prelude.{◌≡◌, Decides};
ghost use Rattle.marks.specs.Positions.{before, Earlier, above, same_pair};

use crate::mark::{Mark, Pair, Position};

impl Position {
    // Kept: a public call, which states what `<` says of two positions.
    pub fn is_before(self, other: Position) -> bool
        ensures is { result ≡ before self other }
        ensures decides { Decides result (Earlier self other) }
    {
        self < other
    }

    // Whether this position lies above a pair's mark. Every position lies above no mark.
    pub fn is_above(self, mark: Option<Mark>) -> bool
        ensures { result ≡ above mark self }
    {
        mark.is_none_or(|m| m.position < self)
    }
}

impl Pair {
    // Kept: a public call, which states what `==` says of two pairs.
    pub fn is_same(self, other: Pair) -> bool
        ensures is { result ≡ same_pair self other }
        ensures decides { Decides result (self ≡ other) }
    {
        self == other
    }
}
