// The power supply of cells.
ghost use Rattle.std.specs.Prelude.{◌≡◌};
ghost use Rattle.marks.specs.Supplies.{Spent, switched_on};

use crate::mark::{CutLeaves, Written};

// Whether power is on, how many whole writes it still lasts, and what a cut leaves in the cell being written.
// Kept: power that is off may have charge left, and both are told: an `Option` of the charge would lose it.
#[derive(Clone, Copy, PartialEq, Eq)]
pub struct Power {
    pub on: bool,
    pub charge: u64,
    pub leaves: CutLeaves,
}

impl Power {
    // How a write begun now ends, and what it leaves in its cell: the new record where it is whole.
    pub(crate) fn spend(&mut self) -> (Written, CutLeaves)
        ensures { Spent self.old result.0 result.1 self.new }
    {
        if self.charge > 0 {
            self.charge -= 1;
            return (Written::Done, CutLeaves::New);
        }
        self.on = false;
        (Written::Cut, self.leaves)
    }

    // On again, for n whole writes.
    pub(crate) fn switch_on(&mut self, n: u64)
        ensures { self.new ≡ switched_on n self.old }
    {
        self.on = true;
        self.charge = n;
    }
}
