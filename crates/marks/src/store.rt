// The interface of a store of marks.
ghost use Rattle.std.specs.Prelude.{◌≡◌};
ghost use Rattle.marks.specs.State.{State, Raises, RaiseMoves, SwitchedOn};

use crate::mark::{Mark, Pair, Raised};

pub trait Store {
    // Each pair's mark and room, power, and the raises that power still lasts.
    ghost state: { Self → State };

    // The same lender's memory, of which at most one cell differs.
    ghost touches: { Self → Self → Type 0 };

    // The same lender's memory, as it was.
    ghost rests: { Self → Self → Type 0 };

    fn mark(&self, pair: Pair) -> Option<Mark>
        ensures { result ≡ (state self.now).mark pair };

    fn has_room(&self, pair: Pair) -> bool
        ensures { result ≡ (state self.now).room pair };

    fn is_on(&self) -> bool
        ensures { result ≡ (state self.now).on };

    fn charge(&self) -> u64
        ensures { result ≡ (state self.now).charge };

    fn raise(&mut self, pair: Pair, new: Mark) -> Raised
        ensures raises { Raises (state self.old) pair new result (state self.new) }
        ensures memory { RaiseMoves touches self.old result self.new };

    fn switch_on(&mut self, n: u64)
        ensures on { SwitchedOn (state self.old) n (state self.new) }
        ensures memory { rests self.old self.new };
}
