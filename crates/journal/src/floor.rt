// A store whose marks never lie below an epoch's first position.
ghost use Rattle.std.specs.Prelude.{◌≡◌};
ghost use Rattle.journal.specs.Floors.{base, on_floor, FloorMoves, RaisesBelow};
ghost use Rattle.marks.specs.State.{Raises, RaiseMoves, SwitchedOn};

use marks::mark::{Mark, Pair, Position, Raised};
use marks::store::Store;

// The first position of an epoch, with a hash of zeros.
fn floor_mark(epoch: u64) -> Mark
    ensures { result ≡ base epoch }
{
    Mark {
        position: Position { epoch, counter: 0 },
        hash: [0; 32],
    }
}

#[derive(Drop)]
pub struct Floor<S: Store> {
    below: S,
    epoch: u64,
}

impl<S: Store> Floor<S> {
    pub fn new(below: S, epoch: u64) -> Floor<S>
        ensures below { result.below ≡ below }
        ensures epoch { result.epoch ≡ epoch }
    {
        Floor { below, epoch }
    }

    // The store back.
    pub fn into_store(self) -> S
        ensures { result ≡ self.below }
    {
        let Floor { below, .. } = self;
        below
    }
}

impl<S: Store> Store for Floor<S> {
    ghost state = { λ s. on_floor s.epoch (S.Store.state s.below) };

    ghost touches = { λ s t. FloorMoves (S.Store.touches s.below t.below) s.epoch t.epoch };

    ghost rests = { λ s t. FloorMoves (S.Store.rests s.below t.below) s.epoch t.epoch };

    fn mark(&self, pair: Pair) -> Option<Mark> {
        let floor = floor_mark(self.epoch);
        let mark = self
            .below
            .mark(pair)
            .filter(|m| !m.position.is_before(floor.position));
        Some(mark.unwrap_or(floor))
    }

    fn has_room(&self, pair: Pair) -> bool {
        self.below.has_room(pair)
    }

    fn is_on(&self) -> bool {
        self.below.is_on()
    }

    fn charge(&self) -> u64 {
        self.below.charge()
    }

    fn raise(&mut self, pair: Pair, new: Mark) -> Raised
        ensures raises { Raises (on_floor self.old.epoch (S.Store.state self.old.below)) pair new result (on_floor self.new.epoch (S.Store.state self.new.below)) }
        ensures memory { RaiseMoves (λ s t. FloorMoves (S.Store.touches s.below t.below) s.epoch t.epoch) self.old result self.new }
        ensures below { RaisesBelow self.old.epoch (S.Store.state self.old.below) pair new result (S.Store.state self.new.below) }
    {
        if !self.below.is_on() {
            return Raised::Off;
        }
        if !floor_mark(self.epoch).position.is_before(new.position) {
            return Raised::Low;
        }
        self.below.raise(pair, new)
    }

    fn switch_on(&mut self, n: u64)
        ensures on { SwitchedOn (on_floor self.old.epoch (S.Store.state self.old.below)) n (on_floor self.new.epoch (S.Store.state self.new.below)) }
        ensures memory { FloorMoves (S.Store.rests self.old.below self.new.below) self.old.epoch self.new.epoch }
        ensures below { SwitchedOn (S.Store.state self.old.below) n (S.Store.state self.new.below) }
    {
        self.below.switch_on(n);
    }
}
