// Piles of floors.
ghost use Rattle.std.specs.Prelude.{◌≡◌, max, [], MatchOption};
ghost use Rattle.journal.specs.Floors.{on_floor};
ghost use Rattle.journal_laws.specs.Piles.{ActsAs, Alike};

use journal::floor::Floor;
use marks::store::Store;

// The epoch of the one floor that a pile of floors acts as; none for no floor at all.
pub fn pile_epoch(epochs: &[u64]) -> Option<u64>
    ensures { MatchOption result (epochs.now ≡ []) (λ f. ActsAs f epochs.now) }
{
    epochs.iter().copied().max()
}

// A floor on a floor acts as the higher one.
pub fn on_two_floors<S: Store>(store: S, upper: u64, lower: u64) -> Floor<Floor<S>>
    ensures store { result.below.below ≡ store }
    ensures acts { Alike (on_floor (max upper lower) (S.Store.state store)) (on_floor result.epoch (on_floor result.below.epoch (S.Store.state result.below.below))) }
{
    Floor::new(Floor::new(store, lower), upper)
}
