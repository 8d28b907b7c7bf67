// Listening over any store under a floor, if there is one.
ghost use Rattle.std.specs.Prelude.{◌≡◌, length};
ghost use Rattle.line.specs.Hearing.{laid};
ghost use Rattle.judging.specs.Inputs.{inputs_of};
ghost use Rattle.judging.specs.Frames.{message_heard};
ghost use Rattle.judging.specs.Effects.{StoreMoves, left_at};
ghost use Rattle.receiver.specs.History.{ListenGoesOn};
ghost use Rattle.receiver.specs.Frames.{SentIf};
ghost use Rattle.hosts.specs.Images.{floor_on};

use journal::floor::Floor;
use judging::answer::{Answer, Lent};
use marks::mark::{Mark, Pair};
use marks::store::Store;
use receiver::receiver::Receiver;
use verdicts::Verifier;

// Listens once over a store, and hands it back.
fn listen_over<S: Store, V: Verifier>(store: S, lent: &Lent<'_, V>, work: &mut [u8]) -> (Answer, S)
    ensures goes { ListenGoesOn (inputs_of V.known V.good lent.now (length work.old)) (S.state store) result.0 (S.state result.1) }
    ensures memory { StoreMoves S.touches store result.0.verdict result.1 }
    ensures work { work.new ≡ laid (length work.old) (left_at result.0.verdict (message_heard (inputs_of V.known V.good lent.now (length work.old)))) }
    ensures sent { SentIf (inputs_of V.known V.good lent.now (length work.old)) result.0.verdict result.0.next }
{
    let mut receiver = Receiver::new(store);
    let answer = receiver.listen(lent, work);
    (answer, receiver.into_store())
}

/// The same, under a floor of this epoch if there is one.
// Kept: an arm for each, here and below. `Floor` has its epoch by value, as the rules have it; one type for a store with or without
// a floor would be a third `Store` beside it.
pub fn listen_under<S: Store, V: Verifier>(
    store: S,
    floor: Option<u64>,
    lent: &Lent<'_, V>,
    work: &mut [u8],
) -> (Answer, S)
    ensures goes { ListenGoesOn (inputs_of V.known V.good lent.now (length work.old)) (floor_on floor (S.state store)) result.0 (floor_on floor (S.state result.1)) }
    ensures memory { StoreMoves S.touches store result.0.verdict result.1 }
    ensures work { work.new ≡ laid (length work.old) (left_at result.0.verdict (message_heard (inputs_of V.known V.good lent.now (length work.old)))) }
    ensures sent { SentIf (inputs_of V.known V.good lent.now (length work.old)) result.0.verdict result.0.next }
{
    match floor {
        None => listen_over(store, lent, work),
        Some(epoch) => {
            let (answer, floored) = listen_over(Floor::new(store, epoch), lent, work);
            (answer, floored.into_store())
        }
    }
}

/// A pair's mark under a floor of this epoch, if there is one; the store comes back as it was.
pub fn mark_under<S: Store>(store: S, floor: Option<u64>, pair: Pair) -> (Option<Mark>, S)
    ensures mark { result.0 ≡ (floor_on floor (S.state store)).mark pair }
    ensures store { result.1 ≡ store }
{
    match floor {
        None => {
            let mark = store.mark(pair);
            (mark, store)
        }
        Some(epoch) => {
            let floored = Floor::new(store, epoch);
            let mark = floored.mark(pair);
            (mark, floored.into_store())
        }
    }
}
