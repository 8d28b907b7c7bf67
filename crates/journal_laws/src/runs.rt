// Runs of calls on any store.
ghost use Rattle.std.specs.Prelude.{◌≡◌, take};
ghost use Rattle.marks.specs.declared.mark.Pair.{Pair};
ghost use Rattle.journal_laws.specs.Runs.{Law, OneAnswer, NotLower};
ghost use Rattle.journal_laws.specs.Calls.{Carries, Ran, Spared};

use crate::call::{Call, Reply};
use marks::store::Store;

// One call. Every run of any store obeys the law of runs, and a state fixes the answer of a raise.
pub fn carry_out<S: Store>(store: &mut S, call: Call) -> Reply
    ensures carries { Carries S.state S.touches S.rests store.old call result store.new }
    ensures law { Law }
    ensures one { OneAnswer }
{
    match call {
        Call::Raise(pair, mark) => Reply::Answered(store.raise(pair, mark)),
        Call::SwitchOn(n) => {
            store.switch_on(n);
            Reply::On
        }
    }
}

// Calls one after another, until calls or places for replies end; says how many were carried out.
// Kept: the run of calls on a receiver has the same `min`, `for` and assignment. A generic run would take the step as a closure that
// changes store and buffer, and promise a chain of `F.step` over calls and replies, of which each would still have to prove its `Ran`.
pub fn run<S: Store>(store: &mut S, calls: &[Call], replies: &mut [Reply]) -> usize
    ensures ran { Ran S.state S.touches S.rests store.old calls.now replies.old result replies.new store.new }
    ensures rising { (q : Pair) → NotLower ((S.state store.old).mark q) ((S.state store.new).mark q) }
    ensures spared { (q : Pair) → Spared q (take result calls.now) → (S.state store.new).mark q ≡ (S.state store.old).mark q }
{
    let n = calls.len().min(replies.len());
    // Kept: the replies are written by place: of a loop over `iter_mut().zip(..)` no invariant can speak of them.
    for (i, call) in calls[..n].iter().enumerate() {
        replies[i] = carry_out(store, *call);
    }
    n
}
