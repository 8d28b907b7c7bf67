// A receiver over any store.
ghost use Rattle.std.specs.Prelude.{◌≡◌, ℕ, length};
ghost use Rattle.answers.specs.Questions.{first};
ghost use Rattle.line.specs.Hearing.{laid};
ghost use Rattle.judging.specs.Inputs.{inputs_of};
ghost use Rattle.judging.specs.Frames.{message_heard};
ghost use Rattle.judging.specs.Questions.{questions};
ghost use Rattle.judging.specs.Effects.{StoreMoves, left_at};
ghost use Rattle.receiver.specs.History.{made, Lawful, Law, ListenGoesOn, SwitchGoesOn};
ghost use Rattle.receiver.specs.Frames.{SentIf, WrittenIsJudged};

use judging::answer::{Answer, Lent};
use judging::judge;
use marks::mark::{Mark, Pair};
use marks::store::Store;
use verdicts::Verifier;

/// A receiver, which holds its store.
#[derive(Drop)]
pub struct Receiver<S> {
    store: S,
}

impl<S: Store> Receiver<S> {
    /// A receiver over a store in any state.
    pub fn new(store: S) -> Receiver<S>
        ensures store { result.store ≡ store }
        ensures lawful { Lawful (made (S.state result.store)) }
    {
        Receiver { store }
    }

    /// The store back.
    pub fn into_store(self) -> S
        ensures { result ≡ self.store }
    {
        let Receiver { store } = self;
        store
    }

    /// A pair's mark.
    pub fn mark(&self, pair: Pair) -> Option<Mark>
        ensures { result ≡ (S.state self.now.store).mark pair }
    {
        self.store.mark(pair)
    }

    /// Switches the store on, for n whole writes.
    pub fn switch_on(&mut self, n: u64)
        ensures lawful { SwitchGoesOn (S.state self.old.store) n (S.state self.new.store) }
        ensures memory { S.rests self.old.store self.new.store }
    {
        self.store.switch_on(n);
    }

    /// Listens to a burst. The answer is that of the first question with a no, or the release; the work buffer then holds the
    /// message and zeros behind it, and after any other answer zeros alone.
    pub fn listen<V: Verifier>(&mut self, lent: &Lent<'_, V>, work: &mut [u8]) -> Answer
        ensures answer { result ≡ first (questions (inputs_of V.known V.good lent.now (length work.old)) (S.state self.old.store)) }
        ensures work { work.new ≡ laid (length work.old) (left_at result.verdict (message_heard (inputs_of V.known V.good lent.now (length work.old)))) }
        ensures memory { StoreMoves S.touches self.old.store result.verdict self.new.store }
        ensures lawful { ListenGoesOn (inputs_of V.known V.good lent.now (length work.old)) (S.state self.old.store) result (S.state self.new.store) }
        ensures sent { SentIf (inputs_of V.known V.good lent.now (length work.old)) result.verdict result.next }
        ensures written { WrittenIsJudged }
        ensures law { Law }
    {
        judge(&mut self.store, lent, work)
    }
}
