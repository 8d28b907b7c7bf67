// A burst, from its first question to its answer.
ghost use Rattle.std.specs.Prelude.{◌≡◌, ℕ, ◌≤◌, true, length, take};
ghost use Rattle.answers.specs.Questions.{first};
ghost use Rattle.line.specs.Hearing.{laid};
ghost use Rattle.judging.specs.Inputs.{conditions_of, inputs_of};
ghost use Rattle.judging.specs.Frames.{message_heard};
ghost use Rattle.judging.specs.Questions.{answered, questions, refused};
ghost use Rattle.judging.specs.Stages.{message_questions};
ghost use Rattle.judging.specs.Effects.{offered, Leaves, StoreMoves, left_at};

use crate::answer::{Answer, Lent, Listening, Verdict};
use crate::stages::judge_message;
use answers::refusal::Refusal;
use line::frame::{admit, hear};
use line::heard::Hearing;
use marks::store::Store;
use verdicts::Verifier;

// The octets of the FCS behind a message.
const FCS_OCTETS: usize = 2;

// A refusal, and the next place.
fn refuse(refusal: Refusal, next: usize) -> Answer
    ensures { result ≡ refused refusal next }
{
    Answer {
        verdict: Verdict::Refused(refusal),
        next,
    }
}

// Judges the message at the front of the work buffer, and leaves it there if it is released.
fn judge_frame<S: Store, V: Verifier>(
    store: &mut S,
    lent: &Lent<'_, V>,
    work: &mut [u8],
    size: usize,
) -> Verdict
    requires on { (S.state store.old).on ≡ true }
    requires fits { size ≤ length work.old }
    ensures answer { (next : ℕ) → answered result next ≡ first (message_questions (conditions_of V.known V.good lent.now) (S.state store.old) next (take size work.old)) }
    ensures leaves { (next : ℕ) → Leaves (offered (message_questions (conditions_of V.known V.good lent.now) (S.state store.old) next (take size work.old))) (S.state store.old) result (S.state store.new) }
    ensures memory { StoreMoves S.touches store.old result store.new }
    ensures work { work.new ≡ laid (length work.old) (left_at result (take size work.old)) }
{
    let verdict = judge_message(store, lent, &work[0..size]);
    match verdict {
        Verdict::Released(_) => work[size..].fill(0),
        _ => work.fill(0),
    }
    verdict
}

/// Judges the first frame of a burst: the answer of the first question with a no, or the release, whose mark is then written.
pub fn judge<S: Store, V: Verifier>(store: &mut S, lent: &Lent<'_, V>, work: &mut [u8]) -> Answer
    ensures answer { result ≡ first (questions (inputs_of V.known V.good lent.now (length work.old)) (S.state store.old)) }
    ensures leaves { Leaves (offered (questions (inputs_of V.known V.good lent.now (length work.old)) (S.state store.old))) (S.state store.old) result.verdict (S.state store.new) }
    ensures memory { StoreMoves S.touches store.old result.verdict store.new }
    ensures work { work.new ≡ laid (length work.old) (left_at result.verdict (message_heard (inputs_of V.known V.good lent.now (length work.old)))) }
{
    let Listening { count, start, .. } = lent.listening;
    if let Err(refusal) = admit(lent.burst, count, start, work) {
        work.fill(0);
        return refuse(refusal, start);
    }
    let true = store.is_on() else {
        work.fill(0);
        return refuse(Refusal::StoreOff, start);
    };
    let heard = hear(lent.burst, count, start, work);
    if let Hearing::Refused(refusal) = heard.hearing {
        return refuse(refusal, heard.next);
    }
    let Hearing::Frame(length) = heard.hearing else {
        return Answer {
            verdict: Verdict::Quiet,
            next: heard.next,
        };
    };
    let verdict = judge_frame(store, lent, work, length - FCS_OCTETS);
    Answer {
        verdict,
        next: heard.next,
    }
}
