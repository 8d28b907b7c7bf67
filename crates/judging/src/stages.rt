// The questions about a message, asked stage by stage. Each stage ends by handing on to the next, and the first no ends the judging.
ghost use Rattle.std.specs.Prelude.{◌≡◌, ℕ, true, length};
ghost use Rattle.answers.specs.Questions.{first};
ghost use Rattle.verdicts.specs.Transcripts.{octets_of};
ghost use Rattle.marks.specs.Positions.{above};
ghost use Rattle.marks.specs.State.{State};
ghost use Rattle.judging.specs.Inputs.{conditions_of};
ghost use Rattle.judging.specs.Frames.{pair_of, mark_by, mark_of};
ghost use Rattle.judging.specs.Questions.{answered};
ghost use Rattle.judging.specs.Stages.{raise_questions, command_questions, mark_questions, signature_questions, field_questions, message_questions};
ghost use Rattle.judging.specs.Effects.{offered, Leaves, StoreMoves};

use crate::answer::{Lent, Release, Verdict};
use answers::refusal::Refusal;
use commands::{is_listed, request};
use marks::mark::{Mark, Pair, Position, Raised};
use marks::store::Store;
use message::types::View;
use message::{Message, not_expired, not_too_far, read};
use verdicts::{Transcript, Verifier};

// The sender and its key.
// Kept: neither Pair nor View is this crate's, so no From can stand between them; Mark and View likewise.
fn pair_of(view: &View) -> Pair
    ensures { result ≡ pair_of view.now }
{
    Pair {
        sid: view.mid.sid,
        kid: view.auth.kid,
    }
}

// The position, and the hash of what is signed.
fn mark_of(view: &View, transcript: &Transcript<'_>) -> Mark
    ensures { result ≡ mark_by view.now (octets_of transcript.now) }
{
    Mark {
        position: Position {
            epoch: view.mid.epoch,
            counter: view.mid.counter,
        },
        hash: transcript.digest(),
    }
}

// Room, and the write.
// Kept: each stage requires the power that was asked for once. A struct of the lent store and that fact was tried: the fact has to
// hold when the loan ends too, and a raise may cut the power.
// Kept: by the rules each question's no has an answer of its own, so the stages ask by `let .. else`, one after another, and hand on
// a Verdict: a duplicate is an answer beside the refusals. `is_listed` is asked apart from `request`, since an unlisted type (21) and
// bad arguments (22) are two questions of the rules.
fn raise<S: Store>(store: &mut S, release: Release) -> Verdict
    requires on { (S.state store.old).on ≡ true }
    requires higher { above ((S.state store.old).mark release.pair) release.mark.position ≡ true }
    ensures answer { (next : ℕ) → answered result next ≡ first (raise_questions (S.state store.old) next release) }
    ensures leaves { (next : ℕ) → Leaves (offered (raise_questions (S.state store.old) next release)) (S.state store.old) result (S.state store.new) }
    ensures memory { StoreMoves S.touches store.old result store.new }
{
    let true = store.has_room(release.pair) else {
        return Verdict::Refused(Refusal::NoRoom);
    };
    let Raised::Done = store.raise(release.pair, release.mark) else {
        return Verdict::Refused(Refusal::NotRaised);
    };
    Verdict::Released(release)
}

// The command, and whether it may be released.
fn judge_command<S: Store, V>(
    store: &mut S,
    lent: &Lent<'_, V>,
    message: Message<'_>,
    mark: Mark,
) -> Verdict
    requires on { (S.state store.old).on ≡ true }
    requires higher { above ((S.state store.old).mark (pair_of message.view)) mark.position ≡ true }
    requires mark { mark ≡ mark_of message.octets.now message.view }
    ensures answer { (next : ℕ) → answered result next ≡ first (command_questions lent.now.listening.suspect lent.now.catalog.now (S.state store.old) next message.entry.octets.now message.entry.view) }
    ensures leaves { (next : ℕ) → Leaves (offered (command_questions lent.now.listening.suspect lent.now.catalog.now (S.state store.old) next message.entry.octets.now message.entry.view)) (S.state store.old) result (S.state store.new) }
    ensures memory { StoreMoves S.touches store.old result store.new }
{
    let cmd = message.view.cmd;
    let true = is_listed(cmd.kind) else {
        return Verdict::Refused(Refusal::UnknownCommand);
    };
    let Ok(request) = request(message.octets, cmd.kind, cmd.args.start) else {
        return Verdict::Refused(Refusal::BadArguments);
    };
    let Some(command) = request.allow(lent.catalog, lent.listening.suspect) else {
        return Verdict::Refused(Refusal::AllowlistDeny);
    };
    let None = cmd.duo else {
        return Verdict::Refused(Refusal::DuoPolicyUnknown);
    };
    let release = Release {
        pair: pair_of(&message.view),
        mark,
        length: message.octets.len(),
        command,
    };
    raise(store, release)
}

// The mark, and the clock.
fn judge_mark<S: Store, V: Verifier>(
    store: &mut S,
    lent: &Lent<'_, V>,
    message: Message<'_>,
    mark: Mark,
) -> Verdict
    requires on { (S.state store.old).on ≡ true }
    requires mark { mark ≡ mark_of message.octets.now message.view }
    ensures answer { (next : ℕ) → answered result next ≡ first (mark_questions (conditions_of V.known V.good lent.now) (S.state store.old) next message.entry.octets.now message.entry.view) }
    ensures leaves { (next : ℕ) → Leaves (offered (mark_questions (conditions_of V.known V.good lent.now) (S.state store.old) next message.entry.octets.now message.entry.view)) (S.state store.old) result (S.state store.new) }
    ensures memory { StoreMoves S.touches store.old result store.new }
{
    let kept = store.mark(pair_of(&message.view));
    let false = kept == Some(mark) else {
        return Verdict::Duplicate;
    };
    let true = mark.position.is_above(kept) else {
        return Verdict::Refused(Refusal::Replay);
    };
    let exp = message.view.mid.exp;
    let true = not_expired(lent.listening.clock, exp) else {
        return Verdict::Refused(Refusal::Expired);
    };
    let true = not_too_far(lent.listening.clock, exp) else {
        return Verdict::Refused(Refusal::ExpTooFar);
    };
    judge_command(store, lent, message, mark)
}

// The key, and the signature.
fn judge_signature<S: Store, V: Verifier>(
    store: &mut S,
    lent: &Lent<'_, V>,
    message: Message<'_>,
) -> Verdict
    requires on { (S.state store.old).on ≡ true }
    ensures answer { (next : ℕ) → answered result next ≡ first (signature_questions (conditions_of V.known V.good lent.now) (S.state store.old) next message.entry.octets.now message.entry.view) }
    ensures leaves { (next : ℕ) → Leaves (offered (signature_questions (conditions_of V.known V.good lent.now) (S.state store.old) next message.entry.octets.now message.entry.view)) (S.state store.old) result (S.state store.new) }
    ensures memory { StoreMoves S.touches store.old result store.new }
{
    let auth = message.view.auth;
    let true = lent.verifier.knows(&auth.kid, auth.alg) else {
        return Verdict::Refused(Refusal::KidUnknown);
    };
    let true = message.signature_length_fits() else {
        return Verdict::Refused(Refusal::SignatureLength);
    };
    let transcript = message.transcript();
    let true = lent
        .verifier
        .is_good(&auth.kid, auth.alg, &transcript, message.signature())
    else {
        return Verdict::Refused(Refusal::AuthFail);
    };
    let mark = mark_of(&message.view, &transcript);
    judge_mark(store, lent, message, mark)
}

// The fields by themselves.
fn judge_fields<S: Store, V: Verifier>(
    store: &mut S,
    lent: &Lent<'_, V>,
    message: Message<'_>,
) -> Verdict
    requires on { (S.state store.old).on ≡ true }
    ensures answer { (next : ℕ) → answered result next ≡ first (field_questions (conditions_of V.known V.good lent.now) (S.state store.old) next message.entry.octets.now message.entry.view) }
    ensures leaves { (next : ℕ) → Leaves (offered (field_questions (conditions_of V.known V.good lent.now) (S.state store.old) next message.entry.octets.now message.entry.view)) (S.state store.old) result (S.state store.new) }
    ensures memory { StoreMoves S.touches store.old result store.new }
{
    let true = message.profile_matches() else {
        return Verdict::Refused(Refusal::ProfileMismatch);
    };
    let true = message.sizes_fit() else {
        return Verdict::Refused(Refusal::SizeLimit);
    };
    let true = message.echo_matches() else {
        return Verdict::Refused(Refusal::ContextMismatch);
    };
    judge_signature(store, lent, message)
}

// The octets of a message.
pub(crate) fn judge_message<S: Store, V: Verifier>(
    store: &mut S,
    lent: &Lent<'_, V>,
    octets: &[u8],
) -> Verdict
    requires on { (S.state store.old).on ≡ true }
    ensures answer { (next : ℕ) → answered result next ≡ first (message_questions (conditions_of V.known V.good lent.now) (S.state store.old) next octets.now) }
    ensures leaves { (next : ℕ) → Leaves (offered (message_questions (conditions_of V.known V.good lent.now) (S.state store.old) next octets.now)) (S.state store.old) result (S.state store.new) }
    ensures memory { StoreMoves S.touches store.old result store.new }
{
    let message = match read(octets) {
        Ok(message) => message,
        Err(refusal) => return Verdict::Refused(refusal),
    };
    judge_fields(store, lent, message)
}
