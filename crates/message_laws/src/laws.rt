// Calls on messages that also say what their answers mean for the fields that the octets encode.
ghost use Rattle.std.specs.Prelude.{◌≡◌, length, IfOk, Ok, Err, MatchResult};
ghost use Rattle.items.specs.Trees.{encoding};
ghost use Rattle.verdicts.specs.Transcripts.{octets_of};
ghost use Rattle.message.specs.Checks.{echo_matches, signature_length_fits, signature_of, transcript_of};
ghost use Rattle.message.specs.Fields.{unsigned_tree, Sizes, echo_in, Echoes, SignatureFits};
ghost use Rattle.message.specs.Messages.{message_of};
ghost use Rattle.message.specs.Sizes.{sizes_fit};
ghost use Rattle.message_laws.specs.Laws.{Encodes, EncodesNone, OfFields};

use answers::refusal::Refusal;
use message::{Message, read};
use verdicts::Transcript;

/// Reads a message: it passes exactly when the octets are the encoding of fields that a message may have, and of no other, and shows them.
#[tactic(auto, using(crate::proofs::Exactly::exactly))]
pub fn read_message(octets: &[u8]) -> Result<Message<'_>, Refusal>
    ensures is { MatchResult result (λ m. message_of octets.now ≡ Ok m.view) (λ e. message_of octets.now ≡ Err e) }
    ensures sid { IfOk result (λ m. length m.view.mid.sid ≡ 16) }
    ensures kid { IfOk result (λ m. length m.view.auth.kid ≡ 16) }
    ensures octets { IfOk result (λ m. m.octets.now ≡ octets.now) }
    ensures exactly { MatchResult result (λ m. Encodes octets.now m.view) (λ _. EncodesNone octets.now) }
{
    read(octets)
}

/// What is signed: the encoding of the fields without the signature.
#[tactic(auto, using(crate::proofs::Means::transcript_means))]
pub fn transcript<'a>(message: &Message<'a>) -> Transcript<'a>
    ensures is { octets_of result ≡ transcript_of message.now.octets.now message.now.view }
    ensures signed { OfFields message.now.octets.now message.now.view (λ f. octets_of result ≡ encoding (unsigned_tree f)) }
{
    message.transcript()
}

/// The signature of the fields.
#[tactic(auto, using(crate::proofs::Means::signature_means))]
pub fn signature<'a>(message: &Message<'a>) -> &'a [u8]
    ensures is { result.now ≡ signature_of message.now.octets.now message.now.view }
    ensures fields { OfFields message.now.octets.now message.now.view (λ f. result.now ≡ f.signature) }
{
    message.signature()
}

/// Is an echo of the fields absent, or equal to a context that is there?
#[tactic(auto, using(crate::proofs::Means::echo_means))]
pub fn echo_matches(message: &Message<'_>) -> bool
    ensures is { result ≡ echo_matches message.now.octets.now message.now.view }
    ensures fields { OfFields message.now.octets.now message.now.view (λ f. result ≡ Echoes (echo_in f.meta) f.ctx) }
{
    message.echo_matches()
}

/// Has the signature of the fields the length of its alg?
#[tactic(auto, using(crate::proofs::Means::length_means))]
pub fn signature_length_fits(message: &Message<'_>) -> bool
    ensures is { result ≡ signature_length_fits message.now.view }
    ensures fields { OfFields message.now.octets.now message.now.view (λ f. result ≡ SignatureFits f) }
{
    message.signature_length_fits()
}

/// Are message, arguments, metadata and all strings of the fields but the signature small enough?
#[tactic(auto, using(crate::proofs::Means::sizes_means))]
pub fn sizes_fit(message: &Message<'_>) -> bool
    ensures is { result ≡ sizes_fit message.now.octets.now message.now.view }
    ensures fields { OfFields message.now.octets.now message.now.view (λ f. result ≡ Sizes f) }
{
    message.sizes_fit()
}
