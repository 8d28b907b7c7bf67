// Reading a message.
ghost use Rattle.std.specs.Prelude.{◌≡◌, length, IfOk, Ok, Err, MatchResult};
ghost use Rattle.message.specs.Messages.{message_of};

use super::Message;
use crate::parts::view_of;
use answers::refusal::Refusal;
use items::types::Fault;

/// Reads the octets as a message, or says which of the first four questions on them does not hold.
#[tactic(auto, unfolding(crate::specs::Messages::message_of))]
pub fn read(octets: &[u8]) -> Result<Message<'_>, Refusal>
    ensures is { MatchResult result (λ m. message_of octets.now ≡ Ok m.view) (λ e. message_of octets.now ≡ Err e) }
    ensures sid { IfOk result (λ m. length m.view.mid.sid ≡ 16) }
    ensures kid { IfOk result (λ m. length m.view.auth.kid ≡ 16) }
    ensures octets { IfOk result (λ m. m.octets.now ≡ octets.now) }
{
    let read = items::read(octets);
    let (Ok(_) | Err(Fault::Indefinite)) = read else {
        return Err(Refusal::CborParse);
    };
    let Ok(reading) = read else {
        return Err(Refusal::Indefinite);
    };
    let true = reading.deterministic else {
        return Err(Refusal::NotDeterministic);
    };
    let Some(view) = view_of(octets) else {
        return Err(Refusal::Schema);
    };
    Ok(Message { octets, view })
}
