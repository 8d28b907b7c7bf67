// Calls of the commands that also say what their answers mean for the trees that the octets encode.
ghost use Rattle.std.specs.Prelude.{◌≡◌, is_some};
ghost use Rattle.commands.specs.Octets.{request_at};
ghost use Rattle.commands.specs.Release.{may_release, allowed, command_text};
ghost use Rattle.commands_laws.specs.Laws.{AnswersOrder, RefusesByType, HandsOut};
ghost use Rattle.commands_laws.specs.Sending.{ReadsOrders};

use answers::refusal::Refusal;
use commands::types::{Command, Request};
use commands::{request, text};

/// Reads what a message asks for: where the map of arguments is the encoding of a tree that a message may hold,
/// the answer is that to the order of this tree, a request that shows it or the refusal; so a request is answered
/// exactly where a valid order is written. The refusal is `UnknownCommand` exactly where the type is not listed.
#[tactic(auto, using(crate::proofs::Orderings::answers_order, crate::proofs::Sent::reads_orders, crate::proofs::ByType::refuses_by_type))]
pub fn read_request(octets: &[u8], kind: u64, args: usize) -> Result<Request, Refusal>
    ensures is { result ≡ request_at octets.now kind args }
    ensures answers { AnswersOrder octets.now kind args result }
    ensures sent { ReadsOrders octets.now kind args result }
    ensures types { RefusesByType kind result }
{
    request(octets, kind, args)
}

/// Releases a request: there is a command exactly when it may be released.
#[tactic(auto, using(crate::proofs::Releasing::exactly))]
pub fn release(request: Request, catalog: &[u64], suspect: bool) -> Option<Command>
    ensures is { result ≡ allowed catalog.now suspect request }
    ensures exactly { is_some result ≡ may_release catalog.now suspect request }
{
    request.allow(catalog, suspect)
}

/// Hands out the text of a command: where the octets of a text stand at its place, they are handed out.
pub fn command_text<'a>(octets: &'a [u8], command: &Command) -> &'a [u8]
    ensures is { result.now ≡ command_text octets.now command.now }
    ensures out { HandsOut octets.now command.now result.now }
{
    text(octets, command)
}
