// Reading what a message asks for: the command type, and its arguments in the map at a place.
ghost use Rattle.std.specs.Prelude.{◌≡◌, ok_or};
ghost use Rattle.answers.specs.declared.refusal.Refusal.TheVariants.{BadArguments};
ghost use Rattle.commands.specs.Orders.{listed_type, given, in_order, heartbeat_in, queue_in, suggest_in, text_order_in};
ghost use Rattle.commands.specs.Octets.{source_of, requested, request_at};
ghost use Rattle.commands.specs.Kinds.{number_of};

use crate::arguments::Arguments;
use crate::kind::Kind;
use crate::types::Request;
use answers::refusal::Refusal;

// The limits of the arguments.
const PRIORITY: u64 = 10;

const WEIGHT: u64 = 5;

const MILLISECONDS: u64 = 60_000;

const STATES: u8 = 2;

const TARGETS: u8 = 2;

const MODES: u8 = 2;

const RATE_LOW: u8 = 50;

const RATE_HIGH: u8 = 200;

// How many arguments an optional one is.
fn count(argument: Option<u64>) -> u64
    ensures { result ≡ given argument }
{
    u64::from(argument.is_some())
}

// Whether the end of the span of time is not below its start, where both are there.
fn in_order(earliest: Option<u64>, until: Option<u64>) -> bool
    ensures { result ≡ in_order earliest until }
{
    earliest
        .zip(until)
        .is_none_or(|(earliest, until)| earliest <= until)
}

// Optional time.
fn heartbeat(arguments: &Arguments<'_>) -> Option<Request>
    ensures { result ≡ requested (heartbeat_in (source_of arguments.now)) }
{
    let time = arguments.optional(0)?;
    arguments
        .has(count(time))
        .then_some(Request::Heartbeat { time })
}

// Track, priority, optional earliest and until.
fn queue(arguments: &Arguments<'_>) -> Option<Request>
    ensures { result ≡ requested (queue_in (source_of arguments.now)) }
{
    let track = arguments.track(0)?;
    let priority = arguments.signed(1, PRIORITY)?;
    let earliest = arguments.optional(2)?;
    let until = arguments.optional(3)?;
    let whole = arguments.has(2 + count(earliest) + count(until));
    (whole && in_order(earliest, until)).then_some(Request::Queue {
        track,
        priority: priority as i8,
        earliest,
        until,
    })
}

// Track, weight.
fn suggest(arguments: &Arguments<'_>) -> Option<Request>
    ensures { result ≡ requested (suggest_in (source_of arguments.now)) }
{
    let track = arguments.track(0)?;
    let weight = arguments.signed(1, WEIGHT)?;
    arguments.has(2).then_some(Request::Suggest {
        track,
        weight: weight as i8,
    })
}

// Target, mode, text.
fn text(arguments: &Arguments<'_>) -> Option<Request>
    ensures { result ≡ requested (text_order_in (source_of arguments.now)) }
{
    let target = arguments.between(0, 0..=TARGETS)?;
    let mode = arguments.between(1, 0..=MODES)?;
    let text = arguments.text(2)?;
    arguments
        .has(3)
        .then_some(Request::Text { target, mode, text })
}

// What a command of the type asks for. The arguments of a reserved type are not examined.
#[tactic(auto, unfolding(crate::specs::Octets::request_at, crate::specs::Orders::order_in))]
fn ordered(kind: Kind, arguments: &Arguments<'_>) -> Option<Request>
    ensures { ok_or result BadArguments ≡ request_at arguments.now.octets.now (number_of kind) arguments.now.place }
{
    match kind {
        Kind::Heartbeat => heartbeat(arguments),
        Kind::Queue => queue(arguments),
        Kind::Suggest => suggest(arguments),
        Kind::Remove => arguments.has(1).then_some(Request::Remove {
            item: arguments.number(0)?,
        }),
        Kind::State => arguments.has(1).then_some(Request::State {
            state: arguments.between(0, 0..=STATES)?,
        }),
        Kind::Seek => arguments.has(1).then_some(Request::Seek {
            milliseconds: arguments.signed(0, MILLISECONDS)? as i32,
        }),
        Kind::Rate => arguments.has(1).then_some(Request::Rate {
            percent: arguments.between(0, RATE_LOW..=RATE_HIGH)?,
        }),
        Kind::Next => arguments.has(0).then_some(Request::Next),
        Kind::Previous => arguments.has(0).then_some(Request::Previous),
        Kind::Text => text(arguments),
        Kind::PolicyEpochUpdate | Kind::CatalogUpdate => Some(Request::Reserved(kind as u8)),
    }
}

/// Whether the command type is listed.
pub fn is_listed(kind: u64) -> bool
    ensures { result ≡ listed_type kind }
{
    Kind::try_from(kind).is_ok()
}

/// What the command type and the map of arguments at the place ask for.
/// `UnknownCommand` where the type is not listed, `BadArguments` where the arguments are not those of the type.
#[tactic(auto, unfolding(crate::specs::Octets::request_at, crate::specs::Orders::order_in))]
pub fn request(octets: &[u8], kind: u64, args: usize) -> Result<Request, Refusal>
    ensures { result ≡ request_at octets.now kind args }
{
    let kind = Kind::try_from(kind)?;
    let arguments = Arguments {
        octets,
        place: args,
    };
    ordered(kind, &arguments).ok_or(Refusal::BadArguments)
}
