// Commands on messages: reading items, and judging a message by itself.
ghost use Rattle.std.specs.Prelude.{◌≡◌};
ghost use Rattle.answers.specs.Questions.{first};
ghost use Rattle.owac.specs.Alone.{fields_alone};

use crate::arguments::Arguments;
use crate::shown::{Asked, Brief, ByteString, OrDash};
use crate::unreadable::Unreadable;
use answers::refusal::Refusal;
use commands::request;
use commands::types::Request;
use items::types::{Fault, Span};
use marks::mark::{Mark, Pair, Position, Record};
use message::types::{Mid, View};
use message::{Message, not_expired, not_too_far};
use std::fmt;

// `read HEX`
pub fn read(words: &mut Arguments<'_>) -> Result<String, Unreadable> {
    let octets = words.octets()?;
    words.end()?;
    let answer = match items::read(octets.as_slice()) {
        Ok(reading) if reading.deterministic => "read deterministic",
        Ok(_) => "read other",
        Err(Fault::Malformed) => "fault 8",
        Err(Fault::Indefinite) => "fault 9",
    };
    Ok(String::from_str(words.heap(), answer)?)
}

// `HEX now=N`, which ends the line.
fn message_at(words: &mut Arguments<'_>) -> Result<(Vec<u8>, u64), Unreadable> {
    let octets = words.octets()?;
    let clock = words.number_option("now")?;
    words.end()?;
    Ok((octets, clock))
}

// `judge HEX now=N`: the first refusal of a message by itself, or what it says.
pub fn judge(words: &mut Arguments<'_>) -> Result<String, Unreadable> {
    let (octets, clock) = message_at(words)?;
    let said = Judgement::of(octets.as_slice(), clock);
    Ok(format!(in words.heap(); "{said}")?)
}

// `fields HEX now=N`: what `judge` says, with the refusal's name or the fields that it leaves out.
pub fn fields(words: &mut Arguments<'_>) -> Result<String, Unreadable> {
    let (octets, clock) = message_at(words)?;
    let said = Judgement::of(octets.as_slice(), clock);
    let more = Rest(said);
    Ok(format!(in words.heap(); "{said} {more}")?)
}

// A message that no question refuses by itself, and what it asks for.
#[derive(Clone, Copy)]
struct Said<'a> {
    message: Message<'a>,
    request: Request,
}

// What a message says, or the first refusal of it by itself.
#[derive(Clone, Copy)]
pub struct Judgement<'a>(Result<Said<'a>, Refusal>);

impl<'a> Said<'a> {
    fn read(octets: &'a [u8], clock: u64) -> Result<Said<'a>, Refusal> {
        let message = message::read(octets)?;
        if let Some(refusal) = first_refusal(&message, clock) {
            return Err(refusal);
        }
        let view = message.view;
        let request = request(octets, view.cmd.kind, view.cmd.args.start)?;
        Ok(Said { message, request })
    }
}

impl<'a> Judgement<'a> {
    pub fn of(octets: &'a [u8], clock: u64) -> Judgement<'a> {
        Judgement(Said::read(octets, clock))
    }
}

// The first refusal of the questions that need neither a verifier nor a store, up to the command.
fn first_refusal(message: &Message<'_>, clock: u64) -> Option<Refusal>
    ensures { result ≡ first (fields_alone clock message.now.octets.now message.now.view) }
{
    let exp = message.view.mid.exp;
    let true = message.profile_matches() else {
        return Some(Refusal::ProfileMismatch);
    };
    let true = message.sizes_fit() else {
        return Some(Refusal::SizeLimit);
    };
    let true = message.echo_matches() else {
        return Some(Refusal::ContextMismatch);
    };
    let true = message.signature_length_fits() else {
        return Some(Refusal::SignatureLength);
    };
    let true = not_expired(clock, exp) else {
        return Some(Refusal::Expired);
    };
    let true = not_too_far(clock, exp) else {
        return Some(Refusal::ExpTooFar);
    };
    None
}

// The fields, the transcript hash and the command.
impl fmt::Display for Said<'_> {
    fn fmt<W: fmt::Write>(&self, f: &mut fmt::Formatter<W>) -> fmt::Result {
        let message = self.message;
        let octets = message.octets;
        let Mid {
            epoch,
            counter,
            sid,
            ..
        } = message.view.mid;
        let kid = message.view.auth.kid;
        let pair = Pair { sid, kid };
        let position = Position { epoch, counter };
        let hash = message.transcript().digest();
        let mark = Mark { position, hash };
        let brief = Brief {
            record: Record { mark, pair },
            length: octets.len(),
            asked: Asked {
                request: self.request,
                octets,
            },
        };
        write!(f, "message {brief}")
    }
}

impl fmt::Display for Judgement<'_> {
    fn fmt<W: fmt::Write>(&self, f: &mut fmt::Formatter<W>) -> fmt::Result {
        match &self.0 {
            Ok(said) => write!(f, "{said}"),
            Err(refusal) => write!(f, "refused {}", refusal.number()),
        }
    }
}

// What the line of a judgement leaves out: the refusal's name, or fields. Of the maps meta and ext the octets are counted.
#[derive(Clone, Copy)]
struct Rest<'a>(Judgement<'a>);

// The fields that the line of a message leaves out.
#[derive(Clone, Copy)]
struct RestOfFields<'a>(Message<'a>);

impl fmt::Display for Rest<'_> {
    fn fmt<W: fmt::Write>(&self, f: &mut fmt::Formatter<W>) -> fmt::Result {
        match &self.0.0 {
            Ok(said) => write!(f, "{}", RestOfFields(said.message)),
            Err(refusal) => f.write_str(refusal.name()),
        }
    }
}

impl fmt::Display for RestOfFields<'_> {
    fn fmt<W: fmt::Write>(&self, f: &mut fmt::Formatter<W>) -> fmt::Result {
        let octets = self.0.octets;
        let string = |span: Span| ByteString::of(octets, span);
        let View {
            profile,
            mid,
            auth,
            cmd,
            meta,
            ext,
        } = self.0.view;
        let alg = auth.alg;
        let exp = OrDash(mid.exp);
        let ctx = OrDash(auth.ctx.map(string));
        let duo = OrDash(cmd.duo.map(string));
        let echo = OrDash(meta.and_then(|meta| meta.echo).map(string));
        let meta = OrDash(meta.map(|meta| meta.span.len));
        let ext = OrDash(ext.map(|ext| ext.len));
        write!(
            f,
            "profile={profile} alg={alg} exp={exp} ctx={ctx} duo={duo} meta={meta} echo={echo} ext={ext}"
        )
    }
}
