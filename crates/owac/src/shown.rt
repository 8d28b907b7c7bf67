// Values as they stand in the lines that the program prints.
use commands::types::{Request, Track};
use items::types::Span;
use marks::mark::Record;
use std::fmt;
use words::hex::{Digits, Hex};

// A byte string as `x` and the digits of its octets.
#[derive(Clone, Copy)]
pub struct ByteString<'a>(&'a [u8]);

impl<'a> ByteString<'a> {
    // The byte string that stands there; an empty one if its span lies outside.
    pub fn of(octets: &'a [u8], span: Span) -> ByteString<'a> {
        ByteString(span.of(octets).unwrap_or(&[]))
    }
}

impl fmt::Display for ByteString<'_> {
    fn fmt<W: fmt::Write>(&self, f: &mut fmt::Formatter<W>) -> fmt::Result {
        write!(f, "x{}", Digits(self.0))
    }
}

// A value, or `-` if there is none.
#[derive(Clone, Copy)]
pub struct OrDash<T>(pub Option<T>);

impl<T: fmt::Display> fmt::Display for OrDash<T> {
    fn fmt<W: fmt::Write>(&self, f: &mut fmt::Formatter<W>) -> fmt::Result {
        match &self.0 {
            Some(value) => write!(f, "{value}"),
            None => f.write_str("-"),
        }
    }
}

// A yes or a no in a word.
#[derive(Clone, Copy)]
pub struct YesNo(pub bool);

impl fmt::Display for YesNo {
    fn fmt<W: fmt::Write>(&self, f: &mut fmt::Formatter<W>) -> fmt::Result {
        f.write_str(if self.0 { "yes" } else { "no" })
    }
}

// The track that a request names: its number, or its byte string.
#[derive(Clone, Copy)]
pub struct TrackName<'a> {
    pub track: Track,
    pub octets: &'a [u8],
}

impl fmt::Display for TrackName<'_> {
    fn fmt<W: fmt::Write>(&self, f: &mut fmt::Formatter<W>) -> fmt::Result {
        match self.track {
            Track::Number(n) => write!(f, "{n}"),
            Track::Octets(span) => write!(f, "{}", ByteString::of(self.octets, span)),
        }
    }
}

// A pair and its mark.
#[derive(Clone, Copy)]
pub struct Marked(pub Record);

impl fmt::Display for Marked {
    fn fmt<W: fmt::Write>(&self, f: &mut fmt::Formatter<W>) -> fmt::Result {
        let Record { mark, pair } = self.0;
        let position = mark.position;
        write!(
            f,
            "sid={} kid={} epoch={} counter={} hash={}",
            Hex(&pair.sid),
            Hex(&pair.kid),
            position.epoch,
            position.counter,
            Hex(&mark.hash),
        )
    }
}

// A request in the words of a script: its name and its arguments, and `-` for what is absent.
#[derive(Clone, Copy)]
pub struct Asked<'a> {
    pub request: Request,
    pub octets: &'a [u8],
}

impl fmt::Display for Asked<'_> {
    fn fmt<W: fmt::Write>(&self, f: &mut fmt::Formatter<W>) -> fmt::Result {
        let octets = self.octets;
        match self.request {
            Request::Heartbeat { time } => write!(f, "heartbeat {}", OrDash(time)),
            Request::Queue {
                track,
                priority,
                earliest,
                until,
            } => {
                let track = TrackName { track, octets };
                let earliest = OrDash(earliest);
                let until = OrDash(until);
                write!(f, "queue {track} {priority} {earliest} {until}")
            }
            Request::Suggest { track, weight } => {
                let track = TrackName { track, octets };
                write!(f, "suggest {track} {weight}")
            }
            Request::Remove { item } => write!(f, "remove {item}"),
            Request::State { state } => write!(f, "state {state}"),
            Request::Seek { milliseconds } => write!(f, "seek {milliseconds}"),
            Request::Rate { percent } => write!(f, "rate {percent}"),
            Request::Next => f.write_str("next"),
            Request::Previous => f.write_str("previous"),
            Request::Text { target, mode, text } => {
                let Span { start, len } = text;
                write!(f, "text {target} {mode} {start} {len}")
            }
            Request::Reserved(kind) => write!(f, "reserved {kind}"),
        }
    }
}

// A message in a script's line: its pair and mark, how many octets it has, and what it asks for.
#[derive(Clone, Copy)]
pub struct Brief<'a> {
    pub record: Record,
    pub length: usize,
    pub asked: Asked<'a>,
}

impl fmt::Display for Brief<'_> {
    fn fmt<W: fmt::Write>(&self, f: &mut fmt::Formatter<W>) -> fmt::Result {
        let marked = Marked(self.record);
        let length = self.length;
        let asked = self.asked;
        write!(f, "{marked} length={length} command={asked}")
    }
}
