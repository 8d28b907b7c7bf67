// A job in an operator's words.
use crate::shown::TrackName;
use commands::request;
use commands::types::Request;
use judging::answer::Release;
use marks::mark::Position;
use std::fmt;
use std::str::from_utf8;

// What stands for a control character of a text.
const CONTROL: char = '.';

// A request, its position, and the message that it was read from.
#[derive(Clone, Copy)]
pub struct Job<'a> {
    pub request: Request,
    pub position: Position,
    pub octets: &'a [u8],
}

// When a queued track is due.
#[derive(Clone, Copy)]
struct Due {
    earliest: Option<u64>,
    until: Option<u64>,
}

// A text, with a dot for each control character.
#[derive(Clone, Copy)]
struct Printable<'a>(&'a [u8]);

impl fmt::Display for Due {
    fn fmt<W: fmt::Write>(&self, f: &mut fmt::Formatter<W>) -> fmt::Result {
        if let Some(time) = self.earliest {
            write!(f, ", from {time}")?;
        }
        if let Some(time) = self.until {
            write!(f, ", until {time}")?;
        }
        Ok(())
    }
}

impl fmt::Display for Printable<'_> {
    fn fmt<W: fmt::Write>(&self, f: &mut fmt::Formatter<W>) -> fmt::Result {
        for c in from_utf8(self.0).unwrap_or("").chars() {
            f.write_char(if c.is_control() { CONTROL } else { c })?;
        }
        Ok(())
    }
}

impl<'a> Job<'a> {
    // The job of a message, if it can be read.
    pub fn read(octets: &'a [u8]) -> Option<Job<'a>> {
        let view = message::read(octets).ok()?.view;
        let request = request(octets, view.cmd.kind, view.cmd.args.start).ok()?;
        let position = Position {
            epoch: view.mid.epoch,
            counter: view.mid.counter,
        };
        Some(Job {
            request,
            position,
            octets,
        })
    }

    // The job that is released, in the work buffer with its message.
    pub fn of(release: Release, octets: &'a [u8]) -> Job<'a> {
        Job {
            request: Request::from(release.command),
            position: release.mark.position,
            octets,
        }
    }
}

// What is asked for, and where it stands.
impl fmt::Display for Job<'_> {
    fn fmt<W: fmt::Write>(&self, f: &mut fmt::Formatter<W>) -> fmt::Result {
        let octets = self.octets;
        // Kept: a request has two texts, this one and the script's in shown.rt: an operator and a script read words of their own.
        match self.request {
            Request::Heartbeat { time: None } => f.write_str("heartbeat"),
            Request::Heartbeat { time: Some(time) } => write!(f, "heartbeat of {time}"),
            Request::Queue {
                track,
                priority,
                earliest,
                until,
            } => {
                let track = TrackName { track, octets };
                let due = Due { earliest, until };
                write!(f, "queue track {track} with priority {priority}{due}")
            }
            Request::Suggest { track, weight } => {
                let track = TrackName { track, octets };
                write!(f, "suggest track {track} with weight {weight}")
            }
            Request::Remove { item } => write!(f, "remove item {item}"),
            Request::State { state } => write!(f, "set state {state}"),
            Request::Seek { milliseconds } => write!(f, "seek by {milliseconds} ms"),
            Request::Rate { percent } => write!(f, "play at {percent} percent"),
            Request::Next => f.write_str("next track"),
            Request::Previous => f.write_str("previous track"),
            Request::Text { target, mode, text } => {
                let text = Printable(text.of(octets).unwrap_or(&[]));
                write!(f, "text on {target} in mode {mode}: \"{text}\"")
            }
            Request::Reserved(kind) => write!(f, "reserved {kind}"),
        }?;
        let Position { epoch, counter } = self.position;
        write!(f, " (epoch {epoch}, counter {counter})")
    }
}
