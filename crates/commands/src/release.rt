// Whether a request may be released, and the text of a command.
ghost use Rattle.std.specs.Prelude.{◌≡◌, ◌&&◌, if◌then◌else◌, Some, None};
ghost use Rattle.commands.specs.Release.{track_listed, not_reserved, tracks_listed, is_heartbeat, track_number, command_of, allowed, command_text};

use crate::types::{Command, Request, Track};

// The number of a track that is in the catalog.
fn listed(catalog: &[u64], track: Track) -> Option<u64>
    ensures { result ≡ (if track_listed catalog.now track then track_number track else None) }
{
    match track {
        Track::Number(number) => catalog.contains(&number).then_some(number),
        Track::Octets(_) => None,
    }
}

impl Request {
    fn is_heartbeat(&self) -> bool
        ensures { result ≡ is_heartbeat self.now }
    {
        matches!(self, Request::Heartbeat { .. })
    }

    // The command, if its type is neither 30 nor 31 and any track is a number in the catalog.
    // Kept: a line for each type, since requests and commands are two types, for the reason that stands at `Command`.
    fn command(self, catalog: &[u64]) -> Option<Command>
        ensures { result ≡ (if not_reserved self && tracks_listed catalog.now self then command_of self else None) }
    {
        let command = match self {
            Request::Heartbeat { time } => Command::Heartbeat { time },
            Request::Queue {
                track,
                priority,
                earliest,
                until,
            } => Command::Queue {
                track: listed(catalog, track)?,
                priority,
                earliest,
                until,
            },
            Request::Suggest { track, weight } => Command::Suggest {
                track: listed(catalog, track)?,
                weight,
            },
            Request::Remove { item } => Command::Remove { item },
            Request::State { state } => Command::State { state },
            Request::Seek { milliseconds } => Command::Seek { milliseconds },
            Request::Rate { percent } => Command::Rate { percent },
            Request::Next => Command::Next,
            Request::Previous => Command::Previous,
            Request::Text { target, mode, text } => Command::Text { target, mode, text },
            Request::Reserved(_) => return None,
        };
        Some(command)
    }

    /// The command, if it may be released: its type is neither 30 nor 31, any track is a number in the catalog,
    /// and `suspect` is no or it is a heartbeat.
    #[tactic(auto, unfolding(crate::specs::Release::allowed))]
    pub fn allow(self, catalog: &[u64], suspect: bool) -> Option<Command>
        ensures { result ≡ allowed catalog.now suspect self }
    {
        if suspect && !self.is_heartbeat() {
            return None;
        }
        self.command(catalog)
    }
}

// The request whose command it is: its own arguments, and a track as a number.
// Kept: a line for each type, since requests and commands are two types, for the reason that stands at `Command`.
impl From<Command> for Request {
    ghost from_gives = { λ command request. command_of request ≡ Some command };

    fn from(command: Command) -> Request {
        match command {
            Command::Heartbeat { time } => Request::Heartbeat { time },
            Command::Queue {
                track,
                priority,
                earliest,
                until,
            } => Request::Queue {
                track: Track::Number(track),
                priority,
                earliest,
                until,
            },
            Command::Suggest { track, weight } => Request::Suggest {
                track: Track::Number(track),
                weight,
            },
            Command::Remove { item } => Request::Remove { item },
            Command::State { state } => Request::State { state },
            Command::Seek { milliseconds } => Request::Seek { milliseconds },
            Command::Rate { percent } => Request::Rate { percent },
            Command::Next => Request::Next,
            Command::Previous => Request::Previous,
            Command::Text { target, mode, text } => Request::Text { target, mode, text },
        }
    }
}

/// The text of a command in the octets that it was read from; empty if it has none or the text lies outside.
#[tactic(auto, unfolding(crate::specs::Release::command_text, items::specs::Spans::shown))]
pub fn text<'a>(octets: &'a [u8], command: &Command) -> &'a [u8]
    ensures { result.now ≡ command_text octets.now command.now }
{
    match *command {
        Command::Text { text, .. } => text.of(octets).unwrap_or(&[]),
        _ => &[],
    }
}
