// What a message asks for, and the command that is released.
use items::types::Span;

/// A track: its number, or a byte string in the octets.
#[derive(Clone, Copy)]
pub enum Track {
    Number(u64),
    Octets(Span),
}

/// What a message asks for. Strings are given by their place in the octets.
// Kept: state, target, mode and the reserved type are numbers, since `allow` may not ask more of its callers.
#[derive(Clone, Copy)]
pub enum Request {
    Heartbeat {
        time: Option<u64>,
    },
    Queue {
        track: Track,
        priority: i8,
        earliest: Option<u64>,
        until: Option<u64>,
    },
    Suggest {
        track: Track,
        weight: i8,
    },
    Remove {
        item: u64,
    },
    State {
        state: u8,
    },
    Seek {
        milliseconds: i32,
    },
    Rate {
        percent: u8,
    },
    Next,
    Previous,
    Text {
        target: u8,
        mode: u8,
        text: Span,
    },
    /// Type 30 or 31, whose arguments are not examined.
    Reserved(u8),
}

/// A command that is released: its own arguments and no others, as numbers. The text is given by its place in the octets.
// Kept: a rule of the project: the released command has one case of numbers for each command type and can hold nothing else, where
// a request may name its track by octets or be of a reserved type. One generic enum would show a type parameter to every host.
#[derive(Clone, Copy)]
pub enum Command {
    Heartbeat {
        time: Option<u64>,
    },
    Queue {
        track: u64,
        priority: i8,
        earliest: Option<u64>,
        until: Option<u64>,
    },
    Suggest {
        track: u64,
        weight: i8,
    },
    Remove {
        item: u64,
    },
    State {
        state: u8,
    },
    Seek {
        milliseconds: i32,
    },
    Rate {
        percent: u8,
    },
    Next,
    Previous,
    Text {
        target: u8,
        mode: u8,
        text: Span,
    },
}
