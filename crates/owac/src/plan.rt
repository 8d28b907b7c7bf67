// What a day brings to the receiver of a playout house.
use crate::draft::{Draft, Errand};

// Midnight, in Unix seconds.
const MIDNIGHT: u64 = 1_799_971_200;

// The workstation that sends.
pub const SENDER: [u8; 16] = [0xA0; 16];

// The key that the house knows, and one that it does not.
const KEY: [u8; 16] = [0xB0; 16];

const OTHER_KEY: [u8; 16] = [0xB1; 16];

// A tag that was worked out with the key, and one that was not.
const TAG: [u8; 16] = [0xC0; 16];

const OTHER_TAG: [u8; 16] = [0xC1; 16];

// The tracks that may be played.
pub const CATALOG: [u64; 3] = [42, 43, 1001];

// An hour and a minute.
#[derive(Clone, Copy)]
pub struct Time {
    pub hour: u8,
    pub minute: u8,
}

impl Time {
    // In Unix seconds.
    pub fn clock(self) -> u64 {
        MIDNIGHT + 3600 * self.hour as u64 + 60 * self.minute as u64
    }
}

// How a burst comes over the line.
#[derive(Clone, Copy, PartialEq, Eq)]
pub enum Line {
    Clear,
    Damaged,
    Doubted,
}

#[derive(Clone, Copy)]
pub enum Event {
    Job(Draft, Line),
    // power for so many writes
    PowerBack(u64),
}

#[derive(Clone, Copy)]
pub struct Step {
    pub at: Time,
    pub event: Event,
    // what an operator should know
    pub note: &'static str,
}

impl Step {
    // The job, if its tag is on the sheet.
    pub fn listed(&self) -> Option<&Draft> {
        match &self.event {
            Event::Job(draft, _) if draft.listed => Some(draft),
            _ => None,
        }
    }
}

// A job that is signed and has no expiry.
fn signed(epoch: u64, counter: u64, errand: Errand) -> Draft {
    Draft {
        epoch,
        counter,
        expires: None,
        errand,
        kid: KEY,
        tag: TAG,
        listed: true,
    }
}

fn job(hour: u8, minute: u8, draft: Draft, line: Line, note: &'static str) -> Step {
    Step {
        at: Time { hour, minute },
        event: Event::Job(draft, line),
        note,
    }
}

// A job that came too late.
fn late() -> Draft {
    let eight = Time { hour: 8, minute: 0 };
    Draft {
        expires: Some(eight.clock()),
        ..signed(7, 5, Errand::Text("Doors open at eight"))
    }
}

// A job whose key or tag the house does not know.
fn unlisted(kid: [u8; 16], tag: [u8; 16]) -> Draft {
    Draft {
        kid,
        tag,
        listed: false,
        ..signed(7, 5, Errand::Rate(200))
    }
}

// The morning: power lasts for four writes.
pub fn morning() -> [Step; 12] {
    let first = signed(7, 1, Errand::Heartbeat);
    let queue = signed(
        7,
        2,
        Errand::Queue {
            track: 42,
            priority: 5,
        },
    );
    let missing = signed(
        7,
        3,
        Errand::Queue {
            track: 99,
            priority: 5,
        },
    );
    let news = signed(7, 3, Errand::Text("News at noon"));
    let rate = signed(7, 4, Errand::Rate(105));
    let strange = unlisted(OTHER_KEY, TAG);
    let forged = unlisted(KEY, OTHER_TAG);
    [
        job(6, 0, first, Line::Clear, ""),
        job(6, 30, queue, Line::Clear, ""),
        job(6, 31, queue, Line::Clear, ", sent again"),
        job(7, 0, missing, Line::Clear, ", not in the catalog"),
        job(7, 15, news, Line::Clear, ""),
        job(8, 0, rate, Line::Damaged, ", damaged on the line"),
        job(8, 1, rate, Line::Doubted, ", the line is in doubt"),
        job(8, 2, rate, Line::Clear, ""),
        job(9, 0, late(), Line::Clear, ", expired at 08:00"),
        job(9, 30, strange, Line::Clear, ", of an unknown key"),
        job(9, 45, forged, Line::Clear, ", its tag made up"),
        job(10, 0, first, Line::Clear, ", from before"),
    ]
}

// Noon: the power fails in a write, and comes back.
pub fn noon() -> [Step; 6] {
    let queue = signed(
        7,
        5,
        Errand::Queue {
            track: 1001,
            priority: 9,
        },
    );
    let beat = signed(7, 6, Errand::Heartbeat);
    let back = Step {
        at: Time {
            hour: 12,
            minute: 10,
        },
        event: Event::PowerBack(9),
        note: "power is back",
    };
    [
        job(12, 0, queue, Line::Clear, ", power fails in the write"),
        job(12, 5, beat, Line::Clear, ", still off"),
        back,
        job(12, 11, queue, Line::Clear, ", sent again"),
        job(12, 12, queue, Line::Clear, ", sent again"),
        job(12, 15, beat, Line::Doubted, ", the line is in doubt"),
    ]
}

// The evening, above a floor of epoch 8.
pub fn evening() -> [Step; 3] {
    let old = signed(
        7,
        7,
        Errand::Queue {
            track: 43,
            priority: 0,
        },
    );
    let new = signed(
        8,
        1,
        Errand::Queue {
            track: 43,
            priority: 0,
        },
    );
    [
        job(18, 5, old, Line::Clear, ", of an epoch that is over"),
        job(18, 10, new, Line::Clear, ""),
        job(23, 0, signed(8, 2, Errand::Heartbeat), Line::Clear, ""),
    ]
}
