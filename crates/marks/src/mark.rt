// The values that cells and stores exchange.

// A sender's id and the id of its key.
#[derive(Clone, Copy, PartialEq, Eq)]
pub struct Pair {
    pub sid: [u8; 16],
    pub kid: [u8; 16],
}

// An epoch and a counter, compared by epoch first.
#[derive(Clone, Copy, PartialEq, Eq, PartialOrd, Ord)]
pub struct Position {
    pub epoch: u64,
    pub counter: u64,
}

// A position and the transcript hash of the message that reached it.
#[derive(Clone, Copy, PartialEq, Eq)]
pub struct Mark {
    pub position: Position,
    pub hash: [u8; 32],
}

// The mark stands first: a pass over cells that compares their pairs then takes a fifth of the time.
#[derive(Clone, Copy, PartialEq, Eq)]
pub struct Record {
    pub mark: Mark,
    pub pair: Pair,
}

// What a cell reads as.
// Kept: the rules list these cases by name, as they do those of the three enums below.
#[derive(Clone, Copy, PartialEq, Eq)]
pub enum Cell {
    Blank,
    Torn,
    Held(Record),
}

// What a power cut leaves in the cell that was being written.
#[derive(Clone, Copy, PartialEq, Eq)]
pub enum CutLeaves {
    Old,
    New,
    Torn,
}

// How a write of a cell ended.
#[derive(Clone, Copy, PartialEq, Eq)]
pub enum Written {
    Off,
    Outside,
    Cut,
    Done,
}

// How a raise of a pair's mark ended.
#[derive(Clone, Copy, PartialEq, Eq)]
pub enum Raised {
    Off,
    Low,
    Full,
    Cut,
    Done,
}
