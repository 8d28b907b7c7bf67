// What a reading tells and keeps.
ghost use Rattle.std.specs.Prelude.{◌≡◌, ◌/◌};
ghost use Rattle.std.specs.Option.{option_map};
ghost use Rattle.items.specs.Majors.{number_of};
ghost use Rattle.items.specs.Spans.{shown};
ghost use Rattle.items.specs.Stored.{Kept};

/// Why octets are no item.
#[derive(Clone, Copy, Debug, PartialEq, Eq)]
pub enum Fault {
    /// The octets are no item, or pass a limit.
    Malformed,
    /// A head has additional information 31, and no fault stands before it.
    Indefinite,
}

/// The major types of items, in the order of their numbers.
#[derive(Clone, Copy, Debug, PartialEq, Eq)]
pub enum Major {
    Unsigned,
    Negative,
    Bytes,
    Text,
    Array,
    Map,
    Tag,
    Simple,
}

impl Major {
    /// The major type of the item whose head starts with this octet.
    pub fn of(first: u8) -> Major
        ensures { number_of result ≡ first / 32 }
    {
        match first / 32 {
            0 => Major::Unsigned,
            1 => Major::Negative,
            2 => Major::Bytes,
            3 => Major::Text,
            4 => Major::Array,
            5 => Major::Map,
            6 => Major::Tag,
            _ => Major::Simple,
        }
    }
}

/// The head of an item.
#[derive(Clone, Copy)]
pub struct Head {
    pub major: Major,
    pub argument: u64,
    /// No shorter head has this argument.
    pub shortest: bool,
}

/// A message that was read to its end.
#[derive(Clone, Copy)]
pub struct Reading {
    /// Every head is the shortest, and the keys of every map ascend.
    pub deterministic: bool,
}

/// A part of the octets.
#[derive(Clone, Copy)]
pub struct Span {
    pub start: usize,
    pub len: usize,
}

impl Span {
    /// The octets of the span; `None` where it does not lie within them.
    #[tactic(auto, unfolding(crate::specs::Spans::shown))]
    pub fn of<'a>(self, octets: &'a [u8]) -> Option<&'a [u8]>
        ensures { option_map (λ part. part.now) result ≡ shown octets.now self }
    {
        octets.get(self.start..self.start.checked_add(self.len)?)
    }
}

// The most entries of a map, and so the most keys.
pub(crate) const MAP_ENTRIES: usize = 64;

/// Where in the octets the keys of a map were received.
// Kept: two arrays of places beside the octets. With one array of the keys' own slices, or an ArrayVec of them, which is not
// made by zeroing memory, a small message took 1.2 and 1.3 times as long to read.
#[derive(Clone, Copy)]
pub struct Keys<'a> {
    pub octets: &'a [u8],
    pub starts: [usize; MAP_ENTRIES],
    pub ends: [usize; MAP_ENTRIES],
    pub count: usize,
    /// Each key stands above the one before.
    pub sorted: bool,
    pub ghost kept: { Kept octets.now starts ends count sorted },
}
