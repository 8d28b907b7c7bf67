// Reading a head, and what lies behind the head of a string.
ghost use Rattle.std.specs.Prelude.{◌≡◌, ◌+◌, ◌-◌, ◌*◌, ◌<◌, ◌≤◌, length, cond, nat_lt, Some, None, IfOk, MatchResult};
ghost use Rattle.items.specs.Heads.{big_endian, width, least, fault_at, head_at, said, head_size, part, Moved, skipped, text_read};

use super::Reader;
use crate::types::{Fault, Head, Major, Span};
use text::is_text;

// Additional information: below `ONE_OCTET` it is the argument itself, from `RESERVED` on it is none.
// Kept: five bits of the format, each named by what it announces and matched below; an enum would be made by the same match.
const ONE_OCTET: u8 = 24;

const TWO_OCTETS: u8 = 25;

const FOUR_OCTETS: u8 = 26;

const RESERVED: u8 = 28;

const INDEFINITE: u8 = 31;

fn big_endian(octets: &[u8]) -> u64
    requires few { length octets.now ≤ 8 }
    ensures { result ≡ big_endian octets.now 0 (length octets.now) }
{
    let mut value: u64 = 0;
    for &octet in octets {
        value = value * 256 + octet as u64;
    }
    value
}

// How many octets of argument follow this additional information, and the least argument that needs it.
fn behind(info: u8) -> (usize, u64)
    ensures is { result ≡ (width info, least info) }
    ensures few { result.0 ≤ 8 }
{
    match info {
        ONE_OCTET => (1, 24),
        TWO_OCTETS => (2, 256),
        FOUR_OCTETS => (4, 65536),
        _ => (8, 4294967296),
    }
}

/// How many octets the head at the place has; `None` where no octet is left.
#[tactic(auto, unfolding(crate::specs::Heads::head_size))]
pub fn head_size_at(octets: &[u8], place: usize) -> Option<usize>
    ensures { result ≡ cond (nat_lt place (length octets.now)) (Some (head_size octets.now place)) None }
{
    let info = *octets.get(place)? % 32;
    Some(if info < ONE_OCTET {
        1
    } else {
        1 + behind(info).0
    })
}

impl<'a> Reader<'a> {
    pub(crate) fn at(octets: &'a [u8], place: usize) -> Reader<'a>
        requires { place ≤ length octets.now }
        ensures octets { result.octets.now ≡ octets.now }
        ensures place { result.place ≡ place }
    {
        Reader { octets, place }
    }

    pub(crate) fn place(&self) -> usize
        ensures is { result ≡ self.now.place }
        ensures within { result ≤ length self.now.octets.now }
    {
        self.place
    }

    pub(crate) fn octets(&self) -> &'a [u8]
        ensures { result.now ≡ self.now.octets.now }
    {
        self.octets
    }

    // The fault of a head that may not stand here, whatever it is.
    #[tactic(auto, unfolding(crate::specs::Heads::fault_at))]
    pub(crate) fn fault(&self) -> Fault
        ensures { result ≡ fault_at self.now.octets.now self.now.place }
    {
        if self
            .octets
            .get(self.place)
            .is_some_and(|first| *first % 32 == INDEFINITE)
        {
            Fault::Indefinite
        } else {
            Fault::Malformed
        }
    }

    // The next `count` octets. Moves the place past them.
    // Kept: each method that moves the place, from here on, says that the octets stay: no type says what a `&mut` leaves alone.
    #[tactic(auto, unfolding(crate::specs::Heads::skipped, crate::specs::Spans::shown))]
    fn take(&mut self, count: u64) -> Result<&'a [u8], Fault>
        ensures octets { self.new.octets.now ≡ self.old.octets.now }
        ensures taken { IfOk result (λ r. r.now ≡ part self.old.octets.now self.old.place count) }
        ensures moved { Moved result (skipped self.old.octets.now self.old.place count) self.new.place }
    {
        let span = Span {
            start: self.place,
            len: count as usize,
        };
        let taken = span.of(self.octets).ok_or(Fault::Malformed)?;
        self.place += span.len;
        Ok(taken)
    }

    // Moves the place past `count` octets of text.
    #[tactic(auto, unfolding(crate::specs::Heads::text_read, crate::specs::Heads::skipped))]
    pub(crate) fn text(&mut self, count: u64) -> Result<(), Fault>
        ensures octets { self.new.octets.now ≡ self.old.octets.now }
        ensures moved { Moved result (text_read self.old.octets.now self.old.place count) self.new.place }
    {
        if is_text(self.take(count)?) {
            Ok(())
        } else {
            Err(Fault::Malformed)
        }
    }

    // Moves the place on by `count` octets.
    pub(crate) fn skip(&mut self, count: u64) -> Result<(), Fault>
        ensures octets { self.new.octets.now ≡ self.old.octets.now }
        ensures moved { Moved result (skipped self.old.octets.now self.old.place count) self.new.place }
    {
        self.take(count)?;
        Ok(())
    }

    // Reads the head at the place, and moves the place past it.
    #[tactic(auto, unfolding(crate::specs::Heads::head_at, crate::specs::Heads::head_from, crate::specs::Heads::long_head, crate::specs::Heads::head_size, crate::specs::Heads::fault_at))]
    pub(crate) fn head(&mut self) -> Result<Head, Fault>
        ensures octets { self.new.octets.now ≡ self.old.octets.now }
        ensures is { said result ≡ head_at self.old.octets.now self.old.place }
        ensures moved { MatchResult result (λ _. self.new.place ≡ self.old.place + head_size self.old.octets.now self.old.place) (λ _. self.new.place ≡ self.old.place) }
    {
        if self.place == self.octets.len() {
            return Err(Fault::Malformed);
        }
        let first = self.octets[self.place];
        let major = Major::of(first);
        let info = first % 32;
        if info < ONE_OCTET {
            self.place += 1;
            return Ok(Head {
                major,
                argument: info as u64,
                shortest: true,
            });
        }
        if info >= RESERVED {
            return Err(self.fault());
        }
        let (count, least) = behind(info);
        if self.octets.len() - self.place - 1 < count {
            return Err(Fault::Malformed);
        }
        let start = self.place + 1;
        self.place = start + count;
        let argument = big_endian(&self.octets[start..self.place]);
        Ok(Head {
            major,
            argument,
            shortest: argument >= least,
        })
    }
}
