// Reading one field at a place: what it is, and the place behind it. Only shortest heads are taken.
ghost use Rattle.std.specs.Prelude.{◌≡◌, ◌+◌, ◌≤◌, length, IfSome};
ghost use Rattle.items.specs.Majors.{number_of};
ghost use Rattle.items.specs.Fields.{argument_at, unsigned_at, negative_at, integer_at, map_head_at, key_at, string_at, bytes_at, text_at, map_at};

use crate::item::Walker;
use crate::message::DEPTH;
use crate::reader::Reader;
use crate::types::{Major, Span};
use text::is_text;

// The argument of a shortest head of this major type, and the place behind it.
// Kept: octets and a place, here and below: a public call takes any place, where a `Reader` has one within its octets; and
// these calls are passed by name, as what reads a value.
#[tactic(auto, unfolding(crate::specs::Fields::argument_at, crate::specs::Heads::head_at))]
fn argument_at(octets: &[u8], place: usize, major: Major) -> Option<(u64, usize)>
    ensures is { result ≡ argument_at (number_of major) octets.now place }
    ensures within { IfSome result (λ x. x.1 ≤ length octets.now) }
{
    if place > octets.len() {
        return None;
    }
    let mut reader = Reader::at(octets, place);
    let head = reader.head().ok()?;
    (head.major == major && head.shortest).then_some((head.argument, reader.place()))
}

/// The unsigned number at the place.
pub fn unsigned_at(octets: &[u8], place: usize) -> Option<(u64, usize)>
    ensures { result ≡ unsigned_at octets.now place }
{
    argument_at(octets, place, Major::Unsigned)
}

/// The negative number -1 - n at the place, given as n.
pub fn negative_at(octets: &[u8], place: usize) -> Option<(u64, usize)>
    ensures { result ≡ negative_at octets.now place }
{
    argument_at(octets, place, Major::Negative)
}

/// The integer at the place, from -2^63 to 2^63 - 1.
#[tactic(auto, unfolding(crate::specs::Fields::integer_at))]
pub fn integer_at(octets: &[u8], place: usize) -> Option<(i64, usize)>
    ensures { result ≡ integer_at octets.now place }
{
    if let Some((number, behind)) = unsigned_at(octets, place) {
        return Some((i64::try_from(number).ok()?, behind));
    }
    let (number, behind) = negative_at(octets, place)?;
    Some((-1 - i64::try_from(number).ok()?, behind))
}

/// How many entries the map at the place announces, and where they start.
pub fn map_head_at(octets: &[u8], place: usize) -> Option<(u64, usize)>
    ensures { result ≡ map_head_at octets.now place }
{
    argument_at(octets, place, Major::Map)
}

/// The place behind the key, if it is this unsigned number.
#[tactic(auto, unfolding(crate::specs::Fields::key_at))]
pub fn key_at(octets: &[u8], place: usize, key: u64) -> Option<usize>
    ensures { result ≡ key_at key octets.now place }
{
    let (number, behind) = unsigned_at(octets, place)?;
    (number == key).then_some(behind)
}

// What the string of this major type holds.
#[tactic(auto, unfolding(crate::specs::Fields::string_at, crate::specs::Spans::shown))]
fn string_at(octets: &[u8], place: usize, major: Major) -> Option<(Span, usize)>
    ensures is { result ≡ string_at (number_of major) octets.now place }
    ensures within { IfSome result (λ x. (x.0.start + x.0.len ≡ x.1) × (x.1 ≤ length octets.now)) }
{
    let (len, start) = argument_at(octets, place, major)?;
    let span = Span {
        start,
        len: len as usize,
    };
    span.of(octets)?;
    Some((span, start + span.len))
}

/// What the byte string at the place holds.
pub fn bytes_at(octets: &[u8], place: usize) -> Option<(Span, usize)>
    ensures { result ≡ bytes_at octets.now place }
{
    string_at(octets, place, Major::Bytes)
}

/// What the text string at the place holds, which is UTF-8.
#[tactic(auto, unfolding(crate::specs::Fields::text_at, crate::specs::Spans::shown))]
pub fn text_at(octets: &[u8], place: usize) -> Option<(Span, usize)>
    ensures { result ≡ text_at octets.now place }
{
    let (span, behind) = string_at(octets, place, Major::Text)?;
    is_text(span.of(octets)?).then_some((span, behind))
}

/// The whole map at the place, of anything, deterministic and within the limits of a message.
#[tactic(auto, unfolding(crate::specs::Fields::map_at))]
pub fn map_at(octets: &[u8], place: usize) -> Option<(Span, usize)>
    ensures { result ≡ map_at octets.now place }
{
    map_head_at(octets, place)?;
    let mut walker = Walker::new(Reader::at(octets, place));
    walker.item(DEPTH).ok()?;
    let behind = walker.reader().place();
    let span = Span {
        start: place,
        len: behind - place,
    };
    walker.deterministic().then_some((span, behind))
}
