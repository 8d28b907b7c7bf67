// Looking up a key in the map at a place. The place is put back on every way out.
ghost use Rattle.std.specs.Prelude.{◌≡◌, ◌≤◌, length, IfOk};
ghost use Rattle.items.specs.Lookup.{passed, entry_at, lookup_of};
ghost use Rattle.items.specs.Walks.{placed};
ghost use Rattle.std.specs.ControlFlow.{ForContinue};

use crate::item::Walker;
use crate::message::DEPTH;
use crate::reader::Reader;
use crate::types::{Fault, MAP_ENTRIES, Major};
use std::ops::ControlFlow;

// Puts the place back when it goes.
struct PlaceGuard<'p> {
    place: &'p mut usize,
    old: usize,
}

impl<'p> PlaceGuard<'p> {
    fn new(place: &'p mut usize) -> PlaceGuard<'p>
        ensures old { result.old ≡ place.old }
        ensures place { result.place.now ≡ place.old }
        ensures lent { result.place.ghost_name ≡ place.entry.ghost_name }
    {
        let old = *place;
        PlaceGuard { place, old }
    }
}

impl Drop for PlaceGuard<'_> {
    fn drop(self)
        ensures { self.exit.0.now ≡ self.entry.old }
    {
        *self.place = self.old;
        let PlaceGuard { place: _, old: _ } = self;
    }
}

// The reader behind the item at its place.
#[tactic(auto, unfolding(crate::specs::Lookup::passed))]
fn pass(reader: Reader<'_>) -> Result<Reader<'_>, Fault>
    ensures octets { IfOk result (λ r. r.octets.now ≡ reader.entry.octets.now) }
    ensures place { placed result ≡ passed reader.entry.octets.now reader.entry.place }
{
    let mut walker = Walker::new(reader);
    walker.item(DEPTH - 1)?;
    Ok(walker.reader())
}

// The entry at the reader's place. Breaks where the value of this key starts; else the next entry continues.
#[tactic(auto, unfolding(crate::specs::Lookup::entry_at))]
fn entry(reader: Reader<'_>, key: u64) -> Result<ControlFlow<usize, usize>, Fault>
    ensures is { result ≡ entry_at reader.entry.octets.now key reader.entry.place }
    ensures within { IfOk result (λ e. ForContinue e (λ place. place ≤ length reader.entry.octets.now)) }
{
    let mut ahead = reader;
    let head = ahead.head()?;
    if head.major == Major::Unsigned && head.argument == key {
        return Ok(ControlFlow::Break(ahead.place()));
    }
    Ok(ControlFlow::Continue(pass(pass(reader)?)?.place()))
}

/// Where the value of the first entry with this unsigned key starts, in the map at the place.
/// `None` where the map has no such key. Only the entries before the key are read.
#[tactic(auto, unfolding(crate::specs::Lookup::lookup_of, crate::specs::Heads::head_at))]
pub fn lookup(octets: &[u8], place: &mut usize, key: u64) -> Result<Option<usize>, Fault>
    ensures back { place.new ≡ place.old }
    ensures is { result ≡ lookup_of octets.now place.old key }
{
    if *place > octets.len() {
        return Err(Fault::Malformed);
    }
    let guard = PlaceGuard::new(place);
    let mut reader = Reader::at(octets, *guard.place);
    let head = reader.head()?;
    *guard.place = reader.place();
    if head.major != Major::Map {
        return Err(Fault::Malformed);
    }
    // Kept: the range is what the head announces; each entry says where the next one starts.
    for i in 0..head.argument {
        let reader = Reader::at(octets, *guard.place);
        if i == MAP_ENTRIES as u64 {
            return Err(reader.fault());
        }
        match entry(reader, key)? {
            ControlFlow::Break(at) => return Ok(Some(at)),
            ControlFlow::Continue(at) => *guard.place = at,
        }
    }
    Ok(None)
}
