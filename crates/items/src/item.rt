// Reading an item, and what a container holds: the two call each other, the remaining depth falling.
ghost use Rattle.std.specs.Prelude.{◌≡◌, []};
ghost use Rattle.items.specs.Reading.{item_of, items_of, entries_of, start_at, array_items, map_entries};
ghost use Rattle.items.specs.Walks.{walk, Told};

use crate::reader::Reader;
use crate::types::{Fault, Keys, MAP_ENTRIES, Major};

/// The most items of a message, keys and containers counted.
pub const ITEMS: u16 = 1024;

// The most items of an array.
const ARRAY_ITEMS: u64 = 256;

// The simple values that are taken.
const FALSE: u64 = 20;

const NULL: u64 = 22;

/// A reader, and what the heads that it read leave.
#[derive(Clone, Copy)]
pub struct Walker<'a> {
    reader: Reader<'a>,
    // How many more items may be read.
    left: u16,
    // Every head was the shortest, and the keys of every map ascended.
    deterministic: bool,
}

impl<'a> Walker<'a> {
    pub(crate) fn new(reader: Reader<'a>) -> Walker<'a>
        ensures reader { result.reader ≡ reader.entry }
        ensures start { walk result ≡ start_at reader.entry.place }
    {
        Walker {
            reader,
            left: ITEMS,
            deterministic: true,
        }
    }

    // The reader behind what was read.
    pub(crate) fn reader(&self) -> Reader<'a>
        ensures { result ≡ self.now.reader }
    {
        self.reader
    }

    pub(crate) fn deterministic(&self) -> bool
        ensures { result ≡ self.now.deterministic }
    {
        self.deterministic
    }

    // Reads one item, inside which `depth` containers may lie around one another.
    #[tactic(auto, unfolding(crate::specs::Reading::item_of, crate::specs::Reading::item_with, crate::specs::Reading::body_of, crate::specs::Reading::inside))]
    #[cycle(array_items_item_map_entries)]
    pub(crate) fn item(&mut self, depth: u8) -> Result<(), Fault>
        ensures octets { self.new.reader.octets.now ≡ self.old.reader.octets.now }
        ensures is { Told result (item_of depth self.old.reader.octets.now (walk self.old)) (walk self.new) }
    {
        if self.left == 0 {
            return Err(self.reader.fault());
        }
        self.left -= 1;
        let head = self.reader.head()?;
        self.deterministic &= head.shortest;
        let inner = depth.checked_sub(1).ok_or(Fault::Malformed);
        match head.major {
            Major::Unsigned | Major::Negative => Ok(()),
            Major::Bytes => self.reader.skip(head.argument),
            Major::Text => self.reader.text(head.argument),
            Major::Array => self.array_items(inner?, head.argument),
            Major::Map => self.map_entries(inner?, head.argument),
            Major::Simple if head.shortest && matches!(head.argument, FALSE..=NULL) => Ok(()),
            Major::Tag | Major::Simple => Err(Fault::Malformed),
        }
    }

    // Reads the items of an array that announces `count`.
    #[cycle(array_items_item_map_entries)]
    fn array_items(&mut self, depth: u8, count: u64) -> Result<(), Fault>
        ensures octets { self.new.reader.octets.now ≡ self.old.reader.octets.now }
        ensures is { Told result (items_of (item_of depth self.old.reader.octets.now) self.old.reader.octets.now count array_items (walk self.old)) (walk self.new) }
    {
        // Kept: the range is what the head announces, here and below; nothing is taken by its number.
        for i in 0..count {
            if i == ARRAY_ITEMS {
                return Err(self.reader.fault());
            }
            self.item(depth)?;
        }
        Ok(())
    }

    // Reads the entries of a map that announces `count`.
    #[cycle(array_items_item_map_entries)]
    fn map_entries(&mut self, depth: u8, count: u64) -> Result<(), Fault>
        ensures octets { self.new.reader.octets.now ≡ self.old.reader.octets.now }
        ensures is { Told result (entries_of (item_of depth self.old.reader.octets.now) self.old.reader.octets.now count map_entries [] (walk self.old)) (walk self.new) }
    {
        let mut keys = Keys::new(self.reader.octets());
        for i in 0..count {
            if i == MAP_ENTRIES as u64 {
                return Err(self.reader.fault());
            }
            let start = self.reader.place();
            self.item(depth)?;
            self.deterministic &= keys.add(start, self.reader.place())?;
            self.item(depth)?;
        }
        Ok(())
    }
}
