// Calls of the reader that also say what their answers mean for the trees that the octets encode.
ghost use Rattle.std.specs.Prelude.{◌≡◌};
ghost use Rattle.items.specs.Reading.{read_of};
ghost use Rattle.items_laws.specs.Laws.{PassesExactly, FindsValue, ValuesCanonical};
ghost use Rattle.items.specs.Lookup.{lookup_of};
ghost use Rattle.items_laws.specs.Exact.{HeadExact, KeyExact, UnsignedExact, NegativeExact, IntegerExact, BytesExact, TextExact, MapExact};

use items::types::{Fault, Reading};
use items::{lookup, read};

/// Reads a message: it passes, deterministic, exactly when the octets are the encoding of a tree within the limits with ascending keys, and of one only.
pub fn read_item(octets: &[u8]) -> Result<Reading, Fault>
    ensures is { result ≡ read_of octets.now }
    ensures exactly { PassesExactly octets.now result }
{
    read(octets)
}

/// Looks up a key: where the map at the place is the encoding of a tree that a message may be, the answer is where the key's value is encoded.
pub fn value_at(octets: &[u8], place: &mut usize, key: u64) -> Result<Option<usize>, Fault>
    ensures back { place.new ≡ place.old }
    ensures is { result ≡ lookup_of octets.now place.old key }
    ensures finds { FindsValue octets.now place.old key result }
    ensures inner { ValuesCanonical }
{
    lookup(octets, place, key)
}

/// The readers of fields answer exactly where an encoding stands. Returns 0.
pub fn fields_are_exact() -> u8
    ensures zero { result ≡ 0 }
    ensures heads { HeadExact }
    ensures keys { KeyExact }
    ensures unsigned { UnsignedExact }
    ensures negative { NegativeExact }
    ensures integers { IntegerExact }
    ensures bytes { BytesExact }
    ensures text { TextExact }
    ensures maps { MapExact }
{
    0u8
}
