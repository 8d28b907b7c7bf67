// Reading a whole message.
ghost use Rattle.std.specs.Prelude.{◌≡◌};
ghost use Rattle.items.specs.Reading.{read_of};

use crate::item::Walker;
use crate::reader::Reader;
use crate::types::{Fault, Reading};

// The most containers around one another.
pub(crate) const DEPTH: u8 = 32;

/// Reads the octets as one item with nothing behind it.
#[tactic(auto, unfolding(crate::specs::Reading::read_of))]
pub fn read(octets: &[u8]) -> Result<Reading, Fault>
    ensures { result ≡ read_of octets.now }
{
    let mut walker = Walker::new(Reader::at(octets, 0));
    walker.item(DEPTH)?;
    if walker.reader().place() < octets.len() {
        return Err(Fault::Malformed);
    }
    Ok(Reading {
        deterministic: walker.deterministic(),
    })
}
