// The sizes of the strings of a message, met head by head from the left.
ghost use Rattle.std.specs.Prelude.{◌≡◌, ◌<◌, length};
ghost use Rattle.items.specs.Reading.{message_items};
ghost use Rattle.message.specs.Sizes.{up_to, next_head, strings_fit};

use items::types::{Major, Span};
use items::{ITEMS, bytes_at, head_size_at, text_at};

// The most octets that a byte string holds.
const BYTES_MOST: usize = 2048;

// The most octets that a text holds.
const TEXT_MOST: usize = 256;

// The place behind a string of at most so many octets.
fn up_to(most: usize, read: Option<(Span, usize)>) -> Option<usize>
    ensures { result ≡ up_to most read }
{
    read.filter(|(span, _)| span.len <= most)
        .map(|(_, behind)| behind)
}

// The place of the head behind this one, unless this is the head of a string that is too long.
#[tactic(auto, unfolding(crate::specs::Sizes::next_head))]
fn next_head(octets: &[u8], place: usize) -> Option<usize>
    requires { place < length octets.now }
    ensures { result ≡ next_head octets.now place }
{
    match Major::of(octets[place]) {
        Major::Bytes => up_to(BYTES_MOST, bytes_at(octets, place)),
        Major::Text => up_to(TEXT_MOST, text_at(octets, place)),
        _ => {
            let size = head_size_at(octets, place)?;
            (size <= octets.len() - place).then(|| place + size)
        }
    }
}

// Whether no string of the octets is too long.
#[tactic(auto, using(crate::proofs::Scans::fit_past, crate::proofs::Scans::fit_none, crate::proofs::Scans::fit_some, crate::proofs::Scans::fit_end))]
pub(crate) fn strings_fit(octets: &[u8]) -> bool
    ensures { result ≡ strings_fit message_items octets.now 0 }
{
    // Kept: each head says where the next one stands, and the definition bounds how many heads there are.
    let mut place = 0;
    for _head in 0..ITEMS {
        if place >= octets.len() {
            return true;
        }
        let Some(next) = next_head(octets, place) else {
            return false;
        };
        place = next;
    }
    true
}
