// The journal in an image.
ghost use Rattle.std.specs.Prelude.{◌≡◌};
ghost use Rattle.marks.specs.Octets.{cells_in};
ghost use Rattle.journal.specs.Journals.{mark_in};
ghost use Rattle.timings.specs.Numbers.{RaiseTold, found_as, hash_or, pair_of, mark_of};

use crate::answer::FoundMark;
use journal::journal::Journal;
use journal_laws::images::raise_in;
use marks::image::ImageCells;
use marks::mark::{CutLeaves, Mark, Pair, Position};
use marks::power::Power;
use marks::store::Store;

// Raises a pair's mark on a journal in the image, under a floor, with power on and so much charge; a cut tears the cell.
#[unsafe(no_mangle)]
pub extern "C" fn timing_raise(
    image: &mut [u8],
    floor: u64,
    charge: u64,
    sid: &[u8; 16],
    kid: &[u8; 16],
    epoch: u64,
    counter: u64,
    hash: &[u8; 32],
) -> u8
    ensures { RaiseTold result floor charge (pair_of sid.now kid.now) (mark_of epoch counter hash.now) image.old image.new }
{
    let pair = Pair {
        sid: *sid,
        kid: *kid,
    };
    let new = Mark {
        position: Position { epoch, counter },
        hash: *hash,
    };
    raise_in(image, floor, charge, CutLeaves::Torn, pair, new) as u8
}

// Hands the image back.
fn mark_on<'a>(image: &'a mut [u8], pair: Pair) -> (Option<Mark>, &'a mut [u8])
    ensures lender { result.1.ghost_name ≡ image.entry.ghost_name }
    ensures image { result.1.now ≡ image.old }
    ensures mark { result.0 ≡ mark_in (cells_in image.old) pair }
{
    let power = Power {
        on: true,
        charge: 0,
        leaves: CutLeaves::Torn,
    };
    let store = Journal::new(ImageCells::new(image, power));
    let found = store.mark(pair);
    (found, store.into_cells().into_image())
}

// The mark of a pair in the journal in the image; its hash goes to `hash`, which stays where there is no mark.
#[unsafe(no_mangle)]
pub extern "C" fn timing_mark(
    image: &mut [u8],
    sid: &[u8; 16],
    kid: &[u8; 16],
    hash: &mut [u8; 32],
) -> FoundMark
    ensures mark { result ≡ found_as (mark_in (cells_in image.old) (pair_of sid.now kid.now)) }
    ensures hash { hash.new ≡ hash_or hash.old (mark_in (cells_in image.old) (pair_of sid.now kid.now)) }
    ensures image { image.new ≡ image.old }
{
    let pair = Pair {
        sid: *sid,
        kid: *kid,
    };
    let (found, _back) = mark_on(image, pair);
    if let Some(mark) = found {
        let kept = mark.hash;
        *hash = kept;
    }
    FoundMark::from(found)
}
