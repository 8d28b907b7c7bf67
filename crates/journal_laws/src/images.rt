// A journal in a lent image, which stays the lender's.
ghost use Rattle.std.specs.Prelude.{◌≡◌};
ghost use Rattle.journal_laws.specs.Images.{RaisedImage};

use journal::floor::Floor;
use journal::journal::Journal;
use marks::image::ImageCells;
use marks::mark::{CutLeaves, Mark, Pair, Raised};
use marks::power::Power;
use marks::store::Store;

// Hands the image back.
fn raise_on<'a>(
    image: &'a mut [u8],
    epoch: u64,
    charge: u64,
    leaves: CutLeaves,
    pair: Pair,
    new: Mark,
) -> (Raised, &'a mut [u8])
    ensures lender { result.1.ghost_name ≡ image.entry.ghost_name }
    ensures octets { RaisedImage epoch charge leaves pair new result.0 image.old result.1.now }
{
    let power = Power {
        on: true,
        charge,
        leaves,
    };
    let mut store = Floor::new(Journal::new(ImageCells::new(image, power)), epoch);
    let answer = store.raise(pair, new);
    (answer, store.into_store().into_cells().into_image())
}

// Raises a mark in a lent image, under a floor, with power on and so much charge.
pub fn raise_in(
    image: &mut [u8],
    epoch: u64,
    charge: u64,
    leaves: CutLeaves,
    pair: Pair,
    new: Mark,
) -> Raised
    ensures { RaisedImage epoch charge leaves pair new result image.old image.new }
{
    let (answer, _back) = raise_on(image, epoch, charge, leaves, pair, new);
    answer
}
