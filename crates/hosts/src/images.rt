// A receiver over a journal in an image that a host lends.
ghost use Rattle.std.specs.Prelude.{◌≡◌, length};
ghost use Rattle.line.specs.Hearing.{laid};
ghost use Rattle.judging.specs.Inputs.{inputs_of};
ghost use Rattle.judging.specs.Frames.{message_heard};
ghost use Rattle.judging.specs.Effects.{left_at};
ghost use Rattle.receiver.specs.Frames.{SentIf};
ghost use Rattle.hosts.specs.Images.{image_state, ListenedIn, switched_on, SwitchingGoesOn};

use crate::floors::{listen_under, mark_under};
use crate::supply::Supply;
use journal::journal::Journal;
use judging::answer::{Answer, Lent};
use marks::cells::Cells;
use marks::image::ImageCells;
use marks::mark::{Mark, Pair};
use marks::power::Power;
use marks::store::Store;
use verdicts::Verifier;

// Hands the image back.
// Kept: tried with the body in the call that lends the image, here and below: nothing then tells a proof that the image holds what
// `into_image` hands back.
fn listen_on<'a, V: Verifier>(
    image: &'a mut [u8],
    supply: Supply,
    lent: &Lent<'_, V>,
    work: &mut [u8],
) -> (Answer, Supply, &'a mut [u8])
    ensures lender { result.2.ghost_name ≡ image.entry.ghost_name }
    ensures heard { ListenedIn (inputs_of V.known V.good lent.now (length work.old)) image.old supply result.0 result.2.now result.1 }
    ensures work { work.new ≡ laid (length work.old) (left_at result.0.verdict (message_heard (inputs_of V.known V.good lent.now (length work.old)))) }
    ensures sent { SentIf (inputs_of V.known V.good lent.now (length work.old)) result.0.verdict result.0.next }
{
    let cells = ImageCells::new(image, supply.power);
    let journal = Journal::resume(cells, supply.last);
    let (answer, journal) = listen_under(journal, supply.floor, lent, work);
    let last = journal.written_last();
    let cells = journal.into_cells();
    let power = Power {
        on: cells.is_on(),
        charge: cells.charge(),
        ..supply.power
    };
    let left = Supply {
        power,
        last,
        ..supply
    };
    (answer, left, cells.into_image())
}

/// Listens over a journal in the image. Image and supply change only at a release or a cut write, the image in one cell at most.
pub fn listen_in<V: Verifier>(
    image: &mut [u8],
    supply: &mut Supply,
    lent: &Lent<'_, V>,
    work: &mut [u8],
) -> Answer
    ensures heard { ListenedIn (inputs_of V.known V.good lent.now (length work.old)) image.old supply.old result image.new supply.new }
    ensures work { work.new ≡ laid (length work.old) (left_at result.verdict (message_heard (inputs_of V.known V.good lent.now (length work.old)))) }
    ensures sent { SentIf (inputs_of V.known V.good lent.now (length work.old)) result.verdict result.next }
{
    let (answer, left, _back) = listen_on(image, *supply, lent, work);
    *supply = left;
    answer
}

/// Switches an image on for n whole writes: power and charge are set, the journal begins at cell 0 again, and all else stays.
pub fn switch_on(supply: &mut Supply, n: u64)
    ensures supply { supply.new ≡ switched_on supply.old n }
    ensures lawful { SwitchingGoesOn }
{
    supply.power.on = true;
    supply.power.charge = n;
    supply.last = None;
}

// Hands the image back.
fn mark_on<'a>(image: &'a mut [u8], supply: Supply, pair: Pair) -> (Option<Mark>, &'a mut [u8])
    ensures lender { result.1.ghost_name ≡ image.entry.ghost_name }
    ensures image { result.1.now ≡ image.old }
    ensures mark { result.0 ≡ (image_state image.old supply).mark pair }
{
    let cells = ImageCells::new(image, supply.power);
    let (mark, journal) = mark_under(Journal::resume(cells, supply.last), supply.floor, pair);
    (mark, journal.into_cells().into_image())
}

/// A pair's mark in the journal in the image, which stays as it is.
pub fn mark_in(image: &mut [u8], supply: &Supply, pair: Pair) -> Option<Mark>
    ensures mark { result ≡ (image_state image.old supply.now).mark pair }
    ensures image { image.new ≡ image.old }
{
    let (mark, _back) = mark_on(image, *supply, pair);
    mark
}
