// The receiver.
ghost use Rattle.std.specs.Prelude.{◌≡◌, length};
ghost use Rattle.verdicts.specs.Verdicts.{is_pinned, is_vouched};
ghost use Rattle.verdicts.specs.Tags.{is_listed, is_tagged};
ghost use Rattle.judging.specs.Inputs.{inputs_by, inputs_of};
ghost use Rattle.hosts.specs.Images.{image_state};
ghost use Rattle.owac_c.specs.Supplies.{supply_in, listening_in};
ghost use Rattle.owac_c.specs.Answers.{pair_in, mark_as, found_as};
ghost use Rattle.owac_c.specs.Calls.{Heard, Switched, text_in, TextsAreTold, placed};

use crate::answer::{OwacAnswer, OwacCommand};
use crate::host::{OwacListening, OwacMark, OwacPair, OwacSupply};
use crate::numbers::text_command;
use commands::text;
use hosts::images::{listen_in, mark_in, switch_on};
use hosts::supply::Supply;
use judging::answer::Lent;
use verdicts::{TagSheet, VerdictSheet, Verifier};

// Listens by any verifier.
fn listen_by<V: Verifier>(
    image: &mut [u8],
    supply: &mut OwacSupply,
    lent: &Lent<'_, V>,
    work: &mut [u8],
) -> OwacAnswer
    ensures { Heard (inputs_of V.known V.good lent.now (length work.old)) image.old supply.old result image.new supply.new work.new }
{
    let mut kept = Supply::from(&*supply);
    let heard = listen_in(image, &mut kept, lent, work);
    *supply = kept.into();
    heard.into()
}

// Listens by a verdict sheet.
// Kept: C knows no generics, so each kind of sheet has a call of its own.
#[unsafe(no_mangle)]
pub extern "C" fn owac_listen_by_verdicts(
    image: &mut [u8],
    supply: &mut OwacSupply,
    sheet: &[u8],
    burst: &[u8],
    listening: &OwacListening,
    catalog: &[u64],
    work: &mut [u8],
    answer: &mut OwacAnswer,
)
    ensures { Heard (inputs_by is_pinned is_vouched sheet.now burst.now (listening_in listening.now) catalog.now (length work.old)) image.old supply.old answer.new image.new supply.new work.new }
{
    let lent = Lent {
        verifier: &VerdictSheet::new(sheet),
        burst,
        listening: listening.into(),
        catalog,
    };
    *answer = listen_by(image, supply, &lent, work);
}

// Listens by a tag sheet.
#[unsafe(no_mangle)]
pub extern "C" fn owac_listen_by_tags(
    image: &mut [u8],
    supply: &mut OwacSupply,
    sheet: &[u8],
    burst: &[u8],
    listening: &OwacListening,
    catalog: &[u64],
    work: &mut [u8],
    answer: &mut OwacAnswer,
)
    ensures { Heard (inputs_by is_listed is_tagged sheet.now burst.now (listening_in listening.now) catalog.now (length work.old)) image.old supply.old answer.new image.new supply.new work.new }
{
    let lent = Lent {
        verifier: &TagSheet::new(sheet),
        burst,
        listening: listening.into(),
        catalog,
    };
    *answer = listen_by(image, supply, &lent, work);
}

// Switches power on for so many whole writes.
#[unsafe(no_mangle)]
pub extern "C" fn owac_switch_on(supply: &mut OwacSupply, writes: u64)
    ensures { Switched supply.old writes supply.new }
{
    let mut kept = Supply::from(&*supply);
    switch_on(&mut kept, writes);
    *supply = kept.into();
}

// Reads a pair's mark: 1, or 0 where it has none. The image stays as it is.
#[unsafe(no_mangle)]
pub extern "C" fn owac_mark(
    image: &mut [u8],
    supply: &OwacSupply,
    pair: &OwacPair,
    mark: &mut OwacMark,
) -> u8
    ensures found { result ≡ found_as ((image_state image.old (supply_in supply.now)).mark (pair_in pair.now)) }
    ensures mark { mark.new ≡ mark_as ((image_state image.old (supply_in supply.now)).mark (pair_in pair.now)) }
    ensures image { image.new ≡ image.old }
{
    let found = mark_in(image, &supply.into(), pair.into());
    *mark = found.into();
    u8::from(found.is_some())
}

// Copies the octets to the front of a buffer that has room for them.
fn place(octets: &[u8], out: &mut [u8])
    ensures { out.new ≡ placed octets.now out.old }
{
    let length = octets.len();
    if length <= out.len() {
        out[0..length].copy_from_slice(octets);
    }
}

// Copies the text of a released command out of the work buffer if it fits, and tells how many octets it has.
#[unsafe(no_mangle)]
pub extern "C" fn owac_text(work: &[u8], command: &OwacCommand, out: &mut [u8]) -> usize
    ensures length { result ≡ length (text_in work.now command.now) }
    ensures out { out.new ≡ placed (text_in work.now command.now) out.old }
    ensures told { TextsAreTold }
{
    let found = text(work, &text_command(command));
    place(found, out);
    found.len()
}
