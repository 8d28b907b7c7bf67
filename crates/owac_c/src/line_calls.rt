// The line.
ghost use Rattle.std.specs.Prelude.{◌≡◌, length};
ghost use Rattle.line.specs.Burst.{writing, Output};
ghost use Rattle.line.specs.Fcs.{fcs_of};
ghost use Rattle.line.specs.Hearing.{hears, laid};
ghost use Rattle.owac_c.specs.Numbers.{heard_as, written_as};

use crate::answer::{HeardFrame, WrittenBurst};
use line::burst::write;
use line::check::fcs;
use line::frame::hear;

// The FCS of a message.
#[unsafe(no_mangle)]
pub extern "C" fn owac_fcs(message: &[u8]) -> u16
    ensures { result ≡ fcs_of message.now }
{
    fcs(message)
}

// Writes the burst of a message.
#[unsafe(no_mangle)]
pub extern "C" fn owac_write_burst(message: &[u8], burst: &mut [u8]) -> WrittenBurst
    ensures answer { result ≡ written_as (writing message.now (length burst.old)) }
    ensures output { Output message.now burst.old burst.new (writing message.now (length burst.old)) }
{
    write(message, burst).into()
}

// Hears the first frame at or after a place.
#[unsafe(no_mangle)]
pub extern "C" fn owac_hear_frame(
    burst: &[u8],
    count: usize,
    start: usize,
    work: &mut [u8],
) -> HeardFrame
    ensures answer { result ≡ heard_as (hears burst.now count start (length work.old)).answer }
    ensures work { work.new ≡ laid (length work.old) (hears burst.now count start (length work.old)).octets }
{
    hear(burst, count, start, work).into()
}
