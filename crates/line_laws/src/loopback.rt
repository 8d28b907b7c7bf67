// A message on its way out and back.
ghost use Rattle.std.specs.Prelude.{◌≡◌, length};
ghost use Rattle.line.specs.Burst.{writing, Output};
ghost use Rattle.line.specs.Hearing.{hears, laid};
ghost use Rattle.line_laws.specs.Passing.{PassedIsSent, FlagsTold, StuffingTold, CheckTold};
ghost use Rattle.line_laws.specs.Returning.{SentIsHeard, Loops};

use answers::refusal::Refusal;
use line::burst::write;
use line::frame::hear;
use line::heard::Heard;

// Writes a message as a burst, and hears that burst from place 0. Where the writer refuses, nothing is heard, and both buffers
// are as they were. What hearing rests on is said with it: which flags open and close a body, that stuffing comes out in one way
// only, and that the residue tells an FCS and nothing else.
pub fn loopback(message: &[u8], burst: &mut [u8], work: &mut [u8]) -> Result<Heard, Refusal>
    ensures loops { Loops message.now burst.old burst.new work.old work.new result }
    ensures heard { SentIsHeard }
    ensures passed { PassedIsSent }
    ensures flags { FlagsTold }
    ensures stuffing { StuffingTold }
    ensures residue { CheckTold }
{
    let count = write(message, burst)?;
    Ok(hear(burst, count, 0, work))
}
