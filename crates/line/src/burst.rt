// A message as a burst.
ghost use Rattle.std.specs.Prelude.{◌≡◌, ℕ, ◌+◌, ◌*◌, ◌≤◌, ◌++◌, length};
ghost use Rattle.line.specs.Bits.{bits_of};
ghost use Rattle.line.specs.Stuffing.{stuffed};
ghost use Rattle.line.specs.Burst.{flagged, writing, Output, Written};

use crate::check::fcs;
use crate::counter::Counter;
use crate::sender::Sender;
use crate::sink::Sink;
use crate::writer::ToneWriter;
use answers::refusal::Refusal;

// The longest message, in octets.
pub const LONGEST_MESSAGE: usize = 12_288;

// The flags in front of a body.
const FLAGS: usize = 33;

// Writes the burst of a message, and answers the number of its tones.
pub fn write(message: &[u8], out: &mut [u8]) -> Result<usize, Refusal>
    ensures answer { result ≡ writing message.now (length out.old) }
    ensures output { Output message.now out.old out.new result }
{
    if message.len() > LONGEST_MESSAGE {
        return Err(Refusal::MessageTooLong);
    }
    let tail = fcs(message).to_le_bytes();
    let count = frame_length(message, &tail);
    if count.div_ceil(8) > out.len() {
        return Err(Refusal::OutputTooShort);
    }
    let _written = send(message, &tail, out);
    Ok(count)
}

// Puts flags, message, FCS and flag into a sink.
fn framed<S: Sink>(sink: S, message: &[u8], tail: &[u8]) -> S
    ensures { S.takes sink (flagged (stuffed (bits_of (message.now ++ tail.now)))) result }
{
    let mut sender = Sender::new(sink);
    sender.put_flags(FLAGS);
    sender.put_octets(message);
    sender.put_octets(tail);
    sender.put_flag();
    sender.into_sink()
}

// How many tones a message and its FCS take.
fn frame_length(message: &[u8], tail: &[u8]) -> usize
    requires { length message.now + length tail.now ≤ 16384 }
    ensures { result ≡ length (flagged (stuffed (bits_of (message.now ++ tail.now)))) }
{
    framed(Counter::new(), message, tail).bits()
}

// Writes them, where there is room, and hands the octets back.
fn send<'a>(message: &[u8], tail: &[u8], out: &'a mut [u8]) -> &'a mut [u8]
    ensures lender { result.ghost_name ≡ out.entry.ghost_name }
    ensures written { length (flagged (stuffed (bits_of (message.now ++ tail.now)))) ≤ 8 * length out.old
        → Written (flagged (stuffed (bits_of (message.now ++ tail.now)))) out.old result.now }
{
    let mut writer = framed(ToneWriter::new(out), message, tail);
    writer.finish();
    writer.into_octets()
}
