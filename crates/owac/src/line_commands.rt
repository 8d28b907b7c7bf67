// Commands on the line: the frame check sequence, the burst writer, hearing.
ghost use Rattle.std.specs.Prelude.{◌≡◌, ℕ, ◌<◌, length, Decides, slice_index};

use crate::arguments::Arguments;
use crate::unreadable::Unreadable;
use line::heard::{Heard, Hearing};
use line::{burst, check, frame};
use std::fmt;
use words::hex::Hex;

// What lies in a buffer before a call.
const FILLING: u8 = 0xA5;

// The octets of the FCS behind a message.
const FCS_OCTETS: usize = 2;

// The most octets that a listening is given to work in; more would be of no use to it.
pub const WORK_MOST: usize = 0x10_0000;

// Room for every burst: twice the octets of the longest message, and the flags.
pub const BURST_MOST: usize = 2 * burst::LONGEST_MESSAGE + 64;

// Whether all octets are the same, as given.
fn is_filled(octets: &[u8], with: u8) -> bool
    ensures { Decides result ((k : ℕ) → k < length octets.now → slice_index octets.now k ≡ with) }
{
    octets.iter().all(|octet| *octet == with)
}

// What was heard, and the work buffer with the frame.
#[derive(Clone, Copy)]
pub struct Reception<'a> {
    pub heard: Heard,
    pub work: &'a [u8],
}

impl<'a> Reception<'a> {
    // The first frame at or after a place.
    pub fn new(burst: &[u8], count: usize, start: usize, work: &'a mut [u8]) -> Reception<'a> {
        let heard = frame::hear(burst, count, start, work);
        Reception { heard, work }
    }

    // The message of the frame, without its FCS.
    pub fn message(self) -> Option<&'a [u8]> {
        match self.heard.hearing {
            Hearing::Frame(length) => self.work.get(..length.saturating_sub(FCS_OCTETS)),
            Hearing::Quiet | Hearing::Refused(_) => None,
        }
    }
}

// `fcs HEX`
pub fn fcs(words: &mut Arguments<'_>) -> Result<String, Unreadable> {
    let message = words.octets()?;
    words.end()?;
    let fcs = check::fcs(message.as_slice());
    Ok(format!(in words.heap(); "fcs {fcs:04X}")?)
}

// `write HEX room=N`: the burst, and whether the buffer behind it is as found.
pub fn write(words: &mut Arguments<'_>) -> Result<String, Unreadable> {
    let message = words.octets()?;
    let room = words.size_option("room")?;
    words.end()?;
    let heap = words.heap();
    let mut out = Vec::from_elem(heap, FILLING, room)?;
    let text = match burst::write(message.as_slice(), out.as_mut_slice()) {
        Ok(count) => {
            let (octets, rest) = out.as_slice().split_at(count.div_ceil(8).min(room));
            let octets = Hex(octets);
            let rest = untouched(rest);
            format!(in heap; "burst {octets} count={count} rest={rest}")?
        }
        Err(refusal) => {
            let number = refusal.number();
            let rest = untouched(out.as_slice());
            format!(in heap; "refused {number} rest={rest}")?
        }
    };
    Ok(text)
}

// Whether octets are as they lay in the buffer before the call, in a word.
fn untouched(octets: &[u8]) -> &'static str {
    if is_filled(octets, FILLING) {
        "ok"
    } else {
        "touched"
    }
}

// `hear HEX count=N start=N work=N`: what is heard, and whether the work buffer is zeros but for the frame.
pub fn hear(words: &mut Arguments<'_>) -> Result<String, Unreadable> {
    let burst = words.octets()?;
    let count = words.size_option("count")?;
    let start = words.size_option("start")?;
    let length = words.size_option("work")?;
    words.end()?;
    let heap = words.heap();
    let mut work = Vec::from_elem(heap, FILLING, length)?;
    let reception = Reception::new(burst.as_slice(), count, start, work.as_mut_slice());
    Ok(format!(in heap; "{reception}")?)
}

// As a line, which tells too whether the work buffer holds zeros behind the frame.
impl fmt::Display for Reception<'_> {
    fn fmt<W: fmt::Write>(&self, f: &mut fmt::Formatter<W>) -> fmt::Result {
        let next = self.heard.next;
        let length = match self.heard.hearing {
            Hearing::Frame(length) => length.min(self.work.len()),
            Hearing::Quiet | Hearing::Refused(_) => 0,
        };
        let (octets, rest) = self.work.split_at(length);
        let rest = if is_filled(rest, 0) { "clean" } else { "dirty" };
        match self.heard.hearing {
            Hearing::Quiet => write!(f, "quiet next={next} work={rest}"),
            Hearing::Refused(refusal) => {
                let number = refusal.number();
                write!(f, "refused {number} next={next} work={rest}")
            }
            Hearing::Frame(_) => {
                let octets = Hex(octets);
                write!(
                    f,
                    "frame next={next} length={length} octets={octets} work={rest}"
                )
            }
        }
    }
}
