// The way through a burst, once, bit by bit.
ghost use Rattle.std.specs.Prelude.{◌≡◌, ℕ, ◌+◌, ◌-◌, ◌*◌, ◌<◌, ◌≤◌, true, length, drop};
ghost use Rattle.std.specs.Option.{option_map};
ghost use Rattle.line.specs.Bits.{bits_in};
ghost use Rattle.line.specs.Flags.{first_flag, past_flags};
ghost use Rattle.line.specs.Scanning.{Found, closed_as, flaw};

use crate::listener::{Listener, Sign};
use crate::packer::Packer;
use crate::tones::Decoder;
use answers::refusal::Refusal;

// The longest body of profile 1, in bits.
pub(crate) const LONGEST_BODY: usize = 132_000;

// A body that is right: so many octets, at the front of the work buffer, and the place of its closing flag.
#[derive(Clone, Copy)]
pub struct Body {
    pub(crate) octets: usize,
    pub(crate) place: usize,
}

// Why no frame is heard, and the place where to listen next.
#[derive(Clone, Copy)]
pub struct Flaw {
    pub(crate) refusal: Refusal,
    pub(crate) next: usize,
}

impl Flaw {
    pub(crate) fn new(refusal: Refusal, next: usize) -> Flaw
        ensures { result ≡ flaw refusal next }
    {
        Flaw { refusal, next }
    }
}

// The place behind the first flag at or after start.
// Kept: burst and count are two parameters, here and below. `hear` and `admit` are public and take them apart, with any count; a struct
// that holds its count to its burst could be made only behind `admit`, for these two functions alone.
pub(crate) fn first_flag_end(burst: &[u8], count: usize, start: usize) -> Option<usize>
    requires within { count ≤ 8 * length burst.now }
    requires order { start ≤ count }
    ensures { result ≡ option_map (λ k. k + 8) (first_flag start (drop start (bits_in burst.now count))) }
{
    let mut decoder = Decoder::at(burst, start);
    let mut listener = Listener::hunting();
    for k in start..count {
        if let Sign::Flag = listener.step(decoder.bit(burst, k)) {
            return Some(k + 1);
        }
    }
    None
}

// The body behind the opening flag, if there are bits behind it, from the place behind a flag on. Further flags that follow at
// once open it anew.
pub(crate) fn body_from(
    burst: &[u8],
    count: usize,
    first: usize,
    work: &mut [u8],
) -> Result<Option<Body>, Flaw>
    requires within { count ≤ 8 * length burst.now }
    requires order { first ≤ count }
    requires room { 16500 ≤ length work.old }
    ensures { (m : ℕ) → count ≤ first + 8 * m
        → Found (bits_in burst.now count) (past_flags m first (drop first (bits_in burst.now count))) work.new result }
{
    let mut from = first;
    let mut decoder = Decoder::at(burst, first);
    let mut listener = Listener::inside();
    let mut packer = Packer::new();
    for k in first..count {
        let bit = decoder.bit(burst, k);
        match listener.step(bit) {
            Sign::Flag => {
                if k > from + 7 {
                    return closed(listener, packer, k - 7).map(Some);
                }
                from = k + 1;
                listener = Listener::inside();
                packer = Packer::new();
            }
            sign => {
                if k - from >= LONGEST_BODY + 7 {
                    return Err(if k + 1 < count {
                        Flaw::new(Refusal::BurstTooLong, from + LONGEST_BODY)
                    } else {
                        Flaw::new(Refusal::Framing, count)
                    });
                }
                if let Sign::Bit = sign {
                    packer.push(work, bit);
                }
            }
        }
    }
    if from < count {
        return Err(Flaw::new(Refusal::Framing, count));
    }
    Ok(None)
}

// A body whose closing flag stands at a place; six bits of the flag came in behind it.
fn closed(listener: Listener, packer: Packer, place: usize) -> Result<Body, Flaw>
    ensures { result ≡ closed_as listener.broken packer.fill packer.octets place }
{
    if listener.is_broken() {
        return Err(Flaw::new(Refusal::Framing, place));
    }
    if packer.fill() != 6 {
        return Err(Flaw::new(Refusal::OctetAlign, place));
    }
    Ok(Body {
        octets: packer.octets(),
        place,
    })
}
