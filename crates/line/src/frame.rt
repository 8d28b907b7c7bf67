// Hearing a frame.
ghost use Rattle.std.specs.Prelude.{◌≡◌, ℕ, ◌+◌, ◌*◌, ◌≤◌, length};
ghost use Rattle.line.specs.Hearing.{admission, hears, checked, laid};
ghost use Rattle.line.specs.Scanning.{Reached};

use crate::check::register;
use crate::heard::{Heard, Hearing};
use crate::scan::{Body, Flaw, LONGEST_BODY, body_from, first_flag_end};
use answers::refusal::Refusal;

// The work buffer that the longest body needs, in octets.
pub const WORK_OCTETS: usize = LONGEST_BODY / 8;

// The register over a message and its FCS.
const RESIDUE: u16 = 0xF0B8;

// The first two questions: is the work buffer long enough, and do start and count lie in the burst?
pub fn admit(burst: &[u8], count: usize, start: usize, work: &[u8]) -> Result<(), Refusal>
    ensures { result ≡ admission (length burst.now) count start (length work.now) }
{
    if work.len() < WORK_OCTETS {
        return Err(Refusal::WorkTooShort);
    }
    if start > count || count as u128 > 8 * burst.len() as u128 {
        return Err(Refusal::OutOfBounds);
    }
    Ok(())
}

// Hears the first frame of a burst of `count` tones at or after `start`. After a frame the work buffer holds its octets and
// then zeros; after any other answer it holds zeros.
pub fn hear(burst: &[u8], count: usize, start: usize, work: &mut [u8]) -> Heard
    ensures answer { result ≡ (hears burst.now count start (length work.old)).answer }
    ensures work { work.new ≡ laid (length work.old) (hears burst.now count start (length work.old)).octets }
{
    match frame_from(burst, count, start, work) {
        Ok(Some(Body { octets, place })) => {
            work[octets..].fill(0);
            Heard {
                hearing: Hearing::Frame(octets),
                next: place,
            }
        }
        Ok(None) => {
            work.fill(0);
            Heard {
                hearing: Hearing::Quiet,
                next: count,
            }
        }
        Err(Flaw { refusal, next }) => {
            work.fill(0);
            Heard {
                hearing: Hearing::Refused(refusal),
                next,
            }
        }
    }
}

// The frame, if one begins; the work buffer behind it is not cleared yet.
fn frame_from(
    burst: &[u8],
    count: usize,
    start: usize,
    work: &mut [u8],
) -> Result<Option<Body>, Flaw>
    ensures { Reached (hears burst.now count start (length work.old)) count work.new result }
{
    admit(burst, count, start, work).map_err(|refusal| Flaw::new(refusal, start))?;
    // A receiver asks here whether its store is on.
    let Some(first) = first_flag_end(burst, count, start) else {
        return Ok(None);
    };
    let Some(body) = body_from(burst, count, first, work)? else {
        return Ok(None);
    };
    if !has_fcs(&work[..body.octets]) {
        return Err(Flaw::new(Refusal::FcsFail, body.place));
    }
    Ok(Some(body))
}

// Whether octets end with the FCS of those before them.
fn has_fcs(octets: &[u8]) -> bool
    ensures { result ≡ checked octets.now }
{
    octets.len() >= 2 && register(octets) == RESIDUE
}
