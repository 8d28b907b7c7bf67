// What a burst is judged by, and what is answered.
ghost use Rattle.std.specs.Prelude.{◌≡◌, ⊤};

use answers::refusal::Refusal;
use commands::types::Command;
use marks::mark::{Mark, Pair};
use std::alloc::AllocError;

/// How a burst is listened to: so many of its tones, from this one on, at this clock reading in Unix seconds, and whether
/// the demodulator doubts it.
// Kept: tones lie eight to an octet, so their count stands beside the octets, and the rules refuse one that does not fit.
#[derive(Clone, Copy)]
pub struct Listening {
    pub count: usize,
    pub start: usize,
    pub clock: u64,
    pub suspect: bool,
}

/// What a listening is lent besides the work buffer: who says that a signature is good, the burst and how it is listened to, and
/// the track numbers on the list.
#[derive(Drop)]
pub struct Lent<'a, V> {
    pub verifier: &'a V,
    pub burst: &'a [u8],
    pub listening: Listening,
    pub catalog: &'a [u64],
}

impl<'a, V> Copy for Lent<'a, V> {}

impl<'a, V> Clone for Lent<'a, V> {
    ghost is_clone = { λ x y. y ≡ x };

    ghost is_infallible = { λ _. ⊤ };

    fn clone(&self) -> Result<Self, AllocError> {
        Ok(*self)
    }
}

/// What is released: a command, with the pair, position and transcript hash of its message, and the message's octets counted.
#[derive(Clone, Copy)]
pub struct Release {
    pub pair: Pair,
    pub mark: Mark,
    pub length: usize,
    pub command: Command,
}

// Kept: the rules list these four answers by name.
#[derive(Clone, Copy)]
pub enum Verdict {
    /// No frame begins here.
    Quiet,
    /// The very message that set its pair's mark.
    Duplicate,
    Refused(Refusal),
    Released(Release),
}

/// The verdict, and the place where to listen next.
#[derive(Clone, Copy)]
pub struct Answer {
    pub verdict: Verdict,
    pub next: usize,
}
