// Tones and decoded bits of a burst.
ghost use Rattle.std.specs.Prelude.{◌≡◌, ◌+◌, ◌*◌, ◌<◌, ◌≤◌, length};
ghost use Rattle.line.specs.Bits.{tone as tone_at, tone_before, decoded};

use crate::bits::bit;

// Tone k: whether it is mark.
fn tone(octets: &[u8], k: usize) -> bool
    requires { k < 8 * length octets.now }
    ensures { result ≡ tone_at octets.now k }
{
    bit(octets[k / 8], k % 8)
}

// Decodes tones in their order. `last` is the tone in front of the next one: whether it is mark.
#[derive(Clone, Copy)]
pub struct Decoder {
    last: bool,
}

impl Decoder {
    // A decoder whose next tone is tone k. In front of tone 0 stands mark.
    #[tactic(auto, unfolding(crate::specs::Bits::tone_before))]
    pub(crate) fn at(octets: &[u8], k: usize) -> Decoder
        requires { k ≤ 8 * length octets.now }
        ensures { result.last ≡ tone_before octets.now k }
    {
        let last = k == 0 || tone(octets, k - 1);
        Decoder { last }
    }

    // Bit k: whether tone k repeats the tone in front of it.
    pub(crate) fn bit(&mut self, octets: &[u8], k: usize) -> bool
        requires within { k < 8 * length octets.now }
        requires follows { self.old.last ≡ tone_before octets.now k }
        ensures bit { result ≡ decoded octets.now k }
        ensures last { self.new.last ≡ tone_before octets.now (k + 1) }
    {
        let tone = tone(octets, k);
        let repeats = tone == self.last;
        self.last = tone;
        repeats
    }
}
