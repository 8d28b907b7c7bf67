// Writes bits as tones.
ghost use Rattle.std.specs.Prelude.{◌≡◌, ◌*◌, ◌≤◌, true, ◌++◌, length, take, drop, replicate};
ghost use Rattle.line.specs.Bits.{bits_of};
ghost use Rattle.line.specs.Burst.{octet_count, filling};
ghost use Rattle.line.specs.Sending.{count, sent, Sends};
ghost use Rattle.line.specs.Sinks.{sends-none, sends-more};

use crate::packer::Packer;
use crate::sink::Sink;

// Lent octets, how far they are filled with tones, and the last tone. Bits for which they have no room are let go.
#[derive(Drop)]
pub struct ToneWriter<'a> {
    out: &'a mut [u8],
    packer: Packer,
    tone: bool,
}

impl<'a> ToneWriter<'a> {
    pub(crate) fn new(out: &'a mut [u8]) -> ToneWriter<'a>
        ensures out { result.out.now ≡ out.old }
        ensures lender { result.out.ghost_name ≡ out.entry.ghost_name }
        ensures tone { result.tone ≡ true }
        ensures empty { (result.packer.octets ≡ 0) × (result.packer.fill ≡ 0) × (result.packer.part ≡ 0) }
    {
        ToneWriter {
            out,
            packer: Packer::new(),
            tone: true,
        }
    }

    // Repeats the last tone to the octet's end.
    pub(crate) fn finish(&mut self)
        ensures lender { self.new.out.ghost_name ≡ self.old.out.ghost_name }
        ensures wrote { count self.old ≤ 8 * length self.old.out.now
            → bits_of (take (octet_count (count self.old)) self.new.out.now)
            ≡ sent self.old ++ replicate (filling (count self.old)) self.old.tone }
        ensures behind { count self.old ≤ 8 * length self.old.out.now
            → drop (octet_count (count self.old)) self.new.out.now ≡ drop (octet_count (count self.old)) self.old.out.now }
    {
        while self.packer.fill() > 0 {
            self.packer.push(self.out, self.tone);
        }
    }

    // The octets back.
    pub(crate) fn into_octets(self) -> &'a mut [u8]
        ensures octets { result.now ≡ self.entry.out.now }
        ensures lender { result.ghost_name ≡ self.entry.out.ghost_name }
    {
        let ToneWriter {
            out,
            packer: _,
            tone: _,
        } = self;
        out
    }
}

impl Sink for ToneWriter<'_> {
    ghost takes = { Sends };

    fn put(&mut self, bit: bool) {
        self.tone = self.tone == bit;
        self.packer.push(self.out, self.tone);
    }

    ghost nothing = { sends-none };

    ghost more = { sends-more };
}
