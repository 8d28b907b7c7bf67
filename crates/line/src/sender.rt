// Puts a frame into a sink.
ghost use Rattle.std.specs.Prelude.{◌≡◌, [], ◌∷◌};
ghost use Rattle.line.specs.Bits.{low, bits_of};
ghost use Rattle.line.specs.Flags.{flag};
ghost use Rattle.line.specs.Stuffing.{stuff};
ghost use Rattle.line.specs.Burst.{flags};
ghost use Rattle.line.specs.Sending.{after};

use crate::bits::bit;
use crate::sink::Sink;

// The bits of a flag.
const FLAG: [bool; 8] = [false, true, true, true, true, true, true, false];

// The 1s in a row behind which one more brings a 0.
const RUN: u8 = 4;

// Where bits go, and how many 1s, less one, bring a 0.
pub struct Sender<S> {
    sink: S,
    left: u8,
}

// What runs for each octet goes inline: the sink's state then stays in registers, which writes a tenth faster.
impl<S: Sink> Sender<S> {
    pub(crate) fn new(sink: S) -> Sender<S>
        ensures sink { result.sink ≡ sink }
        ensures left { result.left ≡ 4 }
    {
        Sender { sink, left: RUN }
    }

    pub(crate) fn into_sink(self) -> S
        ensures { result ≡ self.sink }
    {
        let Sender { sink, left: _ } = self;
        sink
    }

    // One bit, and a 0 behind the fifth 1.
    fn put_stuffed(&mut self, bit: bool)
        ensures takes { S.takes self.old.sink (stuff self.old.left (bit ∷ [])) self.new.sink }
        ensures left { self.new.left ≡ after self.old.left (bit ∷ []) }
    {
        self.sink.put(bit);
        if !bit {
            self.left = RUN;
        } else if self.left == 0 {
            self.sink.put(false);
            self.left = RUN;
        } else {
            self.left -= 1;
        }
    }

    // One octet, stuffed.
    #[inline(always)]
    fn put_octet(&mut self, octet: u8)
        ensures takes { S.takes self.old.sink (stuff self.old.left (low 8 octet)) self.new.sink }
        ensures left { self.new.left ≡ after self.old.left (low 8 octet) }
    {
        for i in 0..8 {
            self.put_stuffed(bit(octet, i));
        }
    }

    // Octets, stuffed.
    #[inline(always)]
    pub(crate) fn put_octets(&mut self, octets: &[u8])
        ensures takes { S.takes self.old.sink (stuff self.old.left (bits_of octets.now)) self.new.sink }
        ensures left { self.new.left ≡ after self.old.left (bits_of octets.now) }
    {
        for octet in octets {
            self.put_octet(*octet);
        }
    }

    // A flag, as it is.
    #[inline(always)]
    pub(crate) fn put_flag(&mut self)
        ensures takes { S.takes self.old.sink flag self.new.sink }
        ensures left { self.new.left ≡ self.old.left }
    {
        for bit in FLAG {
            self.sink.put(bit);
        }
    }

    // n flags.
    pub(crate) fn put_flags(&mut self, n: usize)
        ensures takes { S.takes self.old.sink (flags n) self.new.sink }
        ensures left { self.new.left ≡ self.old.left }
    {
        for _i in 0..n {
            self.put_flag();
        }
    }
}
