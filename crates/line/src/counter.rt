// Counts bits.
ghost use Rattle.std.specs.Prelude.{◌≡◌};
ghost use Rattle.line.specs.Sending.{Counts};
ghost use Rattle.line.specs.Sinks.{counts-none, counts-more};

use crate::sink::Sink;

#[derive(Clone, Copy)]
pub struct Counter {
    bits: usize,
}

impl Counter {
    pub(crate) fn new() -> Counter
        ensures { result.bits ≡ 0 }
    {
        Counter { bits: 0 }
    }

    pub(crate) fn bits(&self) -> usize
        ensures { result ≡ self.now.bits }
    {
        self.bits
    }
}

impl Sink for Counter {
    ghost takes = { Counts };

    fn put(&mut self, _bit: bool) {
        self.bits = self.bits.wrapping_add(1);
    }

    ghost nothing = { counts-none };

    ghost more = { counts-more };
}
