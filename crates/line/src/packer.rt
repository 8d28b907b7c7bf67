// Bits into octets, lowest bit first.
ghost use Rattle.std.specs.Prelude.{◌≡◌, ℕ, ◌+◌, ◌*◌, ◌%◌, ◌^◌, ◌<◌, ◌≤◌, [], ◌∷◌, ◌++◌, length, drop};
ghost use Rattle.std.specs.List.{AllByRecursion};
ghost use Rattle.line.specs.Packing.{held};

// How far a buffer is filled: whole octets, and the low bits of the next one.
// Kept: the buffer is a parameter of `push`. Held here it is no plainer: the way through a body begins anew at each flag, over the
// same buffer, and would have to hand the buffer back, as `ToneWriter` does, on each of its four ways out.
#[derive(Clone, Copy)]
pub struct Packer {
    octets: usize,
    fill: u8,
    part: u8,
    ghost ok: { (fill < 8) × (part < 2 ^ fill) },
}

impl Packer {
    pub(crate) fn new() -> Packer
        ensures { (result.octets ≡ 0) × (result.fill ≡ 0) × (result.part ≡ 0) }
    {
        Packer {
            octets: 0,
            fill: 0,
            part: 0,
        }
    }

    // The whole octets.
    pub(crate) fn octets(&self) -> usize
        ensures { result ≡ self.now.octets }
    {
        self.octets
    }

    // The bits behind them.
    pub(crate) fn fill(&self) -> u8
        ensures { result ≡ self.now.fill }
    {
        self.fill
    }

    // One more bit, as long as there is room for the octet that it ends.
    pub(crate) fn push(&mut self, out: &mut [u8], bit: bool)
        ensures bits { 8 * self.old.octets + self.old.fill < 8 * length out.old + 7
            → held self.new.octets self.new.fill self.new.part out.new
            ≡ held self.old.octets self.old.fill self.old.part out.old ++ bit ∷ [] }
        ensures count { 8 * self.old.octets + self.old.fill < 8 * length out.old + 7
            → 8 * self.new.octets + self.new.fill ≡ 8 * self.old.octets + self.old.fill + 1 }
        ensures fill { self.new.fill ≡ (self.old.fill + 1) % 8 }
        ensures behind { drop self.new.octets out.new ≡ drop self.new.octets out.old }
        ensures octets { AllByRecursion (λ o. o < 256) out.old → AllByRecursion (λ o. o < 256) out.new }
    {
        let part = self.part | (u8::from(bit) << self.fill);
        if self.fill < 7 {
            self.fill += 1;
            self.part = part;
            return;
        }
        self.fill = 0;
        self.part = 0;
        if self.octets < out.len() {
            out[self.octets] = part;
            self.octets += 1;
        }
    }
}
