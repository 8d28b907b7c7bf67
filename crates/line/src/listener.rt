// The listener: one decoded bit after another.
ghost use Rattle.std.specs.Prelude.{◌≡◌, ◌+◌, ◌%◌, Bool, true, false, if◌then◌else◌};
ghost use Rattle.line.specs.Listening.{next, sign, sixth};

#[derive(Clone, Copy)]
pub enum Phase {
    // looking for a flag
    Hunting,
    // in a body
    Inside,
    // in a body, behind five 1s in a row
    AfterFiveOnes,
}

// What stands in front of the bits that are counted: the body's start, or a 0 that was removed.
#[derive(Clone, Copy)]
pub enum Boundary {
    Start,
    RemovedZero,
}

// What a bit turned out to be.
#[derive(Clone, Copy)]
pub enum Sign {
    // nothing that stays
    Nothing,
    // a bit of the body that stays
    Bit,
    // the end of a flag
    Flag,
}

// `ones` counts the 1s in a row behind a 0; hunting, 7 stands for more than six, or for no 0 yet.
// `fresh` says that no 0 was kept since the boundary, `broken` that the body is not the stuffed form of anything.
// Kept: `fresh` beside `boundary`. As one value, an enum of the last 0 (none, kept, removed), which was proved, it is chosen again at each
// bit of a body by a branch or a select, where `fresh` takes one `&` and `boundary` stays. It is slower in the rows "hear it" of
// docs/performance.md: 0.87 to 1.10 of a plain program's time, by where the code was placed, and this form 0.72 to 1.04.
// Kept: 7 in `ones`, where the count of a hunting listener stops. An `Option` around it is no plainer: each test and each step would
// unpack it first.
#[derive(Clone, Copy)]
pub struct Listener {
    phase: Phase,
    ones: u8,
    fresh: bool,
    boundary: Boundary,
    broken: bool,
}

impl Listener {
    // A listener that has heard nothing yet.
    pub(crate) fn hunting() -> Listener
        ensures { result ≡ record { phase = Phase.Hunting; ones = 7; fresh = true; boundary = Boundary.Start; broken = false } }
    {
        Listener {
            phase: Phase::Hunting,
            ones: 7,
            fresh: true,
            boundary: Boundary::Start,
            broken: false,
        }
    }

    // A listener at the start of a body.
    pub(crate) fn inside() -> Listener
        ensures { result ≡ record { phase = Phase.Inside; ones = 0; fresh = true; boundary = Boundary.Start; broken = false } }
    {
        Listener {
            phase: Phase::Inside,
            ones: 0,
            ..Listener::hunting()
        }
    }

    pub(crate) fn is_broken(&self) -> bool
        ensures { result ≡ self.now.broken }
    {
        self.broken
    }

    // Takes a bit, and says what it is. In a body there is no branch on the bit, which cannot be foretold.
    pub(crate) fn step(&mut self, bit: bool) -> Sign
        ensures next { self.new ≡ next self.old bit }
        ensures sign { result ≡ sign self.old bit }
    {
        match (self.phase, bit) {
            (Phase::Inside, _) => {
                self.ones = in_a_row(self.ones, bit);
                self.fresh = self.fresh & bit;
                if self.ones == 5 {
                    self.phase = Phase::AfterFiveOnes;
                }
                Sign::Bit
            }
            (Phase::AfterFiveOnes, false) => {
                self.phase = Phase::Inside;
                self.ones = 0;
                self.fresh = true;
                self.boundary = Boundary::RemovedZero;
                Sign::Nothing
            }
            (Phase::AfterFiveOnes, true) => {
                self.sixth();
                Sign::Nothing
            }
            (Phase::Hunting, true) => {
                if self.ones == 6 {
                    self.broken = true;
                }
                if self.ones < 7 {
                    self.ones += 1;
                }
                Sign::Nothing
            }
            (Phase::Hunting, false) => {
                if self.ones == 6 {
                    return Sign::Flag;
                }
                self.ones = 0;
                Sign::Nothing
            }
        }
    }

    // A sixth 1: a flag may end here, behind a 0 that was kept, or the body is broken.
    fn sixth(&mut self)
        ensures { self.new ≡ sixth self.old.fresh self.old.boundary self.old.broken }
    {
        self.phase = Phase::Hunting;
        self.ones = 6;
        if self.fresh {
            self.broken = true;
            if let Boundary::Start = self.boundary {
                self.ones = 7;
            }
        }
    }
}

// The 1s in a row after a bit.
fn in_a_row(ones: u8, bit: bool) -> u8
    ensures { result ≡ (if bit then (ones + 1) % 256 else 0) }
{
    ones.wrapping_add(1) & u8::from(bit).wrapping_neg()
}
