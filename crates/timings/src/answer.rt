// What the calls answer, as plain numbers.
ghost use Rattle.std.specs.Prelude.{◌≡◌};
ghost use Rattle.timings.specs.Numbers.{found_as};

use marks::mark::Mark;

// `found` is 1 where the pair has a mark, else all are 0.
// Kept: the C interface has no `Option`.
#[repr(C)]
#[derive(Clone, Copy, Default)]
pub struct FoundMark {
    pub found: u8,
    pub epoch: u64,
    pub counter: u64,
}

impl From<Option<Mark>> for FoundMark {
    ghost from_gives = { λ mark answer. answer ≡ found_as mark };

    fn from(mark: Option<Mark>) -> FoundMark {
        match mark {
            None => FoundMark::default(),
            Some(m) => FoundMark {
                found: 1,
                epoch: m.position.epoch,
                counter: m.position.counter,
            },
        }
    }
}
