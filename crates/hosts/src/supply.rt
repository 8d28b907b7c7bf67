// What lasts from call to call beside an image.
use marks::power::Power;

/// Power, the cell written last since switching on, and the floor, if there is one.
#[derive(Clone, Copy)]
pub struct Supply {
    pub power: Power,
    pub last: Option<usize>,
    pub floor: Option<u64>,
}
