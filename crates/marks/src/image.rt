// Cells in a lent image, 81 octets each. Octets behind the last whole cell belong to none.
ghost use Rattle.std.specs.Prelude.{◌≡◌};
ghost use Rattle.marks.specs.Device.{device_of, Writes, WriteMoves};
ghost use Rattle.marks.specs.Octets.{cells_in, image_after, EachOctet, ImageTouched, ImageKept};

use crate::cells::Cells;
use crate::codec::{CELL_SIZE, TORN, decode, encode};
use crate::mark::{Cell, CutLeaves, Record, Written};
use crate::power::Power;

#[derive(Drop)]
pub struct ImageCells<'a> {
    image: &'a mut [u8],
    power: Power,
}

impl<'a> ImageCells<'a> {
    pub fn new(image: &'a mut [u8], power: Power) -> ImageCells<'a>
        ensures image { result.image.now ≡ image.old }
        ensures lender { result.image.ghost_name ≡ image.entry.ghost_name }
        ensures power { result.power ≡ power }
    {
        ImageCells { image, power }
    }

    // The image back.
    pub fn into_image(self) -> &'a mut [u8]
        ensures image { result.now ≡ self.entry.image.now }
        ensures lender { result.ghost_name ≡ self.entry.image.ghost_name }
    {
        let ImageCells { image, .. } = self;
        image
    }
}

impl<'a> Cells for ImageCells<'a> {
    ghost device = { λ t. device_of (cells_in t.image.now) t.power.on t.power.charge };

    ghost touches = { λ s t. ImageTouched s.image s.power t.image t.power };

    ghost rests = { λ s t. ImageKept s.image s.power t.image t.power };

    fn count(&self) -> usize {
        self.image.len() / CELL_SIZE
    }

    fn read(&self, i: usize) -> Cell {
        let (cells, _) = self.image.as_chunks::<CELL_SIZE>();
        cells.get(i).map_or(Cell::Torn, decode)
    }

    fn is_on(&self) -> bool {
        self.power.on
    }

    fn charge(&self) -> u64 {
        self.power.charge
    }

    fn write(&mut self, i: usize, new: Record) -> Written
        ensures writes { Writes (device_of (cells_in self.old.image.now) self.old.power.on self.old.power.charge) i new result (device_of (cells_in self.new.image.now) self.new.power.on self.new.power.charge) }
        ensures memory { WriteMoves (λ s t. ImageTouched s.image s.power t.image t.power) self.old result self.new }
        ensures octets { self.new.image.now ≡ image_after result self.old.power.leaves i new self.old.image.now }
        ensures each { EachOctet result self.old.power.leaves i new self.old.image.now self.new.image.now }
    {
        if !self.power.on {
            return Written::Off;
        }
        if i >= self.count() {
            return Written::Outside;
        }
        let at = i * CELL_SIZE;
        let (written, leaves) = self.power.spend();
        match leaves {
            CutLeaves::Old => {}
            CutLeaves::New => encode(&mut self.image[at..at + CELL_SIZE], new),
            CutLeaves::Torn => self.image[at] = TORN,
        }
        written
    }

    fn switch_on(&mut self, n: u64) {
        self.power.switch_on(n);
    }
}
