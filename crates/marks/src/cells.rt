// The interface of cells under a power supply.
ghost use Rattle.std.specs.Prelude.{◌≡◌, length};
ghost use Rattle.marks.specs.Device.{Device, cell_at, Writes, WriteMoves, DeviceOn};

use crate::mark::{Cell, Record, Written};

pub trait Cells {
    // The list of cells, power, and the whole writes that power still lasts.
    ghost device: { Self → Device };

    // The same lender's memory, of which at most one cell differs.
    ghost touches: { Self → Self → Type 0 };

    // The same lender's memory, as it was.
    ghost rests: { Self → Self → Type 0 };

    fn count(&self) -> usize
        ensures { result ≡ length (device self.now).cells };

    // The cell at i; torn beyond the list.
    fn read(&self, i: usize) -> Cell
        ensures { result ≡ cell_at (device self.now).cells i };

    fn is_on(&self) -> bool
        ensures { result ≡ (device self.now).on };

    fn charge(&self) -> u64
        ensures { result ≡ (device self.now).charge };

    fn write(&mut self, i: usize, new: Record) -> Written
        ensures writes { Writes (device self.old) i new result (device self.new) }
        ensures memory { WriteMoves touches self.old result self.new };

    fn switch_on(&mut self, n: u64)
        ensures on { DeviceOn (device self.old) n (device self.new) }
        ensures memory { rests self.old self.new };
}
