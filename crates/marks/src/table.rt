// Cells in a table of 16.
ghost use Rattle.std.specs.Prelude.{◌≡◌, length, replicate};
ghost use Rattle.marks.specs.declared.mark.Cell.{Cell};
ghost use Rattle.marks.specs.Device.{device_of, Writes, WriteMoves, cells_after};
ghost use Rattle.marks.specs.Table.{TableTouched, TableKept};

use crate::cells::Cells;
use crate::mark::{Cell, CutLeaves, Record, Written};
use crate::power::Power;

pub const TABLE_CELLS: usize = 16;

#[derive(Drop)]
pub struct TableCells {
    cells: [Cell; TABLE_CELLS],
    power: Power,
    ghost full: { length cells ≡ 16 },
}

impl TableCells {
    // All cells blank.
    pub fn new(power: Power) -> TableCells
        ensures cells { result.cells ≡ replicate 16 Cell.Blank }
        ensures power { result.power ≡ power }
    {
        TableCells::with_cells([Cell::Blank; TABLE_CELLS], power)
    }

    // The given cells.
    pub fn with_cells(cells: [Cell; TABLE_CELLS], power: Power) -> TableCells
        ensures cells { result.cells ≡ cells }
        ensures power { result.power ≡ power }
    {
        TableCells { cells, power }
    }

    // The cells by themselves.
    pub fn into_cells(self) -> [Cell; TABLE_CELLS]
        ensures { result ≡ self.cells }
    {
        let TableCells { cells, .. } = self;
        cells
    }
}

// Kept: what it shares with `ImageCells` is a test or a call of `Power`; one type over two memories would need a trait with as many members.
impl Cells for TableCells {
    ghost device = { λ t. device_of t.cells t.power.on t.power.charge };

    ghost touches = { λ s t. TableTouched s.cells s.power t.cells t.power };

    ghost rests = { λ s t. TableKept s.cells s.power t.cells t.power };

    fn count(&self) -> usize {
        TABLE_CELLS
    }

    fn read(&self, i: usize) -> Cell {
        self.cells.get(i).copied().unwrap_or(Cell::Torn)
    }

    fn is_on(&self) -> bool {
        self.power.on
    }

    fn charge(&self) -> u64 {
        self.power.charge
    }

    fn write(&mut self, i: usize, new: Record) -> Written
        ensures writes { Writes (device_of self.old.cells self.old.power.on self.old.power.charge) i new result (device_of self.new.cells self.new.power.on self.new.power.charge) }
        ensures memory { WriteMoves (λ s t. TableTouched s.cells s.power t.cells t.power) self.old result self.new }
        ensures cells { self.new.cells ≡ cells_after result self.old.power.leaves i new self.old.cells }
    {
        if !self.power.on {
            return Written::Off;
        }
        if i >= TABLE_CELLS {
            return Written::Outside;
        }
        let (written, leaves) = self.power.spend();
        match leaves {
            CutLeaves::Old => {}
            CutLeaves::New => self.cells[i] = Cell::Held(new),
            CutLeaves::Torn => self.cells[i] = Cell::Torn,
        }
        written
    }

    fn switch_on(&mut self, n: u64) {
        self.power.switch_on(n);
    }
}
