// The marks in an image, as lines.
use crate::failure::Failure;
use crate::shown::Marked;
use journal::journal::Journal;
use marks::cells::Cells;
use marks::image::ImageCells;
use marks::mark::{Cell, CutLeaves, Record};
use marks::power::Power;
use std::fmt;

// How many cells there are of each kind.
#[derive(Clone, Copy, Default)]
struct Tally {
    marks: u64,
    older: u64,
    torn: u64,
    blank: u64,
}

impl fmt::Display for Tally {
    fn fmt<W: fmt::Write>(&self, f: &mut fmt::Formatter<W>) -> fmt::Result {
        let Tally {
            marks,
            older,
            torn,
            blank,
        } = self;
        write!(
            f,
            "{marks} with marks, {older} with older records, {torn} torn, {blank} blank"
        )
    }
}

// Whether the cell is the one that gives its pair's mark.
fn is_source<C: Cells>(journal: &Journal<C>, i: usize, record: Record) -> bool {
    journal
        .source(record.pair)
        .is_some_and(|source| source.cell == i)
}

// Prints a cell, if it gives a mark or is torn, and counts it.
fn print_cell<C: Cells>(
    rt: &HostRuntime,
    journal: &Journal<C>,
    i: usize,
    cell: Cell,
    tally: &mut Tally,
) -> Result<(), Failure> {
    let count = match cell {
        Cell::Blank => &mut tally.blank,
        Cell::Torn => {
            println!(rt; "cell {i:>4}: torn")?;
            &mut tally.torn
        }
        Cell::Held(record) if is_source(journal, i, record) => {
            println!(rt; "cell {i:>4}: {}", Marked(record))?;
            &mut tally.marks
        }
        Cell::Held(_) => &mut tally.older,
    };
    *count = count.saturating_add(1);
    Ok(())
}

// Prints what an image holds: each pair that has a mark, with the cell that gives it; the torn cells; and how many there are
// of each kind.
pub fn print(rt: &HostRuntime, image: &mut [u8]) -> Result<(), Failure> {
    let power = Power {
        on: false,
        charge: 0,
        leaves: CutLeaves::Old,
    };
    let cells = ImageCells::new(image, power);
    let count = cells.count();
    let read: Vec<Cell> = (0..count).map(|i| cells.read(i)).collect(rt.alloc())?;
    let journal = Journal::new(cells);
    let mut tally = Tally::default();
    for (i, cell) in read.iter().enumerate() {
        print_cell(rt, &journal, i, *cell, &mut tally)?;
    }
    println!(rt; "{count} cells: {tally}")?;
    Ok(())
}
