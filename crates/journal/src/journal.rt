// A store of marks in cells. A mark is overwritten only once a higher one of its pair stands elsewhere.
ghost use Rattle.std.specs.Prelude.{◌≡◌, ◌-◌, min, None};
ghost use Rattle.std.specs.List.{range_with_len};
ghost use Rattle.marks.specs.State.{Raises, RaiseMoves, SwitchedOn};
ghost use Rattle.journal.specs.Journals.{supersedes, source_in, is_free, first_free, start_after, chosen, state_in, Journals, JournalTouches, JournalRests};

use crate::source::Source;
use marks::cells::Cells;
use marks::mark::{Cell, Mark, Pair, Raised, Record, Written};
use marks::store::Store;

// Whether a record becomes the source of a pair's mark, given the one found so far.
fn takes_over(pair: Pair, held: Record, found: Option<Source>) -> bool
    ensures { result ≡ supersedes pair found held }
{
    pair.is_same(held.pair) && found.is_none_or(|s| s.mark.position.is_before(held.mark.position))
}

// Where to begin to look among n cells, after the one last written.
fn start(last: Option<usize>, n: usize) -> usize
    ensures { result ≡ min (start_after last) n }
{
    last.map_or(0, |k| k.saturating_add(1).min(n))
}

#[derive(Drop)]
pub struct Journal<C: Cells> {
    cells: C,
    last: Option<usize>,
}

impl<C: Cells> Journal<C> {
    pub fn new(cells: C) -> Journal<C>
        ensures cells { result.cells ≡ cells }
        ensures last { result.last ≡ None }
    {
        Journal { cells, last: None }
    }

    // A journal that goes on where another over the same cells stopped, with the cell it wrote last.
    pub fn resume(cells: C, last: Option<usize>) -> Journal<C>
        ensures cells { result.cells ≡ cells }
        ensures last { result.last ≡ last }
    {
        Journal { cells, last }
    }

    // The cells back.
    pub fn into_cells(self) -> C
        ensures { result ≡ self.cells }
    {
        let Journal { cells, .. } = self;
        cells
    }

    // The cell that the last raise wrote, or was cut in writing, since the journal was made or switched on.
    pub fn written_last(&self) -> Option<usize>
        ensures { result ≡ self.now.last }
    {
        self.last
    }

    // The cell that gives a pair's mark, and the mark.
    pub fn source(&self, pair: Pair) -> Option<Source>
        ensures { result ≡ source_in (C.Cells.device self.now.cells).cells pair }
    {
        // Kept: one pass over cells that are read by place through an interface, so there is no slice to iterate over; the source
        // found so far is replaced only where a higher record comes.
        let mut found: Option<Source> = None;
        for i in 0..self.cells.count() {
            if let Cell::Held(held) = self.cells.read(i) {
                if takes_over(pair, held, found) {
                    found = Some(Source {
                        cell: i,
                        mark: held.mark,
                    });
                }
            }
        }
        found
    }

    // Whether cell i may be overwritten.
    fn is_free(&self, i: usize) -> bool
        ensures { result ≡ is_free (C.Cells.device self.now.cells).cells i }
    {
        match self.cells.read(i) {
            Cell::Blank | Cell::Torn => true,
            Cell::Held(held) => self.source(held.pair).is_none_or(|s| s.cell != i),
        }
    }

    // The first free cell from a up to e.
    fn find_free(&self, a: usize, e: usize) -> Option<usize>
        ensures { result ≡ first_free (C.Cells.device self.now.cells).cells (range_with_len a (e - a)) }
    {
        (a..e).find(|i| self.is_free(*i))
    }

    // The cell that a raise would write: the first free one after the last written, going round to cell 0.
    pub fn next_cell(&self) -> Option<usize>
        ensures { result ≡ chosen (C.Cells.device self.now.cells).cells self.now.last }
    {
        let n = self.cells.count();
        let first = start(self.last, n);
        self.find_free(first, n)
            .or_else(|| self.find_free(0, first))
    }
}

impl<C: Cells> Store for Journal<C> {
    ghost state = { λ j. state_in (C.Cells.device j.cells) };

    ghost touches = { λ j k. JournalTouches (C.Cells.touches j.cells k.cells) (C.Cells.device j.cells).cells j.last k.last };

    ghost rests = { λ j k. JournalRests (C.Cells.rests j.cells k.cells) k.last };

    fn mark(&self, pair: Pair) -> Option<Mark> {
        self.source(pair).map(|s| s.mark)
    }

    fn has_room(&self, _pair: Pair) -> bool {
        self.find_free(0, self.cells.count()).is_some()
    }

    fn is_on(&self) -> bool {
        self.cells.is_on()
    }

    fn charge(&self) -> u64 {
        self.cells.charge()
    }

    fn raise(&mut self, pair: Pair, new: Mark) -> Raised
        ensures raises { Raises (state_in (C.Cells.device self.old.cells)) pair new result (state_in (C.Cells.device self.new.cells)) }
        ensures memory { RaiseMoves (λ j k. JournalTouches (C.Cells.touches j.cells k.cells) (C.Cells.device j.cells).cells j.last k.last) self.old result self.new }
        ensures place { Journals (C.Cells.device self.old.cells).cells self.old.last pair new result (C.Cells.device self.new.cells).cells self.new.last }
    {
        if !self.cells.is_on() {
            return Raised::Off;
        }
        if !new.position.is_above(self.mark(pair)) {
            return Raised::Low;
        }
        let Some(k) = self.next_cell() else {
            return Raised::Full;
        };
        match self.cells.write(k, Record { pair, mark: new }) {
            Written::Off => Raised::Off,
            Written::Outside => Raised::Full,
            Written::Cut => {
                self.last = Some(k);
                Raised::Cut
            }
            Written::Done => {
                self.last = Some(k);
                Raised::Done
            }
        }
    }

    fn switch_on(&mut self, n: u64)
        ensures on { SwitchedOn (state_in (C.Cells.device self.old.cells)) n (state_in (C.Cells.device self.new.cells)) }
        ensures memory { JournalRests (C.Cells.rests self.old.cells self.new.cells) self.new.last }
        ensures cells { (C.Cells.device self.new.cells).cells ≡ (C.Cells.device self.old.cells).cells }
        ensures last { self.new.last ≡ None }
    {
        self.cells.switch_on(n);
        self.last = None;
    }
}
