// What gives a journal's marks, and where it writes.
ghost use Rattle.std.specs.Prelude.{◌≡◌, length, IfSome, Decides};
ghost use Rattle.std.specs.Option.{option_map};
ghost use Rattle.journal.specs.Journals.{IsSource, start_after, mark_in};
ghost use Rattle.journal_laws.specs.Places.{FirstFree, Expendable, FreeCell, SourceLaw, FreeLaw};

use journal::journal::Journal;
use journal::source::Source;
use marks::cells::Cells;
use marks::mark::Pair;
use marks::store::Store;

// The cell that gives a pair's mark: its highest record, and the lowest cell of equals.
pub fn find_source<C: Cells>(journal: &Journal<C>, pair: Pair) -> Option<Source>
    ensures is { IsSource (C.device journal.now.cells).cells pair (length (C.device journal.now.cells).cells) result }
    ensures mark { option_map (λ s. s.mark) result ≡ mark_in (C.device journal.now.cells).cells pair }
    ensures one { SourceLaw }
{
    journal.source(pair)
}

// The cell that the next raise writes.
pub fn find_next<C: Cells>(journal: &Journal<C>) -> Option<usize>
    ensures first { FirstFree (C.device journal.now.cells).cells (start_after journal.now.last) result }
    ensures safe { IfSome result (λ k. Expendable (C.device journal.now.cells).cells k) }
    ensures free { FreeLaw }
{
    journal.next_cell()
}

// Whether some cell is free: then every pair has room.
pub fn has_free<C: Cells>(journal: &Journal<C>, pair: Pair) -> bool
    ensures { Decides result (FreeCell (C.device journal.now.cells).cells) }
{
    journal.has_room(pair)
}
