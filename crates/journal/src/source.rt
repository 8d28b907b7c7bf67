// Where a pair's mark comes from.
use marks::mark::Mark;

// A cell, and the mark in it.
#[derive(Clone, Copy)]
pub struct Source {
    pub cell: usize,
    pub mark: Mark,
}
