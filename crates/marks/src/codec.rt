// A cell in 81 octets: state, sid, kid, epoch, counter, hash.
ghost use Rattle.std.specs.Prelude.{◌≡◌, ◌+◌, ◌≤◌, length, take, drop};
ghost use Rattle.marks.specs.declared.mark.Cell.{Cell};
ghost use Rattle.marks.specs.Octets.{encoded, cell_of, Sized};

use crate::mark::{Cell, Mark, Pair, Position, Record};

// Where a record's parts stand, and where the next cell begins.
const SID: usize = 1;

const KID: usize = 17;

const EPOCH: usize = 33;

const COUNTER: usize = 41;

const HASH: usize = 49;

pub(crate) const CELL_SIZE: usize = 81;

// Kept: a state is an octet of the format, matched once; any other octet reads as torn, so an enum would be `Cell` again.
const BLANK: u8 = 0x00;

const RECORD: u8 = 0x01;

pub(crate) const TORN: u8 = 0xFF;

pub(crate) fn encode(cell: &mut [u8], new: Record)
    requires { length cell.old ≡ 81 }
    ensures octets { cell.new ≡ encoded new }
    ensures reads { cell_of cell.new ≡ Cell.Held new }
    ensures sized { Sized new }
{
    cell[0] = RECORD;
    cell[SID..KID].copy_from_slice(&new.pair.sid);
    cell[KID..EPOCH].copy_from_slice(&new.pair.kid);
    cell[EPOCH..COUNTER].copy_from_slice(&new.mark.position.epoch.to_be_bytes());
    cell[COUNTER..HASH].copy_from_slice(&new.mark.position.counter.to_be_bytes());
    cell[HASH..CELL_SIZE].copy_from_slice(&new.mark.hash);
}

// The N octets from a place on.
fn part<const N: usize>(cell: &[u8], at: usize) -> [u8; N]
    requires { at + N ≤ length cell.now }
    ensures { result ≡ take N (drop at cell.now) }
{
    let mut part = [0; N];
    part.copy_from_slice(&cell[at..at + N]);
    part
}

pub(crate) fn decode(cell: &[u8; CELL_SIZE]) -> Cell
    ensures { result ≡ cell_of cell.now }
{
    match cell[0] {
        BLANK => Cell::Blank,
        RECORD => Cell::Held(Record {
            mark: Mark {
                position: Position {
                    epoch: u64::from_be_bytes(part(cell, EPOCH)),
                    counter: u64::from_be_bytes(part(cell, COUNTER)),
                },
                hash: part(cell, HASH),
            },
            pair: Pair {
                sid: part(cell, SID),
                kid: part(cell, KID),
            },
        }),
        _ => Cell::Torn,
    }
}
