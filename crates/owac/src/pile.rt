// A store of marks that outlasts single calls: memory, its power supply, a journal over it, floors on that, and a receiver
// over them all where a call listens.
ghost use Rattle.std.specs.Prelude.{◌≡◌, ⊤, length, OnErr};
ghost use Rattle.journal.specs.Journals.{state_in};
ghost use Rattle.judging.specs.Inputs.{inputs_of};
ghost use Rattle.owac.specs.Calls.{Replies, CallMoves, on_floors};
ghost use Rattle.owac.specs.Laid.{on_laid, under, height, LaidMoves};

use crate::sheet::Sheet;
use arrayvec::{ArrayVec, CapacityError};
use commands::types::Command;
use journal::floor::Floor;
use journal::journal::Journal;
use judging::answer::{Answer, Lent, Verdict};
use marks::cells::Cells;
use marks::image::ImageCells;
use marks::mark::{Cell, CutLeaves, Mark, Pair, Raised, Record};
use marks::power::Power;
use marks::store::Store;
use marks::table::{TABLE_CELLS, TableCells};
use receiver::receiver::Receiver;
use std::alloc::AllocError;
use verdicts::Verifier;

// The octets of a cell in an image.
pub const CELL_OCTETS: usize = 81;

// The state of a torn cell in an image.
const TORN: u8 = 0xFF;

// The most floors that are laid on one store.
const MOST_FLOORS: usize = 3;

// Where marks are kept.
#[derive(Drop)]
pub enum Memory {
    Image(Vec<u8>),
    Table([Cell; TABLE_CELLS]),
}

// One call of a store, or of the receiver over it, with what a listening is lent besides a buffer to work in.
#[derive(Drop)]
pub enum Call<'a, V> {
    Raise(Pair, Mark),
    SwitchOn(u64),
    ReadMark(Pair),
    HasRoom(Pair),
    Listen(Lent<'a, V>),
}

impl<'a, V> Copy for Call<'a, V> {}

impl<'a, V> Clone for Call<'a, V> {
    ghost is_clone = { λ x y. y ≡ x };

    ghost is_infallible = { λ _. ⊤ };

    fn clone(&self) -> Result<Self, AllocError> {
        Ok(*self)
    }
}

// What is answered.
#[derive(Clone, Copy)]
pub enum Reply {
    Raised(Raised),
    On,
    Mark(Option<Mark>),
    Room(bool),
    Heard(Answer),
}

impl Reply {
    // The command that is released, if one is.
    pub fn released(self) -> Option<Command> {
        match self {
            Reply::Heard(
                Answer {
                    verdict: Verdict::Released(release),
                    ..
                },
            ) => Some(release.command),
            _ => None,
        }
    }
}

// A store, bare or under a floor.
#[derive(Drop)]
enum Laid<S: Store> {
    Bare(S),
    Floored(Floor<S>),
}

impl<S: Store> Laid<S> {
    fn new(store: S, floor: Option<u64>) -> Laid<S>
        ensures under { under result ≡ store }
        ensures height { height result ≡ floor }
    {
        match floor {
            None => Laid::Bare(store),
            Some(epoch) => Laid::Floored(Floor::new(store, epoch)),
        }
    }

    // The store back.
    fn into_store(self) -> S
        ensures { result ≡ under self }
    {
        match self {
            Laid::Bare(store) => store,
            Laid::Floored(floor) => floor.into_store(),
        }
    }
}

// Calls the store itself, or the floor on it.
macro_rules! call_laid {
    ($laid:expr, $store:ident => $call:expr) => {
        match $laid {
            Laid::Bare($store) => $call,
            Laid::Floored($store) => $call,
        }
    };
}

impl<S: Store> Store for Laid<S> {
    ghost state = { λ s. on_laid (height s) (S.Store.state (under s)) };

    ghost touches = { λ s t. LaidMoves (S.Store.touches (under s) (under t)) (height s) (height t) };

    ghost rests = { λ s t. LaidMoves (S.Store.rests (under s) (under t)) (height s) (height t) };

    fn mark(&self, pair: Pair) -> Option<Mark> {
        call_laid!(self, store => store.mark(pair))
    }

    fn has_room(&self, pair: Pair) -> bool {
        call_laid!(self, store => store.has_room(pair))
    }

    fn is_on(&self) -> bool {
        call_laid!(self, store => store.is_on())
    }

    fn charge(&self) -> u64 {
        call_laid!(self, store => store.charge())
    }

    fn raise(&mut self, pair: Pair, new: Mark) -> Raised {
        call_laid!(self, store => store.raise(pair, new))
    }

    fn switch_on(&mut self, n: u64) {
        call_laid!(self, store => store.switch_on(n))
    }
}

// Makes a call of any store, which a receiver holds while it listens.
// Kept: the buffer stays beside the call, here and below: only the caller reads it after the call, which is used up.
fn call_store<S: Store, V: Verifier>(mut store: S, call: Call<'_, V>, work: &mut [u8]) -> (S, Reply)
    ensures replies { Replies (λ lent. inputs_of V.Verifier.known V.Verifier.good lent (length work.old)) (S.Store.state store) call.entry result.1 (S.Store.state result.0) }
    ensures memory { CallMoves S.Store.touches S.Store.rests store result.1 result.0 }
{
    match call {
        Call::Raise(pair, mark) => {
            let raised = store.raise(pair, mark);
            (store, Reply::Raised(raised))
        }
        Call::SwitchOn(charge) => {
            store.switch_on(charge);
            (store, Reply::On)
        }
        Call::ReadMark(pair) => {
            let mark = store.mark(pair);
            (store, Reply::Mark(mark))
        }
        Call::HasRoom(pair) => {
            let room = store.has_room(pair);
            (store, Reply::Room(room))
        }
        Call::Listen(lent) => {
            let mut receiver = Receiver::new(store);
            let answer = receiver.listen(&lent, work);
            (receiver.into_store(), Reply::Heard(answer))
        }
    }
}

// Makes a call of the floors laid on any store, the lowest first, and takes them off again.
fn call_floors<S: Store, V: Verifier>(
    store: S,
    floors: &ArrayVec<u64, MOST_FLOORS>,
    call: Call<'_, V>,
    work: &mut [u8],
) -> (S, Reply)
    ensures replies { Replies (λ lent. inputs_of V.Verifier.known V.Verifier.good lent (length work.old)) (on_floors floors.now.items (S.Store.state store)) call.entry result.1 (on_floors floors.now.items (S.Store.state result.0)) }
    ensures memory { CallMoves S.Store.touches S.Store.rests store result.1 result.0 }
{
    let epochs = floors.as_slice();
    let low = Laid::new(store, epochs.first().copied());
    let middle = Laid::new(low, epochs.get(1).copied());
    let high = Laid::new(middle, epochs.get(2).copied());
    let (high, reply) = call_store(high, call, work);
    let middle = high.into_store();
    let low = middle.into_store();
    (low.into_store(), reply)
}

// What a store goes on with from call to call, besides its memory.
#[derive(Drop)]
struct Works {
    power: Power,
    last: Option<usize>,
    floors: ArrayVec<u64, MOST_FLOORS>,
}

impl Works {
    // Makes a call of the floors on a journal over any cells, and goes on from it.
    fn call<C: Cells, V: Verifier>(
        &mut self,
        cells: C,
        call: Call<'_, V>,
        work: &mut [u8],
    ) -> (C, Reply)
        ensures replies { Replies (λ lent. inputs_of V.Verifier.known V.Verifier.good lent (length work.old)) (on_floors self.old.floors.items (state_in (C.Cells.device cells))) call.entry result.1 (on_floors self.old.floors.items (state_in (C.Cells.device result.0))) }
        ensures memory { CallMoves C.Cells.touches C.Cells.rests cells result.1 result.0 }
        ensures floors { self.new.floors ≡ self.old.floors }
    {
        let journal = Journal::resume(cells, self.last);
        let (journal, reply) = call_floors(journal, &self.floors, call, work);
        self.last = journal.written_last();
        self.power.on = journal.is_on();
        self.power.charge = journal.charge();
        (journal.into_cells(), reply)
    }
}

#[derive(Drop)]
pub struct Pile {
    memory: Memory,
    works: Works,
}

impl Pile {
    pub fn new(memory: Memory, power: Power) -> Pile {
        Pile {
            memory,
            works: Works {
                power,
                last: None,
                floors: ArrayVec::new(),
            },
        }
    }

    // Lays a floor on top, if there are fewer than three.
    pub fn lay(&mut self, epoch: u64) -> Result<(), CapacityError<u64>>
        ensures { OnErr result (self.new ≡ self.old) }
    {
        self.works.floors.try_push(epoch)
    }

    // Makes one call that needs no buffer to work in.
    pub fn call(&mut self, call: Call<'_, Sheet>) -> Reply {
        self.carry_out(call, &mut [])
    }

    // Makes one call. Memory, power and journal go on from it.
    pub fn carry_out<V: Verifier>(&mut self, call: Call<'_, V>, work: &mut [u8]) -> Reply {
        let power = self.works.power;
        match &mut self.memory {
            Memory::Image(octets) => {
                let cells = ImageCells::new(octets.as_mut_slice(), power);
                let (_, reply) = self.works.call(cells, call, work);
                reply
            }
            Memory::Table(held) => {
                let cells = TableCells::with_cells(*held, power);
                let (cells, reply) = self.works.call(cells, call, work);
                *held = cells.into_cells();
                reply
            }
        }
    }

    pub fn memory(&self) -> &Memory {
        &self.memory
    }

    // The cell that was written last since the store was made or switched on.
    pub fn written_last(&self) -> Option<usize>
        ensures { result ≡ self.now.works.last }
    {
        self.works.last
    }

    // The octets of a cell, if the memory is an image that has it.
    pub fn octets_at(&self, cell: usize) -> Option<&[u8]> {
        match &self.memory {
            Memory::Image(image) => image.as_slice().chunks_exact(CELL_OCTETS).nth(cell),
            Memory::Table(_) => None,
        }
    }
}

// The octets of a cell as they lie in an image.
pub fn octets_of(cell: &Cell) -> [u8; CELL_OCTETS] {
    let mut octets = [0u8; CELL_OCTETS];
    match cell {
        Cell::Blank => {}
        Cell::Torn => octets[0] = TORN,
        Cell::Held(record) => write_record(&mut octets, *record),
    }
    octets
}

// Writes a record into the octets of a cell.
fn write_record(octets: &mut [u8], record: Record) {
    let power = Power {
        on: true,
        charge: 1,
        leaves: CutLeaves::Old,
    };
    let _ = ImageCells::new(octets, power).write(0, record);
}
