// What the program shows when it is asked for nothing: a message on the line, and marks through power cuts.
use crate::failure::Failure;
use crate::line_commands::Reception;
use crate::message_commands::Judgement;
use crate::pile::{CELL_OCTETS, Call, Memory, Pile, Reply};
use line::frame;
use line::heard::{Heard, Hearing};
use line_laws::loopback::loopback;
use marks::mark::{CutLeaves, Mark, Pair, Position, Raised};
use marks::power::Power;
use std::alloc::Global;

// A message that queues track 42 with priority 5, at epoch 7 and counter 105.
const MESSAGE: [u8; 81] = [
    // the version and the profile
    0xA5, 0x00, 0x01, 0x01, 0x01,
    // epoch 7, counter 105, the sender
    0x02, 0xA3, 0x00, 0x07, 0x01, 0x18, 0x69, 0x02, 0x50, 0xA0, 0xA1, 0xA2, 0xA3, 0xA4, 0xA5, 0xA6,
    0xA7, 0xA8, 0xA9, 0xAA, 0xAB, 0xAC, 0xAD, 0xAE, 0xAF,
    // queue track 42 with priority 5
    0x03, 0xA2, 0x00, 0x01, 0x01, 0xA2, 0x00, 0x18, 0x2A, 0x01, 0x05,
    // alg 3, the key, the tag
    0x04, 0xA3, 0x00, 0x03, 0x01, 0x50, 0xB0, 0xB1, 0xB2, 0xB3, 0xB4, 0xB5, 0xB6, 0xB7, 0xB8, 0xB9,
    0xBA, 0xBB, 0xBC, 0xBD, 0xBE, 0xBF, 0x02, 0x50, 0xC0, 0xC1, 0xC2, 0xC3, 0xC4, 0xC5, 0xC6, 0xC7,
    0xC8, 0xC9, 0xCA, 0xCB, 0xCC, 0xCD, 0xCE, 0xCF,
];

// The bits of the closing flag.
const CLOSING_BITS: usize = 8;

// The clock, in seconds.
const CLOCK: u64 = 1_000_000;

// Room for the burst of that message, in octets.
const ROOM: usize = 256;

// A tone in the body of that burst.
const DAMAGED_OCTET: usize = 60;

const DAMAGED_BIT: u8 = 0x10;

// The cells of the image.
const CELLS: usize = 3;

const PAIR: Pair = Pair {
    sid: [0xA0; 16],
    kid: [0xB0; 16],
};

// The epoch of the marks.
const EPOCH: u64 = 7;

fn print_heard(rt: &HostRuntime, what: &str, reception: Reception<'_>) -> Result<(), Failure> {
    let Heard { hearing, next } = reception.heard;
    match hearing {
        Hearing::Quiet => println!(rt; "{what}: quiet, next place {next}")?,
        Hearing::Refused(refusal) => {
            let number = refusal.number();
            println!(rt; "{what}: refused {number} {refusal}, next place {next}")?;
        }
        Hearing::Frame(length) => {
            let came = if reception.work.starts_with(&MESSAGE) {
                "the message as it was sent"
            } else {
                "another message"
            };
            println!(rt; "{what}: a frame of {length} octets, {came}, next place {next}")?;
        }
    }
    Ok(())
}

// What the message of a frame says.
fn print_said(rt: &HostRuntime, reception: Reception<'_>) -> Result<(), Failure> {
    if let Some(octets) = reception.message() {
        println!(rt; "read: {}", Judgement::of(octets, CLOCK))?;
    }
    Ok(())
}

// A message goes out as a burst, and is heard whole, damaged and cut short.
fn show_line(rt: &HostRuntime) -> Result<(), Failure> {
    let mut octets = [0u8; ROOM];
    let mut work = Vec::from_elem(rt.alloc(), 0u8, frame::WORK_OCTETS)?;
    let heard = loopback(&MESSAGE, &mut octets, work.as_mut_slice())?;
    let length = MESSAGE.len();
    let count = heard.next.saturating_add(CLOSING_BITS);
    println!(rt; "a message of {length} octets: queue track 42, priority 5")?;
    println!(rt; "sent: a burst of {count} tones")?;
    let whole = Reception {
        heard,
        work: work.as_slice(),
    };
    print_heard(rt, "heard", whole)?;
    print_said(rt, whole)?;
    let behind = Reception::new(&octets, count, heard.next, work.as_mut_slice());
    print_heard(rt, "heard behind it", behind)?;
    let half = Reception::new(&octets, count / 2, 0, work.as_mut_slice());
    print_heard(rt, "heard cut in half", half)?;
    octets[DAMAGED_OCTET] ^= DAMAGED_BIT;
    let damaged = Reception::new(&octets, count, 0, work.as_mut_slice());
    print_heard(rt, "heard with one tone damaged", damaged)
}

// Where the pair's mark stands.
fn print_mark(rt: &HostRuntime, pile: &mut Pile, what: &str) -> Result<(), Failure> {
    match pile.call(Call::ReadMark(PAIR)) {
        Reply::Mark(Some(mark)) => {
            let epoch = mark.position.epoch;
            let counter = mark.position.counter;
            println!(rt; "{what}; the mark stands at epoch {epoch}, counter {counter}")?;
        }
        _ => println!(rt; "{what}; there is no mark")?,
    }
    Ok(())
}

// A store of marks over blank cells, with power for two writes.
fn blank(heap: Global, leaves: CutLeaves) -> Result<Pile, Failure> {
    let image = Vec::from_elem(heap, 0u8, CELLS * CELL_OCTETS)?;
    let power = Power {
        on: true,
        charge: 2,
        leaves,
    };
    Ok(Pile::new(Memory::Image(image), power))
}

// How a raise ended, in an operator's words.
// Kept: a script and an operator read words of their own; store_commands.rt has the other table.
fn ending(raised: Raised) -> &'static str {
    match raised {
        Raised::Off => "refused, the power is off",
        Raised::Low => "refused, not above the mark",
        Raised::Full => "refused, no cell is free",
        Raised::Cut => "the power failed in the write",
        Raised::Done => "done",
    }
}

fn show_raise(rt: &HostRuntime, pile: &mut Pile, counter: u64) -> Result<(), Failure> {
    let position = Position {
        epoch: EPOCH,
        counter,
    };
    let mark = Mark {
        position,
        hash: [0; 32],
    };
    if let Reply::Raised(raised) = pile.call(Call::Raise(PAIR, mark)) {
        let ending = ending(raised);
        let what = format!(in rt.alloc(); "raise to counter {counter}: {ending}")?;
        print_mark(rt, pile, what.as_str())?;
    }
    Ok(())
}

// Raises until the power fails in a write, and again once it is back.
fn show_cut(rt: &HostRuntime, name: &str, leaves: CutLeaves) -> Result<(), Failure> {
    println!(rt; "three blank cells, power for two writes; a cut leaves the cell {name}")?;
    let mut pile = blank(rt.alloc(), leaves)?;
    for counter in 105..=108u64 {
        show_raise(rt, &mut pile, counter)?;
    }
    let _ = pile.call(Call::SwitchOn(1));
    print_mark(rt, &mut pile, "switched on for one write")?;
    show_raise(rt, &mut pile, 107)?;
    show_raise(rt, &mut pile, 106)
}

// A floor above a mark.
fn show_floor(rt: &HostRuntime) -> Result<(), Failure> {
    let mut pile = blank(rt.alloc(), CutLeaves::Old)?;
    let _ = pile.lay(EPOCH + 2);
    print_mark(rt, &mut pile, "a floor of epoch 9 on three blank cells")?;
    show_raise(rt, &mut pile, 105)
}

pub fn run(rt: &HostRuntime) -> Result<(), Failure> {
    show_line(rt)?;
    show_cut(rt, "old", CutLeaves::Old)?;
    show_cut(rt, "new", CutLeaves::New)?;
    show_cut(rt, "torn", CutLeaves::Torn)?;
    show_floor(rt)
}
