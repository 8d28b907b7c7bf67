// A day's work at a playout house. Jobs go out as bursts and are heard by a
// receiver, whose marks lie in an image, through a power cut and under a floor.
use crate::draft::Draft;
use crate::failure::Failure;
use crate::job::Job;
use crate::line_commands::BURST_MOST;
use crate::pile::CELL_OCTETS;
use crate::plan::{Event, Line, Step, Time};
use crate::sheet::Sheet;
use crate::{marks_list, plan};
use journal::floor::Floor;
use journal::journal::Journal;
use judging::answer::{Lent, Listening, Verdict};
use line::frame;
use line_laws::loopback::loopback;
use marks::cells::Cells;
use marks::image::ImageCells;
use marks::mark::CutLeaves;
use marks::power::Power;
use marks::store::Store;
use receiver::call::{Call, Reply};
use receiver::receiver::Receiver;
use receiver::run;
use std::alloc::{AllocError, Global};
use std::fmt;
use verdicts::Verifier;

// The cells of the image.
const CELLS: usize = 3;

// The writes that the power lasts in the morning.
const CHARGE: u64 = 4;

// The epoch of the evening's floor.
const FLOOR: u64 = 8;

// The tones of the closing flag.
const FLAG_TONES: usize = 8;

// A tone in the body of every burst.
const DAMAGED_OCTET: usize = 60;

const DAMAGED_BIT: u8 = 0x10;

// A burst on the line, and the message that it comes of.
#[derive(Drop)]
struct Burst {
    message: Vec<u8>,
    octets: Vec<u8>,
    count: usize,
    suspect: bool,
}

impl Burst {
    // The workstation hears its own burst before it goes out.
    fn new(heap: Global, draft: &Draft, line: Line) -> Result<Burst, Failure> {
        let message = draft.message(heap, &plan::SENDER)?;
        let mut octets = Vec::from_elem(heap, 0u8, BURST_MOST)?;
        let mut work = Vec::from_elem(heap, 0u8, frame::WORK_OCTETS)?;
        let heard = loopback(
            message.as_slice(),
            octets.as_mut_slice(),
            work.as_mut_slice(),
        )?;
        let count = heard.next.saturating_add(FLAG_TONES);
        octets.truncate(count.div_ceil(8));
        if line == Line::Damaged {
            if let Some(octet) = octets.get_mut(DAMAGED_OCTET) {
                *octet ^= DAMAGED_BIT;
            }
        }
        Ok(Burst {
            message,
            octets,
            count,
            suspect: line == Line::Doubted,
        })
    }
}

// What a step brings to the receiver.
#[derive(Drop)]
enum Coming {
    Burst(Burst),
    // power for so many writes
    PowerBack(u64),
}

// What comes, and when.
#[derive(Drop)]
struct Arrival {
    at: Time,
    coming: Coming,
    note: &'static str,
}

impl Arrival {
    fn new(heap: Global, step: &Step) -> Result<Arrival, Failure> {
        let coming = match &step.event {
            Event::Job(draft, line) => Coming::Burst(Burst::new(heap, draft, *line)?),
            Event::PowerBack(writes) => Coming::PowerBack(*writes),
        };
        Ok(Arrival {
            at: step.at,
            coming,
            note: step.note,
        })
    }

    // The call that it makes.
    fn call<'a, V>(&'a self, verifier: &'a V) -> Call<'a, V> {
        match &self.coming {
            Coming::PowerBack(writes) => Call::SwitchOn(*writes),
            Coming::Burst(burst) => Call::Listen {
                lent: Lent {
                    verifier,
                    burst: burst.octets.as_slice(),
                    listening: Listening {
                        count: burst.count,
                        start: 0,
                        clock: self.at.clock(),
                        suspect: burst.suspect,
                    },
                    catalog: &plan::CATALOG,
                },
                work: frame::WORK_OCTETS,
            },
        }
    }

    // The job that comes, if it can be read.
    fn job(&self) -> Option<Job<'_>> {
        match &self.coming {
            Coming::Burst(burst) => Job::read(burst.message.as_slice()),
            Coming::PowerBack(_) => None,
        }
    }

    // Prints it in an operator's words, with what was replied.
    fn print(&self, rt: &HostRuntime, reply: Reply) -> Result<(), Failure> {
        let Time { hour, minute } = self.at;
        // a text of its own, since a width is for texts
        let came = format!(in rt.alloc(); "{self}")?;
        let decided = Decided(reply);
        println!(rt; "{hour:02}:{minute:02}  {came:<86}  {decided}")?;
        Ok(())
    }
}

impl fmt::Display for Arrival {
    fn fmt<W: fmt::Write>(&self, f: &mut fmt::Formatter<W>) -> fmt::Result {
        if let Some(job) = self.job() {
            write!(f, "{job}")?;
        }
        f.write_str(self.note)
    }
}

// What was decided.
#[derive(Clone, Copy)]
struct Decided(Reply);

impl fmt::Display for Decided {
    fn fmt<W: fmt::Write>(&self, f: &mut fmt::Formatter<W>) -> fmt::Result {
        let Reply::Heard(answer) = self.0 else {
            return f.write_str("on");
        };
        match answer.verdict {
            Verdict::Quiet => f.write_str("quiet"),
            Verdict::Duplicate => f.write_str("DUPLICATE"),
            Verdict::Refused(refusal) => write!(f, "refused {} {refusal}", refusal.number()),
            Verdict::Released(_) => f.write_str("RELEASED"),
        }
    }
}

// Adds the rows of the tags that are on the sheet.
fn push_rows(heap: Global, rows: &mut Vec<u8>, steps: &[Step]) -> Result<(), AllocError> {
    for draft in steps.iter().filter_map(Step::listed) {
        let octets = draft.message(heap, &plan::SENDER)?;
        if let Ok(message) = message::read(octets.as_slice()) {
            rows.extend_from_slice(&draft.kid)?;
            rows.extend_from_slice(&message.transcript().digest())?;
            rows.extend_from_slice(&draft.tag)?;
        }
    }
    Ok(())
}

// The calls that all that comes makes.
fn calls_of<'a, V>(
    heap: Global,
    arrivals: &'a [Arrival],
    verifier: &'a V,
) -> Result<Vec<Call<'a, V>>, AllocError> {
    let mut calls = Vec::new(heap);
    // Kept: in a chain the closure would hand out what borrows the item and the verifier, and no proof is made of it.
    for arrival in arrivals {
        calls.push(arrival.call(verifier))?;
    }
    Ok(calls)
}

// The replies to those calls, which are carried out in one run.
fn replies_to<'a, S: Store, V: Verifier>(
    heap: Global,
    receiver: &mut Receiver<S>,
    arrivals: &'a [Arrival],
    verifier: &'a V,
) -> Result<Vec<Reply>, AllocError> {
    let calls = calls_of(heap, arrivals, verifier)?;
    let mut replies = Vec::from_elem(heap, Reply::On, calls.len())?;
    let mut work = Vec::from_elem(heap, 0u8, frame::WORK_OCTETS)?;
    let _ = run::run(
        receiver,
        calls.as_slice(),
        work.as_mut_slice(),
        replies.as_mut_slice(),
    );
    Ok(replies)
}

// Lets the steps come, and prints each with its reply.
fn play<S: Store>(
    rt: &HostRuntime,
    receiver: &mut Receiver<S>,
    sheet: &Sheet,
    steps: &[Step],
) -> Result<(), Failure> {
    let heap = rt.alloc();
    let arrivals: Vec<Arrival> = steps
        .iter()
        .map(|step| Arrival::new(heap, step))
        .try_collect(heap)?;
    let replies = replies_to(heap, receiver, arrivals.as_slice(), sheet)?;
    for (arrival, reply) in arrivals.iter().zip(replies.iter()) {
        arrival.print(rt, *reply)?;
    }
    Ok(())
}

// The steps until the floor is raised.
fn early(heap: Global) -> Result<Vec<Step>, AllocError> {
    let mut steps = Vec::new(heap);
    steps.extend_from_slice(&plan::morning())?;
    steps.extend_from_slice(&plan::noon())?;
    Ok(steps)
}

pub fn run_day(rt: &HostRuntime) -> Result<(), Failure> {
    let heap = rt.alloc();
    let early = early(heap)?;
    let evening = plan::evening();
    let mut rows = Vec::new(heap);
    push_rows(heap, &mut rows, early.as_slice())?;
    push_rows(heap, &mut rows, &evening)?;
    let sheet = Sheet::Tags(rows);
    let mut image = Vec::from_elem(heap, 0u8, CELLS * CELL_OCTETS)?;
    println!(rt;
        "A day at a playout house: {CELLS} cells for marks, power for {CHARGE} writes, a cut tears the cell"
    )?;
    let power = Power {
        on: true,
        charge: CHARGE,
        leaves: CutLeaves::Torn,
    };
    let cells = ImageCells::new(image.as_mut_slice(), power);
    let mut receiver = Receiver::new(Journal::new(cells));
    play(rt, &mut receiver, &sheet, early.as_slice())?;
    println!(rt; "18:00  the floor is raised to epoch {FLOOR}")?;
    let mut receiver = Receiver::new(Floor::new(receiver.into_store(), FLOOR));
    play(rt, &mut receiver, &sheet, &evening)?;
    rt.println("The image at midnight:")?;
    let image = receiver.into_store().into_store().into_cells().into_image();
    marks_list::print(rt, image)
}
