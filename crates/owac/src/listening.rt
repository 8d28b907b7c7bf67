// `owac listen`: a burst from a file, heard from place to place, with the marks in an image file.
use crate::failure::Failure;
use crate::files;
use crate::job::Job;
use crate::line_commands::Reception;
use crate::options::{Options, SheetFile};
use crate::pile::{CELL_OCTETS, Call, Memory, Pile, Reply};
use crate::sheet::Sheet;
use answers::refusal::Refusal;
use judging::answer::{Answer, Lent, Listening, Verdict};
use line::frame;
use marks::mark::CutLeaves;
use marks::power::Power;
use std::fmt;
use std::fs::File;

// Ample power.
const POWER: Power = Power {
    on: true,
    charge: u64::MAX,
    leaves: CutLeaves::Old,
};

// What is listened to, and by what it is judged.
#[derive(Drop)]
struct Scene<'a> {
    options: &'a Options,
    burst: Vec<u8>,
    sheet: Sheet,
    catalog: Vec<u64>,
}

// The marks, and the file that they are put back into.
#[derive(Drop)]
struct Marks<'a> {
    pile: Pile,
    path: &'a str,
    file: File,
}

// How often each kind of answer came.
#[derive(Clone, Copy, Default)]
struct Tally {
    released: u64,
    duplicate: u64,
    refused: u64,
}

impl Tally {
    fn count(&mut self, decided: &Decided<'_>) {
        let count = match decided {
            Decided::Refused(_) => &mut self.refused,
            Decided::Duplicate(_) => &mut self.duplicate,
            Decided::Released(_) => &mut self.released,
        };
        *count = count.saturating_add(1);
    }
}

impl fmt::Display for Tally {
    fn fmt<W: fmt::Write>(&self, f: &mut fmt::Formatter<W>) -> fmt::Result {
        let Tally {
            released,
            duplicate,
            refused,
        } = self;
        write!(
            f,
            "{released} released, {duplicate} duplicate, {refused} refused"
        )
    }
}

impl<'s> Scene<'s> {
    fn open(rt: &HostRuntime, options: &'s Options) -> Result<Scene<'s>, Failure> {
        let sheet = match &options.sheet {
            SheetFile::Verdicts(path) => Sheet::Verdicts(files::read(rt, path.as_str())?),
            SheetFile::Tags(path) => Sheet::Tags(files::read(rt, path.as_str())?),
        };
        Ok(Scene {
            options,
            burst: files::read(rt, options.burst.as_str())?,
            sheet,
            catalog: files::read_tracks(rt, options.catalog.as_str())?,
        })
    }

    // All octets of the file are tones, 8 each.
    fn tones(&self) -> usize {
        self.burst.len().saturating_mul(8)
    }

    // What a listening from a place on is lent.
    fn lent(&self, start: usize) -> Lent<'_, Sheet> {
        Lent {
            verifier: &self.sheet,
            burst: self.burst.as_slice(),
            listening: Listening {
                count: self.tones(),
                start,
                clock: self.options.clock,
                suspect: self.options.suspect,
            },
            catalog: self.catalog.as_slice(),
        }
    }

    // The job of the frame at or after a place, once more from the line.
    fn job<'a>(&self, start: usize, work: &'a mut [u8]) -> Option<Job<'a>> {
        Job::read(Reception::new(self.burst.as_slice(), self.tones(), start, work).message()?)
    }

    // What was decided on the frame at or after a place; none if it is quiet.
    fn decided<'a>(
        &self,
        start: usize,
        verdict: Verdict,
        work: &'a mut [u8],
    ) -> Option<Decided<'a>> {
        match verdict {
            Verdict::Quiet => None,
            Verdict::Refused(refusal) => Some(Decided::Refused(refusal)),
            Verdict::Duplicate => Some(Decided::Duplicate(self.job(start, work))),
            Verdict::Released(release) => Some(Decided::Released(Job::of(release, work))),
        }
    }
}

impl Marks<'_> {
    // Puts the cell that was written last back into the file.
    fn put_back(&mut self, rt: &HostRuntime) -> Result<(), Failure> {
        let Some(cell) = self.pile.written_last() else {
            return Ok(());
        };
        let Some(octets) = self.pile.octets_at(cell) else {
            return Ok(());
        };
        let place = cell.saturating_mul(CELL_OCTETS) as u64;
        files::on(
            rt.alloc(),
            self.path,
            files::put(&mut self.file, place, octets),
        )
    }
}

// What was decided on a frame, as the end of a row of the table.
#[derive(Clone, Copy)]
enum Decided<'a> {
    Refused(Refusal),
    Duplicate(Option<Job<'a>>),
    Released(Job<'a>),
}

impl fmt::Display for Decided<'_> {
    fn fmt<W: fmt::Write>(&self, f: &mut fmt::Formatter<W>) -> fmt::Result {
        match self {
            Decided::Refused(refusal) => write!(f, "{:>6}  {refusal}", refusal.number()),
            Decided::Duplicate(None) => f.write_str("     -  DUPLICATE"),
            Decided::Duplicate(Some(job)) => write!(f, "     -  DUPLICATE           {job}"),
            Decided::Released(job) => write!(f, "     -  RELEASED            {job}"),
        }
    }
}

// Listens until the burst is quiet, and puts each mark back before its job is printed.
fn listen_on(rt: &HostRuntime, scene: &Scene<'_>, marks: &mut Marks<'_>) -> Result<Tally, Failure> {
    let mut tally = Tally::default();
    let mut work = Vec::from_elem(rt.alloc(), 0u8, frame::WORK_OCTETS)?;
    let mut start = 0;
    // Kept: each place comes of the answer before it, and `while` would need a measure.
    for _ in 0..usize::MAX {
        let call = Call::Listen(scene.lent(start));
        let reply = marks.pile.carry_out(call, work.as_mut_slice());
        let Reply::Heard(Answer { verdict, next }) = reply else {
            break;
        };
        let Some(decided) = scene.decided(start, verdict, work.as_mut_slice()) else {
            break;
        };
        if let Decided::Released(_) = decided {
            marks.put_back(rt)?;
        }
        tally.count(&decided);
        println!(rt; "{start:>9}  {next:>9}  {decided}")?;
        if next <= start {
            break;
        }
        start = next;
    }
    Ok(tally)
}

// Listens to a burst, and prints what was decided on each of its frames.
pub fn listen(rt: &HostRuntime, options: &Options) -> Result<(), Failure> {
    let scene = Scene::open(rt, options)?;
    let path = options.image.as_str();
    let image = files::read(rt, path)?;
    let file = files::open(rt, path)?;
    let mut pile = Pile::new(Memory::Image(image), POWER);
    if let Some(epoch) = options.floor {
        let _ = pile.lay(epoch);
    }
    let mut marks = Marks { pile, path, file };
    rt.println("    place       next  number  answer              job")?;
    let tally = listen_on(rt, &scene, &mut marks)?;
    println!(rt; "{tally}")?;
    Ok(())
}
