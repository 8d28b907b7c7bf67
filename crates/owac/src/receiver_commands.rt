// Commands on a receiver: the catalog, and listening.
use crate::arguments::Arguments;
use crate::shown::{Asked, Brief};
use crate::unreadable::Unreadable;
use commands::types::Request;
use judging::answer::{Answer, Listening, Release, Verdict};
use marks::mark::Record;
use std::fmt;
use words::number::number;

// A listening, with its burst and the octets of its work buffer.
#[derive(Drop)]
pub struct Heed {
    pub burst: Vec<u8>,
    pub listening: Listening,
    pub work: usize,
}

// `listen HEX count=N start=N now=N suspect=yes|no work=N`
pub fn listen(words: &mut Arguments<'_>) -> Result<Heed, Unreadable> {
    let burst = words.octets()?;
    let count = words.size_option("count")?;
    let start = words.size_option("start")?;
    let clock = words.number_option("now")?;
    let suspect = match words.option("suspect")? {
        "yes" => true,
        "no" => false,
        _ => return Err(Unreadable::NoChoice("yes|no")),
    };
    let work = words.size_option("work")?;
    words.end()?;
    let listening = Listening {
        count,
        start,
        clock,
        suspect,
    };
    Ok(Heed {
        burst,
        listening,
        work,
    })
}

// `catalog N,N,..` or `catalog -`
pub fn catalog(words: &mut Arguments<'_>) -> Result<Vec<u64>, Unreadable> {
    let list = words.word()?;
    words.end()?;
    let heap = words.heap();
    if list == "-" {
        return Ok(Vec::new(heap));
    }
    list.split(',')
        .map(|word| number(word).ok_or(Unreadable::NotNumber))
        .try_collect(heap)
}

// An answer as a line.
#[derive(Clone, Copy)]
pub struct Answered(pub Answer);

impl fmt::Display for Answered {
    fn fmt<W: fmt::Write>(&self, f: &mut fmt::Formatter<W>) -> fmt::Result {
        let Answer { verdict, next } = self.0;
        match verdict {
            Verdict::Quiet => write!(f, "quiet next={next}"),
            Verdict::Duplicate => write!(f, "duplicate next={next}"),
            Verdict::Refused(refusal) => write!(f, "refused {} next={next}", refusal.number()),
            Verdict::Released(release) => write!(f, "released next={next} {}", brief(release)),
        }
    }
}

// What is released. The tracks of a command are numbers, so it needs no octets.
fn brief(release: Release) -> Brief<'static> {
    let Release {
        pair,
        mark,
        length,
        command,
    } = release;
    Brief {
        record: Record { mark, pair },
        length,
        asked: Asked {
            request: Request::from(command),
            octets: &[],
        },
    }
}
