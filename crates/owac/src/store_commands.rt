// Commands on a store of marks.
use crate::arguments::Arguments;
use crate::pile::{Call, Memory, Pile, Reply, octets_of};
use crate::receiver_commands::Answered;
use crate::sheet::Sheet;
use crate::shown::YesNo;
use crate::unreadable::Unreadable;
use marks::mark::{Cell, CutLeaves, Mark, Pair, Position, Raised};
use marks::power::Power;
use marks::table::TABLE_CELLS;
use std::fmt;
use words::hex::Hex;

// `power=on|off charge=N cut=old|new|torn`, which ends the line.
fn power(words: &mut Arguments<'_>) -> Result<Power, Unreadable> {
    let on = match words.option("power")? {
        "on" => true,
        "off" => false,
        _ => return Err(Unreadable::NoChoice("on|off")),
    };
    let charge = words.number_option("charge")?;
    let leaves = match words.option("cut")? {
        "old" => CutLeaves::Old,
        "new" => CutLeaves::New,
        "torn" => CutLeaves::Torn,
        _ => return Err(Unreadable::NoChoice("old|new|torn")),
    };
    words.end()?;
    Ok(Power { on, charge, leaves })
}

// `image HEX` and its power.
pub fn image(words: &mut Arguments<'_>) -> Result<Pile, Unreadable> {
    let octets = words.octets()?;
    let power = power(words)?;
    Ok(Pile::new(Memory::Image(octets), power))
}

// `table` and its power.
pub fn table(words: &mut Arguments<'_>) -> Result<Pile, Unreadable> {
    let power = power(words)?;
    Ok(Pile::new(Memory::Table([Cell::Blank; TABLE_CELLS]), power))
}

// `floor EPOCH`
pub fn floor(words: &mut Arguments<'_>) -> Result<u64, Unreadable> {
    let epoch = words.number()?;
    words.end()?;
    Ok(epoch)
}

// `SID KID`
fn pair(words: &mut Arguments<'_>) -> Result<Pair, Unreadable> {
    let sid = words.array::<16>()?;
    let kid = words.array::<16>()?;
    Ok(Pair { sid, kid })
}

// `EPOCH COUNTER`
fn position(words: &mut Arguments<'_>) -> Result<Position, Unreadable> {
    let epoch = words.number()?;
    let counter = words.number()?;
    Ok(Position { epoch, counter })
}

// `EPOCH COUNTER HASH`
fn new_mark(words: &mut Arguments<'_>) -> Result<Mark, Unreadable> {
    let position = position(words)?;
    let hash = words.array::<32>()?;
    Ok(Mark { position, hash })
}

// `raise SID KID EPOCH COUNTER HASH`
fn raise(words: &mut Arguments<'_>) -> Result<Call<'static, Sheet>, Unreadable> {
    let pair = pair(words)?;
    let mark = new_mark(words)?;
    words.end()?;
    Ok(Call::Raise(pair, mark))
}

// `on N`
fn on(words: &mut Arguments<'_>) -> Result<Call<'static, Sheet>, Unreadable> {
    let writes = words.number()?;
    words.end()?;
    Ok(Call::SwitchOn(writes))
}

// `mark SID KID`
fn mark(words: &mut Arguments<'_>) -> Result<Call<'static, Sheet>, Unreadable> {
    let pair = pair(words)?;
    words.end()?;
    Ok(Call::ReadMark(pair))
}

// `room SID KID`
fn room(words: &mut Arguments<'_>) -> Result<Call<'static, Sheet>, Unreadable> {
    let pair = pair(words)?;
    words.end()?;
    Ok(Call::HasRoom(pair))
}

// A call of the store, if the word is for one.
pub fn call(words: &mut Arguments<'_>) -> Result<Option<Call<'static, Sheet>>, Unreadable> {
    // Kept: a table of four words and functions is no shorter.
    match words.command() {
        "raise" => raise(words).map(Some),
        "on" => on(words).map(Some),
        "mark" => mark(words).map(Some),
        "room" => room(words).map(Some),
        _ => Ok(None),
    }
}

// How a raise ended, in a script's word.
// Kept: a script and an operator read words of their own; demonstration.rt has the other table.
fn raised_word(raised: Raised) -> &'static str {
    match raised {
        Raised::Off => "off",
        Raised::Low => "low",
        Raised::Full => "full",
        Raised::Cut => "cut",
        Raised::Done => "done",
    }
}

// A reply as a line.
impl fmt::Display for Reply {
    fn fmt<W: fmt::Write>(&self, f: &mut fmt::Formatter<W>) -> fmt::Result {
        match self {
            Reply::Raised(raised) => write!(f, "raise {}", raised_word(*raised)),
            Reply::On => f.write_str("on"),
            Reply::Mark(None) => f.write_str("mark -"),
            Reply::Mark(Some(mark)) => {
                let Position { epoch, counter } = mark.position;
                write!(f, "mark {epoch} {counter} {}", Hex(&mark.hash))
            }
            Reply::Room(answer) => write!(f, "room {}", YesNo(*answer)),
            Reply::Heard(answer) => write!(f, "{}", Answered(*answer)),
        }
    }
}

// Memory as a line; a table in the layout of an image.
impl fmt::Display for Memory {
    fn fmt<W: fmt::Write>(&self, f: &mut fmt::Formatter<W>) -> fmt::Result {
        match self {
            Memory::Image(octets) => write!(f, "image {}", Hex(octets.as_slice())),
            Memory::Table(cells) => {
                f.write_str("table ")?;
                for cell in cells {
                    write!(f, "{}", Hex(&octets_of(cell)))?;
                }
                Ok(())
            }
        }
    }
}
