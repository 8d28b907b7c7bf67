// The options of `owac listen`.
use crate::failure::Failure;
use crate::next_word;
use std::env;
use words::number::number;

// What was given so far. Both kinds of sheet are held to the end, since a word behind them may be the first that is wrong.
#[derive(Default, Drop)]
struct Given {
    burst: Option<String>,
    image: Option<String>,
    verdicts: Option<String>,
    tags: Option<String>,
    catalog: Option<String>,
    clock: Option<u64>,
    floor: Option<u64>,
    suspect: bool,
}

// A file with a sheet.
#[derive(Drop)]
pub enum SheetFile {
    Verdicts(String),
    Tags(String),
}

// What to listen to, and by what it is judged.
#[derive(Drop)]
pub struct Options {
    pub burst: String,
    pub image: String,
    pub sheet: SheetFile,
    pub catalog: String,
    pub clock: u64,
    pub floor: Option<u64>,
    pub suspect: bool,
}

// Sets what was not given yet.
fn set<T: Drop>(place: &mut Option<T>, value: T, twice: Failure) -> Result<(), Failure> {
    if place.replace(value).is_some() {
        return Err(twice);
    }
    Ok(())
}

// The number behind an option.
fn next_number(words: &mut env::Args, wanted: &'static str) -> Result<u64, Failure> {
    let word = next_word(words, wanted)?;
    number(word.as_str()).ok_or(Failure::NotNumber(wanted, word))
}

impl Given {
    // Takes one word, with the one behind it where it is an option with a value.
    fn take(&mut self, word: String, words: &mut env::Args) -> Result<(), Failure> {
        // Kept: a table of options would hold places of two types and a flag, and be longer than its uses.
        match word.as_str() {
            "--image" => {
                let path = next_word(words, "--image FILE")?;
                set(&mut self.image, path, Failure::Twice("--image"))
            }
            "--verdicts" => {
                let path = next_word(words, "--verdicts FILE")?;
                set(&mut self.verdicts, path, Failure::Twice("--verdicts"))
            }
            "--tags" => {
                let path = next_word(words, "--tags FILE")?;
                set(&mut self.tags, path, Failure::Twice("--tags"))
            }
            "--catalog" => {
                let path = next_word(words, "--catalog FILE")?;
                set(&mut self.catalog, path, Failure::Twice("--catalog"))
            }
            "--now" => {
                let clock = next_number(words, "--now N")?;
                set(&mut self.clock, clock, Failure::Twice("--now"))
            }
            "--floor" => {
                let epoch = next_number(words, "--floor EPOCH")?;
                set(&mut self.floor, epoch, Failure::Twice("--floor"))
            }
            "--suspect" if self.suspect => Err(Failure::Twice("--suspect")),
            "--suspect" => {
                self.suspect = true;
                Ok(())
            }
            flag if flag.starts_with("--") => Err(Failure::Unknown(word)),
            _ => set(&mut self.burst, word, Failure::Spare),
        }
    }

    fn finish(self) -> Result<Options, Failure> {
        let sheet = match (self.verdicts, self.tags) {
            (Some(path), None) => SheetFile::Verdicts(path),
            (None, Some(path)) => SheetFile::Tags(path),
            (None, None) => return Err(Failure::Missing("--verdicts FILE or --tags FILE")),
            (Some(_), Some(_)) => return Err(Failure::TwoSheets),
        };
        Ok(Options {
            burst: self
                .burst
                .ok_or(Failure::Missing("BURST, the file of a burst"))?,
            image: self.image.ok_or(Failure::Missing("--image FILE"))?,
            sheet,
            catalog: self.catalog.ok_or(Failure::Missing("--catalog FILE"))?,
            clock: self.clock.ok_or(Failure::Missing("--now N"))?,
            floor: self.floor,
            suspect: self.suspect,
        })
    }
}

// Reads the words behind `listen`, in any order.
pub fn read(words: &mut env::Args) -> Result<Options, Failure> {
    let mut given = Given::default();
    // Kept: an option takes the word behind it from the same words, so a `for` over them cannot hold them, and `while let`
    // needs a measure.
    for _ in 0..usize::MAX {
        let Some(word) = words.next() else {
            break;
        };
        given.take(word, words)?;
    }
    given.finish()
}
