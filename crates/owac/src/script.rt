// Scripts: one call a line, and one line printed for each call that answers.
ghost use Rattle.owac.specs.Scripts.{KeptUnread};

use crate::arguments::Arguments;
use crate::failure::Failure;
use crate::line_commands::WORK_MOST;
use crate::pile::{Call, Pile, Reply};
use crate::receiver_commands::Heed;
use crate::sheet::Sheet;
use crate::unreadable::Unreadable;
use crate::{
    line_commands, message_commands, octet_commands, receiver_commands, sheet_commands,
    store_commands,
};
use commands::types::Command;
use judging::answer::Lent;
use std::alloc::Global;
use std::fmt;
use std::io::{BufRead, BufReader, BufWriter, Write};
use std::str::from_utf8;
use words::hex::Hex;

// A command that was released, and the work buffer with its message.
#[derive(Drop)]
struct Released {
    command: Command,
    work: Vec<u8>,
}

// The store that the lines of a script call.
#[derive(Drop)]
struct Standing {
    pile: Pile,
    // whether a floor may be laid now
    laying: bool,
    // the last release since the store was made
    released: Option<Released>,
}

// What stands between the lines of a script.
#[derive(Drop)]
pub struct Script {
    heap: Global,
    standing: Option<Standing>,
    sheet: Sheet,
    catalog: Vec<u64>,
}

// What a line that was carried out is answered.
#[derive(Drop)]
pub enum Answer {
    Text(String),
    Store(Reply),
}

impl fmt::Display for Answer {
    fn fmt<W: fmt::Write>(&self, f: &mut fmt::Formatter<W>) -> fmt::Result {
        match self {
            Answer::Text(text) => f.write_str(text.as_str()),
            Answer::Store(reply) => write!(f, "{reply}"),
        }
    }
}

impl Script {
    pub fn new(heap: Global) -> Script {
        Script {
            heap,
            standing: None,
            sheet: Sheet::Verdicts(Vec::new(heap)),
            catalog: Vec::new(heap),
        }
    }

    // Carries out one line, and gives its answer if it has one. A line that cannot be read changes nothing.
    pub fn answer(&mut self, line: &[u8]) -> Result<Option<Answer>, Unreadable>
        ensures { KeptUnread result self.old self.new }
    {
        let text = from_utf8(line).map_err(|_| Unreadable::NotText)?;
        let Some(mut words) = Arguments::read(self.heap, text) else {
            return Ok(None);
        };
        // Kept: a table of words and functions would need one type of function, and these read and change different things.
        match words.command() {
            "image" => self.make(store_commands::image(&mut words)?),
            "table" => self.make(store_commands::table(&mut words)?),
            "floor" => self.lay(store_commands::floor(&mut words)?)?,
            "verdicts" => self.use_sheet(sheet_commands::verdicts(&mut words)?),
            "tags" => self.use_sheet(sheet_commands::tags(&mut words)?),
            "catalog" => self.use_catalog(receiver_commands::catalog(&mut words)?),
            "listen" => return self
                .listen(receiver_commands::listen(&mut words)?)
                .map(Some),
            _ => return self.reply(&mut words).map(Some),
        }
        Ok(None)
    }

    // Carries out a command that prints a line.
    fn reply(&mut self, words: &mut Arguments<'_>) -> Result<Answer, Unreadable>
        ensures { KeptUnread result self.old self.new }
    {
        match store_commands::call(words)? {
            Some(call) => self.carry_out(call),
            None => {
                let text = self.text(words)?;
                self.end_laying();
                Ok(Answer::Text(text))
            }
        }
    }

    // The line printed by a command that changes no store.
    fn text(&self, words: &mut Arguments<'_>) -> Result<String, Unreadable> {
        // Kept: a table of words and functions would need one type of function, and four of these read the script too.
        match words.command() {
            "fcs" => line_commands::fcs(words),
            "write" => line_commands::write(words),
            "hear" => line_commands::hear(words),
            "sha" => octet_commands::sha(words),
            "utf8" => octet_commands::utf8(words),
            "read" => message_commands::read(words),
            "judge" => message_commands::judge(words),
            "fields" => message_commands::fields(words),
            "dump" => self.dump(words),
            "text" => self.released_text(words),
            "known" => sheet_commands::known(words, &self.sheet),
            "good" => sheet_commands::good(words, &self.sheet),
            _ => Err(Unreadable::UnknownWord),
        }
    }

    // No more floors may be laid.
    fn end_laying(&mut self) {
        if let Some(standing) = &mut self.standing {
            standing.laying = false;
        }
    }

    // A store anew.
    fn make(&mut self, pile: Pile) {
        self.standing = Some(Standing {
            pile,
            laying: true,
            released: None,
        });
    }

    // A floor on a store that was just made.
    fn lay(&mut self, epoch: u64) -> Result<(), Unreadable>
        ensures { KeptUnread result self.old self.new }
    {
        match &mut self.standing {
            Some(standing) if standing.laying => {
                standing
                    .pile
                    .lay(epoch)
                    .map_err(|_| Unreadable::MisplacedFloor)
            }
            _ => Err(Unreadable::MisplacedFloor),
        }
    }

    // The sheet for the calls that follow.
    fn use_sheet(&mut self, sheet: Sheet) {
        self.sheet = sheet;
        self.end_laying();
    }

    // The track numbers for the calls that follow.
    fn use_catalog(&mut self, catalog: Vec<u64>) {
        self.catalog = catalog;
        self.end_laying();
    }

    fn carry_out(&mut self, call: Call<'_, Sheet>) -> Result<Answer, Unreadable>
        ensures { KeptUnread result self.old self.new }
    {
        let standing = self.standing.as_mut().ok_or(Unreadable::NoStore)?;
        standing.laying = false;
        Ok(Answer::Store(standing.pile.call(call)))
    }

    fn listen(&mut self, heed: Heed) -> Result<Answer, Unreadable>
        ensures { KeptUnread result self.old self.new }
    {
        let standing = self.standing.as_mut().ok_or(Unreadable::NoStore)?;
        let mut work = Vec::from_elem(self.heap, 0u8, heed.work.min(WORK_MOST))?;
        let lent = Lent {
            verifier: &self.sheet,
            burst: heed.burst.as_slice(),
            listening: heed.listening,
            catalog: self.catalog.as_slice(),
        };
        standing.laying = false;
        let reply = standing
            .pile
            .carry_out(Call::Listen(lent), work.as_mut_slice());
        if let Some(command) = reply.released() {
            standing.released = Some(Released { command, work });
        }
        Ok(Answer::Store(reply))
    }

    // The text of the last release.
    fn released_text(&self, words: &mut Arguments<'_>) -> Result<String, Unreadable> {
        words.end()?;
        let released = self
            .standing
            .as_ref()
            .and_then(|standing| standing.released.as_ref());
        let text = match released {
            Some(released) => commands::text(released.work.as_slice(), &released.command),
            None => &[],
        };
        Ok(format!(in self.heap; "text {}", Hex(text))?)
    }

    fn dump(&self, words: &mut Arguments<'_>) -> Result<String, Unreadable> {
        words.end()?;
        let standing = self.standing.as_ref().ok_or(Unreadable::NoStore)?;
        Ok(format!(in self.heap; "{}", standing.pile.memory())?)
    }
}

// Reads a script from standard input, line by line, and prints its answers.
pub fn run(rt: &HostRuntime) -> Result<(), Failure> {
    let heap = rt.alloc();
    let mut script = Script::new(heap);
    let mut out = BufWriter::new(heap, rt.stdout())?;
    let lines = BufReader::new(heap, rt.stdin())?.split(heap, b'\n');
    for (number, line) in (1..=u64::MAX).zip(lines) {
        match script.answer(line?.as_slice()) {
            Ok(Some(answer)) => writeln!(out, "{answer}")?,
            Ok(None) => {}
            Err(what) => writeln!(out, "error {number} {what}")?,
        }
        out.flush()?;
    }
    Ok(())
}
