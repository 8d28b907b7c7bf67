// The program: a demonstration, a day as an example, scripts of calls, and commands on files.
#![tactic(auto)]

mod arguments;
mod day;
mod demonstration;
mod draft;
mod failure;
mod files;
mod help;
mod job;
mod line_commands;
mod listening;
mod marks_list;
mod message_commands;
mod octet_commands;
mod options;
mod pile;
mod plan;
mod receiver_commands;
mod script;
mod sheet;
mod sheet_commands;
mod shown;
mod store_commands;
mod unreadable;

use crate::failure::Failure;
use std::env;
use std::process::ExitCode;

// One word of the command line, or a failure that says what is wanted.
fn next_word(words: &mut env::Args, wanted: &'static str) -> Result<String, Failure> {
    words.next().ok_or(Failure::Missing(wanted))
}

fn end(words: &mut env::Args) -> Result<(), Failure> {
    if words.next().is_some() {
        return Err(Failure::Spare);
    }
    Ok(())
}

fn write(rt: &HostRuntime, words: &mut env::Args) -> Result<(), Failure> {
    let message = next_word(words, "MESSAGE, the file of a message")?;
    let burst = next_word(words, "BURST, the file to write")?;
    end(words)?;
    files::write(rt, message.as_str(), burst.as_str())
}

fn listen(rt: &HostRuntime, words: &mut env::Args) -> Result<(), Failure> {
    let options = options::read(words)?;
    listening::listen(rt, &options)
}

fn print_marks(rt: &HostRuntime, words: &mut env::Args) -> Result<(), Failure> {
    let image = next_word(words, "IMAGE, the file of an image")?;
    end(words)?;
    files::print_marks(rt, image.as_str())
}

fn print_help(rt: &HostRuntime, words: &mut env::Args) -> Result<(), Failure> {
    let Some(word) = words.next() else {
        return help::print_all(rt);
    };
    end(words)?;
    help::print_word(rt, word.as_str())
}

fn run(rt: &HostRuntime) -> Result<(), Failure> {
    let mut words = env::args(rt)?;
    let _program = words.next();
    let Some(word) = words.next() else {
        return demonstration::run(rt);
    };
    // Kept: a table of words and functions would need one type of function, and a word behind three of these is a fault.
    match word.as_str() {
        "script" => {
            end(&mut words)?;
            script::run(rt)
        }
        "day" => {
            end(&mut words)?;
            day::run_day(rt)
        }
        "write" => write(rt, &mut words),
        "listen" => listen(rt, &mut words),
        "marks" => print_marks(rt, &mut words),
        "help" => print_help(rt, &mut words),
        _ => Err(Failure::Unknown(word)),
    }
}

fn main(rt: HostRuntime) -> ExitCode {
    match run(&rt) {
        Ok(()) => ExitCode::SUCCESS,
        Err(failure) => {
            let _ = eprintln!(rt; "owac: {failure}");
            ExitCode::FAILURE
        }
    }
}
