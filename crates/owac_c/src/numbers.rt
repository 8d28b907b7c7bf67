// What the host's numbers mean, and what is answered, as numbers.
// Kept: C reads and hands in numbers, so kinds, flags and refusals are numbers on its side of these conversions.
ghost use Rattle.std.specs.Prelude.{◌≡◌};
ghost use Rattle.owac_c.specs.Numbers.{heard_as, written_as};
ghost use Rattle.owac_c.specs.Supplies.{option_in, option_as, supply_in, supply_as, listening_in, leaves_in, leaves_as};
ghost use Rattle.owac_c.specs.Answers.{command_as, answer_as, mark_as, mark_numbers, pair_as, pair_in, bare_as, text_command};

use crate::answer::{HeardFrame, OwacAnswer, OwacCommand, OwacSpan, WrittenBurst};
use crate::host::{OwacListening, OwacMark, OwacOptional, OwacPair, OwacSupply};
use answers::refusal::Refusal;
use commands::types::Command;
use hosts::supply::Supply;
use items::types::Span;
use judging::answer::{Answer, Listening, Verdict};
use line::heard::{Heard, Hearing};
use marks::mark::{CutLeaves, Mark, Pair};
use marks::power::Power;

impl From<OwacOptional> for Option<u64> {
    ghost from_gives = { λ number read. read ≡ option_in number };

    fn from(number: OwacOptional) -> Option<u64> {
        (number.given != 0).then_some(number.value)
    }
}

impl From<Option<u64>> for OwacOptional {
    ghost from_gives = { λ number told. told ≡ option_as number };

    fn from(number: Option<u64>) -> OwacOptional {
        match number {
            None => OwacOptional::default(),
            Some(value) => OwacOptional { value, given: 1 },
        }
    }
}

// Kept: neither an octet nor CutLeaves is this crate's, so no From can stand between them.
fn leaves_in(number: u8) -> CutLeaves
    ensures { result ≡ leaves_in number }
{
    match number {
        0 => CutLeaves::Old,
        1 => CutLeaves::New,
        _ => CutLeaves::Torn,
    }
}

fn leaves_as(leaves: CutLeaves) -> u8
    ensures { result ≡ leaves_as leaves }
{
    leaves as u8
}

impl From<&OwacSupply> for Supply {
    ghost from_gives = { λ kept supply. supply ≡ supply_in kept.now };

    fn from(kept: &OwacSupply) -> Supply {
        let power = Power {
            on: kept.on != 0,
            charge: kept.charge,
            leaves: leaves_in(kept.leaves),
        };
        Supply {
            power,
            last: Option::<u64>::from(kept.last).map(|place| place as usize),
            floor: kept.floor.into(),
        }
    }
}

impl From<Supply> for OwacSupply {
    ghost from_gives = { λ supply kept. kept ≡ supply_as supply };

    fn from(supply: Supply) -> OwacSupply {
        OwacSupply {
            charge: supply.power.charge,
            last: supply.last.map(|place| place as u64).into(),
            floor: supply.floor.into(),
            on: u8::from(supply.power.on),
            leaves: leaves_as(supply.power.leaves),
        }
    }
}

impl From<&OwacListening> for Listening {
    ghost from_gives = { λ given listening. listening ≡ listening_in given.now };

    fn from(given: &OwacListening) -> Listening {
        Listening {
            count: given.count,
            start: given.start,
            clock: given.clock,
            suspect: given.suspect != 0,
        }
    }
}

impl From<&OwacPair> for Pair {
    ghost from_gives = { λ given pair. pair ≡ pair_in given.now };

    fn from(given: &OwacPair) -> Pair {
        Pair {
            sid: given.sid,
            kid: given.kid,
        }
    }
}

impl From<Pair> for OwacPair {
    ghost from_gives = { λ pair told. told ≡ pair_as pair };

    fn from(pair: Pair) -> OwacPair {
        let Pair { sid, kid } = pair;
        OwacPair { sid, kid }
    }
}

impl From<Mark> for OwacMark {
    ghost from_gives = { λ mark told. told ≡ mark_numbers mark };

    fn from(mark: Mark) -> OwacMark {
        let Mark { position, hash } = mark;
        OwacMark {
            epoch: position.epoch,
            counter: position.counter,
            hash,
        }
    }
}

// A mark, or all 0 where there is none.
impl From<Option<Mark>> for OwacMark {
    ghost from_gives = { λ found told. told ≡ mark_as found };

    fn from(found: Option<Mark>) -> OwacMark {
        match found {
            None => OwacMark::default(),
            Some(mark) => mark.into(),
        }
    }
}

// A command with the text that the numbers tell, if they do.
// Kept: the definition by which `owac_text` promises its text takes a command without one, `Next`, where the numbers tell none. An
// Option would be opened again by the one caller, to the same empty text.
pub(crate) fn text_command(told: &OwacCommand) -> Command
    ensures { result ≡ text_command told.now }
{
    if told.kind == 20 {
        Command::Text {
            target: told.target,
            mode: told.mode,
            text: Span {
                start: told.text.start,
                len: told.text.length,
            },
        }
    } else {
        Command::Next
    }
}

impl From<Command> for OwacCommand {
    ghost from_gives = { λ command told. told ≡ command_as command };

    fn from(command: Command) -> OwacCommand {
        let none = OwacCommand::default();
        match command {
            Command::Heartbeat { time } => OwacCommand {
                kind: 0,
                time: time.into(),
                ..none
            },
            Command::Queue {
                track,
                priority,
                earliest,
                until,
            } => OwacCommand {
                kind: 1,
                track,
                priority,
                earliest: earliest.into(),
                until: until.into(),
                ..none
            },
            Command::Suggest { track, weight } => OwacCommand {
                kind: 2,
                track,
                weight,
                ..none
            },
            Command::Remove { item } => OwacCommand {
                kind: 3,
                item,
                ..none
            },
            Command::State { state } => OwacCommand {
                kind: 10,
                state,
                ..none
            },
            Command::Seek { milliseconds } => OwacCommand {
                kind: 11,
                milliseconds,
                ..none
            },
            Command::Rate { percent } => OwacCommand {
                kind: 12,
                percent,
                ..none
            },
            Command::Next => OwacCommand { kind: 13, ..none },
            Command::Previous => OwacCommand { kind: 14, ..none },
            Command::Text { target, mode, text } => OwacCommand {
                kind: 20,
                target,
                mode,
                text: OwacSpan {
                    start: text.start,
                    length: text.len,
                },
                ..none
            },
        }
    }
}

// An answer that has its kind, its refusal's number and its next place alone.
fn bare(kind: u8, refusal: u8, next: usize) -> OwacAnswer
    ensures { result ≡ bare_as kind refusal next }
{
    OwacAnswer {
        kind,
        refusal,
        next,
        ..OwacAnswer::default()
    }
}

impl From<Answer> for OwacAnswer {
    ghost from_gives = { λ answer told. told ≡ answer_as answer };

    fn from(answer: Answer) -> OwacAnswer {
        match answer.verdict {
            Verdict::Quiet => bare(0, 0, answer.next),
            Verdict::Duplicate => bare(1, 0, answer.next),
            Verdict::Refused(refusal) => bare(2, refusal.number(), answer.next),
            Verdict::Released(release) => OwacAnswer {
                kind: 3,
                refusal: 0,
                next: answer.next,
                length: release.length,
                pair: release.pair.into(),
                mark: release.mark.into(),
                command: release.command.into(),
            },
        }
    }
}

impl From<Result<usize, Refusal>> for WrittenBurst {
    ghost from_gives = { λ written told. told ≡ written_as written };

    fn from(written: Result<usize, Refusal>) -> WrittenBurst {
        match written {
            Ok(count) => WrittenBurst { answer: 0, count },
            Err(refusal) => WrittenBurst {
                answer: refusal.number(),
                count: 0,
            },
        }
    }
}

impl From<Heard> for HeardFrame {
    ghost from_gives = { λ heard told. told ≡ heard_as heard };

    fn from(heard: Heard) -> HeardFrame {
        let next = heard.next;
        match heard.hearing {
            Hearing::Quiet => HeardFrame {
                answer: 100,
                next,
                length: 0,
            },
            Hearing::Refused(refusal) => HeardFrame {
                answer: refusal.number(),
                next,
                length: 0,
            },
            Hearing::Frame(length) => HeardFrame {
                answer: 0,
                next,
                length,
            },
        }
    }
}
