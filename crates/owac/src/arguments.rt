// The words of one line of a script.
use crate::unreadable::Unreadable;
use std::alloc::Global;
use std::str::SplitWhitespace;
use words::hex;
use words::number::number;

// Begins a comment.
const COMMENT: char = '#';

// The first word, and those behind it.
#[derive(Drop)]
pub struct Arguments<'a> {
    heap: Global,
    command: &'a str,
    words: SplitWhitespace<'a>,
}

impl<'a> Arguments<'a> {
    // The words of a line up to its comment, if there are any.
    pub fn read(heap: Global, line: &'a str) -> Option<Arguments<'a>> {
        let text = line.split_once(COMMENT).map_or(line, |(before, _)| before);
        let mut words = text.split_whitespace();
        let command = words.next()?;
        Some(Arguments {
            heap,
            command,
            words,
        })
    }

    pub fn heap(&self) -> Global {
        self.heap
    }

    pub fn command(&self) -> &'a str {
        self.command
    }

    pub fn word(&mut self) -> Result<&'a str, Unreadable> {
        self.words.next().ok_or(Unreadable::MissingWord)
    }

    // Octets of any number.
    pub fn octets(&mut self) -> Result<Vec<u8>, Unreadable> {
        hex::octets(self.heap, self.word()?)?.ok_or(Unreadable::NotHex)
    }

    // Exactly N octets.
    pub fn array<const N: usize>(&mut self) -> Result<[u8; N], Unreadable> {
        let octets = self.octets()?;
        <[u8; N]>::try_from(octets.as_slice()).map_err(|_| Unreadable::WrongLength(N))
    }

    pub fn number(&mut self) -> Result<u64, Unreadable> {
        number(self.word()?).ok_or(Unreadable::NotNumber)
    }

    // What stands behind `=` in the option `name`.
    pub fn option(&mut self, name: &'static str) -> Result<&'a str, Unreadable> {
        self.word()?
            .strip_prefix(name)
            .and_then(|rest| rest.strip_prefix('='))
            .ok_or(Unreadable::NoOption(name))
    }

    pub fn number_option(&mut self, name: &'static str) -> Result<u64, Unreadable> {
        number(self.option(name)?).ok_or(Unreadable::NotNumber)
    }

    pub fn size_option(&mut self, name: &'static str) -> Result<usize, Unreadable> {
        Ok(self.number_option(name)? as usize)
    }

    // Nothing more.
    pub fn end(&mut self) -> Result<(), Unreadable> {
        if self.words.next().is_some() {
            return Err(Unreadable::SpareWords);
        }
        Ok(())
    }
}
