// Why a line of a script cannot be carried out.
use std::alloc::AllocError;
use thiserror::Error;

#[derive(Debug, Drop, Error)]
pub enum Unreadable {
    #[error("not text")]
    NotText,
    #[error("unknown word")]
    UnknownWord,
    #[error("a word is missing")]
    MissingWord,
    #[error("too many words")]
    SpareWords,
    #[error("hexadecimal octets wanted")]
    NotHex,
    #[error("{0} octets wanted")]
    WrongLength(usize),
    #[error("a number of 64 bits wanted")]
    NotNumber,
    // the name of an option
    #[error("{0}= wanted")]
    NoOption(&'static str),
    // the words that are known
    #[error("one of {0} wanted")]
    NoChoice(&'static str),
    #[error("a transcript has octets")]
    EmptyTranscript,
    #[error("no image or table yet")]
    NoStore,
    #[error("a floor stands right behind image or table, three at most")]
    MisplacedFloor,
    #[error("not enough memory")]
    NoMemory(#[from(alloc)] AllocError),
}
