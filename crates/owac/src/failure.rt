// Why the program ends with status 1.
use answers::refusal::Refusal;
use std::alloc::AllocError;
use std::io;
use thiserror::Error;

#[derive(Debug, Drop, Error)]
pub enum Failure {
    #[error("unknown word: {0} (owac help lists the words)")]
    Unknown(String),
    // what the command line lacks
    #[error("missing: {0}")]
    Missing(&'static str),
    #[error("too many words")]
    Spare,
    // an option that is given twice
    #[error("{0} is given twice")]
    Twice(&'static str),
    // an option, and a word that is no number
    #[error("{0}: a number of 64 bits wanted, not {1:?}")]
    NotNumber(&'static str, String),
    #[error("--verdicts and --tags exclude each other")]
    TwoSheets,
    // a word in a catalog
    #[error("no track number in the catalog: {0:?}")]
    NotTrack(String),
    // a file that cannot be read or written
    #[error("{0}: {1}")]
    File(String, io::Error),
    #[error("refused {} {}", .0.number(), .0)]
    Refused(#[from] Refusal),
    #[error("not enough memory")]
    Memory(#[from(alloc)] AllocError),
    #[error("standard input or output: {0}")]
    Stream(#[from] io::Error),
}
