// Files that are read and written.
use crate::failure::Failure;
use crate::line_commands::BURST_MOST;
use crate::marks_list;
use line::burst;
use std::alloc::Global;
use std::fs::{File, OpenOptions};
use std::io::{Seek, SeekFrom, Write};
use std::{fs, io};
use words::number::number;

// What came of a step on a file; a failure says on which.
pub fn on<T>(heap: Global, path: &str, done: io::Result<T>) -> Result<T, Failure> {
    done.try_map_err(|why| -> Result<Failure, Failure> {
        Ok(Failure::File(String::from_str(heap, path)?, why))
    })
}

// All octets of a file.
pub fn read(rt: &HostRuntime, path: &str) -> Result<Vec<u8>, Failure> {
    on(rt.alloc(), path, fs::read(rt, path))
}

// The track numbers in a file of text, with white space or commas between them.
pub fn read_tracks(rt: &HostRuntime, path: &str) -> Result<Vec<u64>, Failure> {
    let heap = rt.alloc();
    let text = on(heap, path, fs::read_to_string(rt, path))?;
    text.as_str()
        .split(|c: char| c == ',' || c.is_whitespace())
        .filter(|word| !word.is_empty())
        .map(|word| -> Result<u64, Failure> {
            number(word).try_ok_or_else(|| Ok(Failure::NotTrack(String::from_str(heap, word)?)))
        })
        .try_collect(heap)
}

// Opens a file for writing within it.
pub fn open(rt: &HostRuntime, path: &str) -> Result<File, Failure> {
    let mut how = OpenOptions::new();
    how.write(true);
    on(rt.alloc(), path, how.open(rt, path))
}

// Writes octets at a place of a file, and waits until they are there to stay.
pub fn put(file: &mut File, place: u64, octets: &[u8]) -> io::Result<()> {
    file.seek(SeekFrom::Start(place))?;
    file.write_all(octets)?;
    file.sync_all()
}

// Writes the burst of the message in one file into another, and prints the number of its tones.
pub fn write(rt: &HostRuntime, message: &str, burst: &str) -> Result<(), Failure> {
    let heap = rt.alloc();
    let octets = read(rt, message)?;
    let mut out = Vec::from_elem(heap, 0u8, BURST_MOST)?;
    let count = burst::write(octets.as_slice(), out.as_mut_slice())?;
    out.truncate(count.div_ceil(8));
    on(heap, burst, fs::write(rt, burst, out.as_slice()))?;
    println!(rt; "{count} tones")?;
    Ok(())
}

// Prints the marks in the image of a file.
pub fn print_marks(rt: &HostRuntime, image: &str) -> Result<(), Failure> {
    let mut octets = read(rt, image)?;
    marks_list::print(rt, octets.as_mut_slice())
}
