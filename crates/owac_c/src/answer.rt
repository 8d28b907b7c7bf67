// What the calls answer, as plain numbers.
// Kept: kinds and refusals are numbers here, each struct with room for what any kind has, since C knows no enum with fields.
use crate::host::{OwacMark, OwacOptional, OwacPair};

// `answer` is 0 for a frame, 100 for quiet, or a refusal's number; `length` counts a frame's octets, its FCS among them.
#[repr(C)]
#[derive(Clone, Copy)]
pub struct HeardFrame {
    pub answer: u8,
    pub next: usize,
    pub length: usize,
}

// `answer` is 0, or a refusal's number; `count` is the number of tones.
#[repr(C)]
#[derive(Clone, Copy)]
pub struct WrittenBurst {
    pub answer: u8,
    pub count: usize,
}

// A part of the work buffer.
#[repr(C)]
#[derive(Clone, Copy, Default)]
pub struct OwacSpan {
    pub start: usize,
    pub length: usize,
}

// A command by its type's number, `kind`, with the arguments of its type; all others are 0 and not given.
#[repr(C)]
#[derive(Clone, Copy, Default)]
pub struct OwacCommand {
    pub kind: u8,
    pub priority: i8,
    pub weight: i8,
    pub state: u8,
    pub percent: u8,
    pub target: u8,
    pub mode: u8,
    pub milliseconds: i32,
    pub track: u64,
    pub item: u64,
    pub time: OwacOptional,
    pub earliest: OwacOptional,
    pub until: OwacOptional,
    pub text: OwacSpan,
}

// `kind` is 0 for quiet, 1 for a duplicate, 2 for a refusal, whose number is `refusal`, and 3 for a release, which alone has
// what stands behind `next`; else that is all 0.
#[repr(C)]
#[derive(Clone, Copy, Default)]
pub struct OwacAnswer {
    pub kind: u8,
    pub refusal: u8,
    pub next: usize,
    pub length: usize,
    pub pair: OwacPair,
    pub mark: OwacMark,
    pub command: OwacCommand,
}
