// Jobs as a sender writes them: a message's octets, signed with a tag.
use items::types::Major;
use std::alloc::{AllocError, Global};

// The alg that is signed with tags.
const TAG_ALG: u64 = 3;

// What a job asks for.
#[derive(Clone, Copy)]
pub enum Errand {
    Heartbeat,
    Queue { track: u64, priority: u64 },
    Text(&'static str),
    Rate(u64),
}

// A job before it is encoded.
#[derive(Clone, Copy)]
pub struct Draft {
    pub epoch: u64,
    pub counter: u64,
    pub expires: Option<u64>,
    pub errand: Errand,
    pub kid: [u8; 16],
    pub tag: [u8; 16],
    // whether the tag is on the sheet
    pub listed: bool,
}

// A head, as short as can be.
fn push_head(out: &mut Vec<u8>, major: Major, n: u64) -> Result<(), AllocError> {
    let octets = n.to_be_bytes();
    let (info, rest) = match n {
        0..=23 => (n as u8, &octets[8..]),
        24..=0xFF => (24, &octets[7..]),
        0x100..=0xFFFF => (25, &octets[6..]),
        0x1_0000..=0xFFFF_FFFF => (26, &octets[4..]),
        _ => (27, &octets[..]),
    };
    out.push((major as u8) << 5 | info)?;
    out.extend_from_slice(rest)
}

// An entry with an unsigned number.
fn push_number(out: &mut Vec<u8>, key: u64, n: u64) -> Result<(), AllocError> {
    push_head(out, Major::Unsigned, key)?;
    push_head(out, Major::Unsigned, n)
}

// An entry with octets: a byte string, or text.
fn push_string(out: &mut Vec<u8>, key: u64, major: Major, held: &[u8]) -> Result<(), AllocError> {
    push_head(out, Major::Unsigned, key)?;
    push_head(out, major, held.len() as u64)?;
    out.extend_from_slice(held)
}

// The start of an entry with a map of so many entries.
fn push_map(out: &mut Vec<u8>, key: u64, entries: u64) -> Result<(), AllocError> {
    push_head(out, Major::Unsigned, key)?;
    push_head(out, Major::Map, entries)
}

// The type of a command and its arguments.
fn push_errand(out: &mut Vec<u8>, errand: Errand) -> Result<(), AllocError> {
    match errand {
        Errand::Heartbeat => {
            push_number(out, 0, 0)?;
            push_map(out, 1, 0)
        }
        Errand::Queue { track, priority } => {
            push_number(out, 0, 1)?;
            push_map(out, 1, 2)?;
            push_number(out, 0, track)?;
            push_number(out, 1, priority)
        }
        Errand::Text(text) => {
            push_number(out, 0, 20)?;
            push_map(out, 1, 3)?;
            push_number(out, 0, 1)?;
            push_number(out, 1, 0)?;
            push_string(out, 2, Major::Text, text.as_bytes())
        }
        Errand::Rate(percent) => {
            push_number(out, 0, 12)?;
            push_map(out, 1, 1)?;
            push_number(out, 0, percent)
        }
    }
}

impl Draft {
    // The position, the sender and the expiry.
    fn push_mid(&self, out: &mut Vec<u8>, sid: &[u8; 16]) -> Result<(), AllocError> {
        let entries = if self.expires.is_some() { 4 } else { 3 };
        push_map(out, 2, entries)?;
        push_number(out, 0, self.epoch)?;
        push_number(out, 1, self.counter)?;
        push_string(out, 2, Major::Bytes, sid)?;
        match self.expires {
            Some(time) => push_number(out, 3, time),
            None => Ok(()),
        }
    }

    // The octets of the message.
    pub fn message(&self, heap: Global, sid: &[u8; 16]) -> Result<Vec<u8>, AllocError> {
        let mut out = Vec::new(heap);
        push_head(&mut out, Major::Map, 5)?;
        push_number(&mut out, 0, 1)?;
        push_number(&mut out, 1, 1)?;
        self.push_mid(&mut out, sid)?;
        push_map(&mut out, 3, 2)?;
        push_errand(&mut out, self.errand)?;
        push_map(&mut out, 4, 3)?;
        push_number(&mut out, 0, TAG_ALG)?;
        push_string(&mut out, 1, Major::Bytes, &self.kid)?;
        push_string(&mut out, 2, Major::Bytes, &self.tag)?;
        Ok(out)
    }
}
