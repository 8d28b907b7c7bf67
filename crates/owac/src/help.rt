// What the program can do, in short.
use crate::failure::Failure;
use std::fmt;

// A word with what follows it, and what it does.
struct Entry {
    usage: &'static str,
    does: &'static str,
}

impl Entry {
    fn is_of(&self, word: &str) -> bool {
        self.usage.split_whitespace().next() == Some(word)
    }
}

impl fmt::Display for Entry {
    fn fmt<W: fmt::Write>(&self, f: &mut fmt::Formatter<W>) -> fmt::Result {
        let Entry { usage, does } = self;
        write!(f, "  {usage}: {does}")
    }
}

const COMMANDS: [Entry; 6] = [
    Entry {
        usage: "day",
        does: "a day's work at a playout house, one event a line",
    },
    Entry {
        usage: "script",
        does: "carries out the calls on standard input, one a line",
    },
    Entry {
        usage: "write MESSAGE BURST",
        does: "writes the burst of the message in one file into another",
    },
    Entry {
        usage: "listen BURST --image FILE --verdicts FILE|--tags FILE --catalog FILE --now N [--floor EPOCH] [--suspect]",
        does: "hears every frame of a burst, prints what is decided, and puts the marks of released jobs back into the image",
    },
    Entry {
        usage: "marks IMAGE",
        does: "prints the marks and the torn cells of an image",
    },
    Entry {
        usage: "help [WORD]",
        does: "lists the words, or says what one takes",
    },
];

// The words of a script.
const SCRIPT_WORDS: [Entry; 23] = [
    Entry {
        usage: "write HEX room=N",
        does: "the burst of a message, in a buffer of N octets",
    },
    Entry {
        usage: "hear HEX count=N start=N work=N",
        does: "the first frame of a burst at or after a place",
    },
    Entry {
        usage: "fcs HEX",
        does: "the frame check sequence",
    },
    Entry {
        usage: "sha HEX",
        does: "the SHA-256",
    },
    Entry {
        usage: "utf8 HEX",
        does: "whether octets are UTF-8 text",
    },
    Entry {
        usage: "read HEX",
        does: "whether octets are one item, and deterministic",
    },
    Entry {
        usage: "judge HEX now=N",
        does: "what a message says, or the first refusal of it by itself",
    },
    Entry {
        usage: "image HEX power=on|off charge=N cut=old|new|torn",
        does: "a store over the cells of an image",
    },
    Entry {
        usage: "table power=on|off charge=N cut=old|new|torn",
        does: "a store over 16 blank cells",
    },
    Entry {
        usage: "floor EPOCH",
        does: "lays a floor on a store just made, three at most",
    },
    Entry {
        usage: "raise SID KID EPOCH COUNTER HASH",
        does: "raises a pair's mark",
    },
    Entry {
        usage: "on N",
        does: "switches the store on, with power for N writes",
    },
    Entry {
        usage: "mark SID KID",
        does: "a pair's mark",
    },
    Entry {
        usage: "room SID KID",
        does: "whether a pair's mark can be raised",
    },
    Entry {
        usage: "dump",
        does: "the cells of the store",
    },
    Entry {
        usage: "verdicts HEX",
        does: "uses a sheet of verdicts",
    },
    Entry {
        usage: "tags HEX",
        does: "uses a sheet of tags",
    },
    Entry {
        usage: "known KID ALG",
        does: "whether a key is known for an alg",
    },
    Entry {
        usage: "good KID ALG TRANSCRIPT SIGNATURE",
        does: "whether a signature is good",
    },
    Entry {
        usage: "catalog N,N,..",
        does: "the numbers of the tracks that may be played, - for none",
    },
    Entry {
        usage: "listen HEX count=N start=N now=N suspect=yes|no work=N",
        does: "what the receiver decides on the first frame of a burst at or after a place",
    },
    Entry {
        usage: "fields HEX now=N",
        does: "what judge says, all fields and the names of refusals with it",
    },
    Entry {
        usage: "text",
        does: "the text of the last job that was released",
    },
];

fn print_entries(rt: &HostRuntime, entries: &[Entry]) -> Result<(), Failure> {
    for entry in entries {
        println!(rt; "{entry}")?;
    }
    Ok(())
}

pub fn print_all(rt: &HostRuntime) -> Result<(), Failure> {
    rt.println(
        "owac alone shows a message sent, heard and damaged, and marks through power cuts.",
    )?;
    rt.println("owac WORD ..:")?;
    print_entries(rt, &COMMANDS)?;
    rt.println("Words of a script (octets are hexadecimal, - is none, # begins a comment):")?;
    print_entries(rt, &SCRIPT_WORDS)
}

// Prints the entries of a word.
pub fn print_word(rt: &HostRuntime, word: &str) -> Result<(), Failure> {
    let mut named = COMMANDS
        .iter()
        .chain(SCRIPT_WORDS.iter())
        .filter(|entry| entry.is_of(word))
        .peekable();
    if named.peek().is_none() {
        return Err(Failure::Unknown(String::from_str(rt.alloc(), word)?));
    }
    for entry in named {
        println!(rt; "{entry}")?;
    }
    Ok(())
}
