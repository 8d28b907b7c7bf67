// What is heard of a burst.
use answers::refusal::Refusal;

// Kept: the public call answers this, case by case as the rules list them: no frame, a refusal, a frame. Inside, a
// `Result<Option<Body>, Flaw>` is handed on.
#[derive(Clone, Copy, Debug, PartialEq, Eq)]
pub enum Hearing {
    // no frame begins here
    Quiet,
    Refused(Refusal),
    // so many octets, the FCS among them
    Frame(usize),
}

// What is heard, and the place where to listen next.
#[derive(Clone, Copy, Debug, PartialEq, Eq)]
pub struct Heard {
    pub hearing: Hearing,
    pub next: usize,
}
