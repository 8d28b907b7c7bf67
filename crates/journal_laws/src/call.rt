// What a store can be asked to change, and what it replies.
use marks::mark::{Mark, Pair, Raised};

#[derive(Clone, Copy)]
pub enum Call {
    Raise(Pair, Mark),
    SwitchOn(u64),
}

#[derive(Clone, Copy)]
pub enum Reply {
    Answered(Raised),
    On,
}
