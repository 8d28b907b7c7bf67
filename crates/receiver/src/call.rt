// What a receiver is asked, and what it replies.
use judging::answer::{Answer, Lent};

/// A call with inputs of its own. `work` is how many octets of the buffer it is lent to work in, if there are so many.
#[derive(Drop)]
pub enum Call<'a, V> {
    Listen { lent: Lent<'a, V>, work: usize },
    SwitchOn(u64),
}

#[derive(Clone, Copy)]
pub enum Reply {
    Heard(Answer),
    On,
}
