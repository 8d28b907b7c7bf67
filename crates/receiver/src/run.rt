// Any list of calls, carried out one after the other.
ghost use Rattle.std.specs.Prelude.{length};
ghost use Rattle.receiver.specs.Run.{Carries, Ran};

use crate::call::{Call, Reply};
use crate::receiver::Receiver;
use marks::store::Store;
use verdicts::Verifier;

/// Carries out one call.
pub fn carry_out<S: Store, V: Verifier>(
    receiver: &mut Receiver<S>,
    call: &Call<'_, V>,
    buffer: &mut [u8],
) -> Reply
    ensures { Carries S.state S.touches S.rests V.known V.good receiver.old.store buffer.old call.now result receiver.new.store buffer.new }
{
    match call {
        Call::Listen { lent, work } => {
            let n = (*work).min(buffer.len());
            Reply::Heard(receiver.listen(lent, &mut buffer[0..n]))
        }
        Call::SwitchOn(n) => {
            receiver.switch_on(*n);
            Reply::On
        }
    }
}

/// Carries out calls until they or the places for replies end, and says how many. The run is a lawful history.
// Kept: the run of calls on a store alone has the same `min`, `for` and assignment. A generic run would take the step as a closure that
// changes store and buffer, and promise a chain of `F.step` over calls and replies, of which each would still have to prove its `Ran`.
pub fn run<S: Store, V: Verifier>(
    receiver: &mut Receiver<S>,
    calls: &[Call<'_, V>],
    buffer: &mut [u8],
    replies: &mut [Reply],
) -> usize
    ensures { Ran S.state S.touches S.rests V.known V.good receiver.old.store buffer.old calls.now replies.old result replies.new receiver.new.store buffer.new }
{
    let n = calls.len().min(replies.len());
    // Kept: the replies are written by place. After a `zip` with `iter_mut` a proof knows nothing of what was written.
    for (i, call) in calls[..n].iter().enumerate() {
        replies[i] = carry_out(receiver, call, buffer);
    }
    n
}
