// The message schedule of a block.
ghost use Rattle.std.specs.Prelude.{◌≡◌};
ghost use Rattle.sha256.specs.Sha256.{scheduled};

use crate::rounds::{small_sigma_0, small_sigma_1};
use crate::state::BLOCK;

// The block's 16 words, and 48 more made of them.
pub(crate) fn schedule(block: &[u8; BLOCK]) -> [u32; 64]
    ensures { result ≡ scheduled block.now 64 }
{
    let mut w = [0u32; 64];
    let (words, _) = block.as_chunks();
    'first: for (t, octets) in words.iter().enumerate() {
        w[t] = u32::from_be_bytes(*octets);
    }
    // Kept: each word is made of words before it in the same array, so it is named by its place.
    'rest: for t in 16..64 {
        w[t] = w[t - 16]
            .wrapping_add(small_sigma_0(w[t - 15]))
            .wrapping_add(w[t - 7])
            .wrapping_add(small_sigma_1(w[t - 2]));
    }
    w
}
