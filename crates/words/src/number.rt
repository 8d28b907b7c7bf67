// Numbers as decimal words.
ghost use Rattle.words.specs.Numbers.{Reads, ReadsBack};

/// The number that a word writes, if it has 64 bits. A word has digits alone, and no sign.
#[tactic(auto, using(crate::proofs::Plain::signed_back, crate::proofs::Plain::plain_back))]
pub fn number(word: &str) -> Option<u64>
    ensures is { Reads word.now result }
    ensures back { ReadsBack word.now result }
{
    match word.as_bytes() {
        [b'+', ..] => None,
        _ => word.parse::<u64>().ok(),
    }
}
