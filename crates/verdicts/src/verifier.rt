// The interface of a verifier of signatures.
ghost use Rattle.std.specs.Prelude.{◌≡◌, ℕ, Bool, true, List};
ghost use Rattle.verdicts.specs.Transcripts.{octets_of};

use crate::transcript::Transcript;

/// A verifier of signatures. Its questions change nothing.
// Kept: kid, alg, transcript and signature are the parameters of two questions, and no more; a struct of kid and alg would be made at every call only to be taken apart.
pub trait Verifier {
    // Whether a kid is known for an alg.
    ghost known: { Self → List ℕ → ℕ → Bool };

    // Whether a signature is good for a kid, an alg and a transcript.
    ghost good: { Self → List ℕ → ℕ → List ℕ → List ℕ → Bool };

    // A good signature's kid is known for its alg.
    ghost sound: { (verifier : Self) (kid : List ℕ) (alg : ℕ) (transcript signature : List ℕ) → good verifier kid alg transcript signature ≡ true → known verifier kid alg ≡ true };

    fn knows(&self, kid: &[u8; 16], alg: u8) -> bool
        ensures is { result ≡ known self.now kid.now alg };

    fn is_good(
        &self,
        kid: &[u8; 16],
        alg: u8,
        transcript: &Transcript<'_>,
        signature: &[u8],
    ) -> bool
        ensures is { result ≡ good self.now kid.now alg (octets_of transcript.now) signature.now };
}
