// A transcript's digest, made once.
ghost use Rattle.std.specs.Prelude.{◌≡◌, ◌∷◌, ◌++◌, length};
ghost use Rattle.sha256.specs.Sha256.{sha256_of};
ghost use Rattle.verdicts.specs.Transcripts.{octets_of};

use crate::transcript::Transcript;
use sha256::Sha256;

impl<'a> Transcript<'a> {
    /// The pieces in their order, hashed where they lie.
    pub fn new(before: &'a [u8], head: u8, middle: &'a [u8], after: &'a [u8]) -> Transcript<'a>
        ensures is { octets_of result ≡ before.now ++ (head ∷ (middle.now ++ after.now)) }
    {
        let mut hasher = Sha256::new();
        hasher.update(before);
        hasher.update(&[head]);
        hasher.update(middle);
        hasher.update(after);
        Transcript {
            before,
            head,
            middle,
            after,
            digest: hasher.finish(),
        }
    }

    /// The SHA-256 of the transcript.
    pub fn digest(&self) -> [u8; 32]
        ensures is { result ≡ sha256_of (octets_of self.now) }
        ensures length { length result ≡ 32 }
    {
        self.digest
    }
}
