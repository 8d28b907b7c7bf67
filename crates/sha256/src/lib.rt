// SHA-256, by FIPS 180-4.
#![tactic(auto)]

mod rounds;
mod schedule;
mod state;
mod stream;
mod words;

ghost use Rattle.std.specs.Prelude.{◌≡◌, length};
ghost use Rattle.sha256.specs.Laws.{LengthExact, WholeBlocks};
ghost use Rattle.sha256.specs.Sha256.{sha256_of};

pub use crate::state::Sha256;

/// The digest of octets.
pub fn digest(octets: &[u8]) -> [u8; 32]
    ensures is { result ≡ sha256_of octets.now }
    ensures length { length result ≡ 32 }
    ensures exact { LengthExact }
    ensures whole { WholeBlocks }
{
    let mut hasher = Sha256::new();
    hasher.update(octets);
    hasher.finish()
}
