// Test vectors of SHA-256: each digest is computed by the code, and proved to be the published one.
#![tactic(auto)]

ghost use Rattle.std.specs.Prelude.{◌≡◌};
ghost use Rattle.sha256_vectors.specs.Vectors.{abc_digest, empty_digest, two_blocks_digest};

use sha256::digest;

/// The digest of "abc".
pub fn digest_of_abc() -> [u8; 32]
    ensures { result ≡ abc_digest }
{
    digest(b"abc")
}

/// The digest of no octets.
pub fn digest_of_nothing() -> [u8; 32]
    ensures { result ≡ empty_digest }
{
    digest(&[])
}

/// The digest of a message whose padding takes a second block.
pub fn digest_of_two_blocks() -> [u8; 32]
    ensures { result ≡ two_blocks_digest }
{
    digest(b"abcdbcdecdefdefgefghfghighijhijkijkljklmklmnlmnomnopnopq")
}
