// SHA-256.
ghost use Rattle.std.specs.Prelude.{◌≡◌};
ghost use Rattle.sha256.specs.Sha256.{sha256_of};

use sha256::digest;

// Writes the digest of the octets.
#[unsafe(no_mangle)]
pub extern "C" fn timing_sha256(octets: &[u8], out: &mut [u8; 32])
    ensures { out.new ≡ sha256_of octets.now }
{
    *out = digest(octets);
}
