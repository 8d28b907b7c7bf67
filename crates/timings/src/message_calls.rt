// The reading of a message.
ghost use Rattle.std.specs.Prelude.{◌≡◌};
ghost use Rattle.message.specs.Messages.{message_of};
ghost use Rattle.timings.specs.Judging.{judging, hashed, number_as, digest_or};

use answers::refusal::Refusal;
use message::read;

// Asks what can be asked of the octets alone, in the receiver's order, and takes the transcript's digest.
fn judge(octets: &[u8]) -> Result<[u8; 32], Refusal>
    ensures { result ≡ hashed (judging octets.now (message_of octets.now)) }
{
    let message = read(octets)?;
    if !message.profile_matches() {
        return Err(Refusal::ProfileMismatch);
    }
    if !message.sizes_fit() {
        return Err(Refusal::SizeLimit);
    }
    if !message.echo_matches() {
        return Err(Refusal::ContextMismatch);
    }
    if !message.signature_length_fits() {
        return Err(Refusal::SignatureLength);
    }
    Ok(message.transcript().digest())
}

// Reads the octets as a message: 0, and the digest of its transcript; or a refusal's number, and `digest` stays.
#[unsafe(no_mangle)]
pub extern "C" fn timing_read_message(octets: &[u8], digest: &mut [u8; 32]) -> u8
    ensures answer { result ≡ number_as (judging octets.now (message_of octets.now)) }
    ensures digest { digest.new ≡ digest_or digest.old (judging octets.now (message_of octets.now)) }
{
    match judge(octets) {
        Ok(found) => {
            *digest = found;
            0
        }
        Err(refusal) => refusal.number(),
    }
}
