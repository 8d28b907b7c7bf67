// A sheet of pinned keys and of signatures found good.
ghost use Rattle.std.specs.Prelude.{◌≡◌, slice_index};
ghost use Rattle.std.specs.List.{list_any};
ghost use Rattle.verdicts.specs.Rows.{rows_of, field};
ghost use Rattle.verdicts.specs.Verdicts.{kind_of, Names, is_pin, is_yes, is_pinned, is_vouched};
ghost use Rattle.verdicts.specs.Sound.{vouched_pinned};

use crate::transcript::Transcript;
use crate::verifier::Verifier;
use sha256::digest;

// The octets of a row.
const ROW: usize = 82;

// The place of a row's kind.
const KIND: usize = 0;

// Where its kid begins.
const KID: usize = 1;

// The place of its alg.
const ALG: usize = 17;

// Where its transcript's hash begins.
const TRANSCRIPT: usize = 18;

// Where its signature's hash begins.
const SIGNATURE: usize = 50;

// What a row says: that a kid is known for an alg, or that a signature is good.
#[derive(Clone, Copy, PartialEq, Eq)]
enum Kind {
    Pin,
    Yes,
}

// The kind that an octet names, if it names one.
impl TryFrom<u8> for Kind {
    type Error = ();

    ghost try_from_gives = { Names };

    fn try_from(octet: u8) -> Result<Kind, ()> {
        match octet {
            0x00 => Ok(Kind::Pin),
            0x01 => Ok(Kind::Yes),
            _ => Err(()),
        }
    }
}

// A row, by its fields.
#[derive(Clone, Copy)]
struct Row<'a> {
    kind: Option<Kind>,
    kid: &'a [u8],
    alg: u8,
    transcript: &'a [u8],
    signature: &'a [u8],
}

impl<'a> Row<'a> {
    // The fields where they lie in a row.
    fn new(octets: &'a [u8; ROW]) -> Row<'a>
        ensures kind { result.kind ≡ kind_of (slice_index octets.now 0) }
        ensures kid { result.kid.now ≡ field 1 16 octets.now }
        ensures alg { result.alg ≡ slice_index octets.now 17 }
        ensures transcript { result.transcript.now ≡ field 18 32 octets.now }
        ensures signature { result.signature.now ≡ field 50 32 octets.now }
    {
        Row {
            kind: Kind::try_from(octets[KIND]).ok(),
            kid: &octets[KID..ALG],
            alg: octets[ALG],
            transcript: &octets[TRANSCRIPT..SIGNATURE],
            signature: &octets[SIGNATURE..],
        }
    }
}

// Whether a row makes the kid known for the alg.
fn is_pin(octets: &[u8; ROW], kid: &[u8], alg: u8) -> bool
    ensures { result ≡ is_pin kid.now alg octets.now }
{
    let row = Row::new(octets);
    row.kind == Some(Kind::Pin) && row.kid == kid && row.alg == alg
}

// Whether a row calls the signature good.
fn is_yes(octets: &[u8; ROW], kid: &[u8], alg: u8, transcript: &[u8], signature: &[u8]) -> bool
    ensures { result ≡ is_yes kid.now alg transcript.now signature.now octets.now }
{
    let row = Row::new(octets);
    row.kind == Some(Kind::Yes)
        && row.kid == kid
        && row.alg == alg
        && row.transcript == transcript
        && row.signature == signature
}

/// Lent octets, read as rows of pins and verdicts.
#[derive(Clone, Copy)]
pub struct VerdictSheet<'a> {
    octets: &'a [u8],
}

impl<'a> VerdictSheet<'a> {
    /// A sheet over any octets; those behind the last whole row mean nothing.
    pub fn new(octets: &'a [u8]) -> VerdictSheet<'a>
        ensures is { result.octets.now ≡ octets.now }
    {
        VerdictSheet { octets }
    }

    // Whether some row calls the signature good.
    fn has_yes(&self, kid: &[u8], alg: u8, transcript: &[u8], signature: &[u8]) -> bool
        ensures { result ≡ list_any (is_yes kid.now alg transcript.now signature.now) (rows_of 82 self.now.octets.now) }
    {
        self.octets
            .as_chunks()
            .0
            .iter()
            .any(|row| is_yes(row, kid, alg, transcript, signature))
    }
}

impl<'a> Verifier for VerdictSheet<'a> {
    ghost known = { λ sheet kid alg. is_pinned sheet.octets.now kid alg };

    ghost good = { λ sheet kid alg transcript signature. is_vouched sheet.octets.now kid alg transcript signature };

    ghost sound = { λ sheet kid alg transcript signature. vouched_pinned sheet.octets.now kid alg transcript signature };

    fn knows(&self, kid: &[u8; 16], alg: u8) -> bool {
        self.octets
            .as_chunks()
            .0
            .iter()
            .any(|row| is_pin(row, kid, alg))
    }

    fn is_good(
        &self,
        kid: &[u8; 16],
        alg: u8,
        transcript: &Transcript<'_>,
        signature: &[u8],
    ) -> bool {
        self.knows(kid, alg) && self.has_yes(kid, alg, &transcript.digest(), &digest(signature))
    }
}
