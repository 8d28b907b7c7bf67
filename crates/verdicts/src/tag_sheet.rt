// A sheet of tags found good.
ghost use Rattle.std.specs.Prelude.{◌≡◌};
ghost use Rattle.std.specs.List.{list_any};
ghost use Rattle.verdicts.specs.Rows.{rows_of, field};
ghost use Rattle.verdicts.specs.Tags.{is_of_kid, is_tag, is_listed, is_tagged};
ghost use Rattle.verdicts.specs.Laws.{TagsHave16Octets};
ghost use Rattle.verdicts.specs.Sound.{tagged_listed};

use crate::transcript::Transcript;
use crate::verifier::Verifier;

// The octets of a row.
const ROW: usize = 64;

// Where a row's hash of a transcript begins, behind its kid.
const TRANSCRIPT: usize = 16;

// Where its tag begins.
const TAG: usize = 48;

// Kept: an alg is a number, since a verifier is asked of any.
// The one alg that has tags.
const TAG_ALG: u8 = 3;

// A row, by its fields.
#[derive(Clone, Copy)]
struct Row<'a> {
    kid: &'a [u8],
    transcript: &'a [u8],
    tag: &'a [u8],
}

impl<'a> Row<'a> {
    // The fields where they lie in a row.
    fn new(octets: &'a [u8; ROW]) -> Row<'a>
        ensures kid { result.kid.now ≡ field 0 16 octets.now }
        ensures transcript { result.transcript.now ≡ field 16 32 octets.now }
        ensures tag { result.tag.now ≡ field 48 16 octets.now }
    {
        Row {
            kid: &octets[..TRANSCRIPT],
            transcript: &octets[TRANSCRIPT..TAG],
            tag: &octets[TAG..],
        }
    }
}

// Whether a row makes the kid known.
fn is_of_kid(octets: &[u8; ROW], kid: &[u8]) -> bool
    ensures { result ≡ is_of_kid kid.now octets.now }
{
    Row::new(octets).kid == kid
}

// Whether a row calls the tag good.
fn is_tag(octets: &[u8; ROW], kid: &[u8], transcript: &[u8], tag: &[u8]) -> bool
    ensures { result ≡ is_tag kid.now transcript.now tag.now octets.now }
{
    let row = Row::new(octets);
    row.kid == kid && row.transcript == transcript && row.tag == tag
}

/// Lent octets, read as rows of tags.
#[derive(Clone, Copy)]
pub struct TagSheet<'a> {
    octets: &'a [u8],
}

impl<'a> TagSheet<'a> {
    /// A sheet over any octets; those behind the last whole row mean nothing.
    #[tactic(auto, using(crate::proofs::Lengths::tagged_length))]
    pub fn new(octets: &'a [u8]) -> TagSheet<'a>
        ensures is { result.octets.now ≡ octets.now }
        ensures sixteen { TagsHave16Octets }
    {
        TagSheet { octets }
    }

    // Whether some row makes the kid known.
    // Kept: tried, here, in `has_tag` and in the other sheet, as one function over rows of N octets; no proof, since the check covers no `Fn(&[u8; N])` whose N is a parameter, and rows as slices would lose their length.
    fn has_kid(&self, kid: &[u8]) -> bool
        ensures { result ≡ list_any (is_of_kid kid.now) (rows_of 64 self.now.octets.now) }
    {
        self.octets
            .as_chunks()
            .0
            .iter()
            .any(|row| is_of_kid(row, kid))
    }

    // Whether some row calls the tag good.
    fn has_tag(&self, kid: &[u8], transcript: &[u8], tag: &[u8]) -> bool
        ensures { result ≡ list_any (is_tag kid.now transcript.now tag.now) (rows_of 64 self.now.octets.now) }
    {
        self.octets
            .as_chunks()
            .0
            .iter()
            .any(|row| is_tag(row, kid, transcript, tag))
    }
}

impl<'a> Verifier for TagSheet<'a> {
    ghost known = { λ sheet kid alg. is_listed sheet.octets.now kid alg };

    ghost good = { λ sheet kid alg transcript signature. is_tagged sheet.octets.now kid alg transcript signature };

    ghost sound = { λ sheet kid alg transcript signature. tagged_listed sheet.octets.now kid alg transcript signature };

    fn knows(&self, kid: &[u8; 16], alg: u8) -> bool {
        alg == TAG_ALG && self.has_kid(kid)
    }

    fn is_good(
        &self,
        kid: &[u8; 16],
        alg: u8,
        transcript: &Transcript<'_>,
        signature: &[u8],
    ) -> bool {
        alg == TAG_ALG && self.has_tag(kid, &transcript.digest(), signature)
    }
}
