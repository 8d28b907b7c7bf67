// What is asked of a message that was read, and what is handed on of it.
ghost use Rattle.std.specs.Prelude.{◌≡◌};
ghost use Rattle.verdicts.specs.Transcripts.{octets_of};
ghost use Rattle.message.specs.Checks.{profile_matches, echo_matches, signature_length, signature_length_fits, signature_of, transcript_of};
ghost use Rattle.message.specs.Sizes.{meta_fits, message_most, before_signature, behind_signature, sizes_fit};

use super::Message;
use super::slices::{front, octet_at, rest, slice};
use crate::sizes::strings_fit;
use crate::types::Meta;
use verdicts::Transcript;

// The profile of this line.
const PROFILE: u64 = 1;

// The algs are 1, 2 and 3.
// Kept: a public view shows its alg as a number, and any other goes with 3: an enum would need a conversion with these arms, and a match after it.
const ALG_1: u8 = 1;

const ALG_2: u8 = 2;

// The octets of a signature of each alg.
const SIGNATURE_1: usize = 3309;

const SIGNATURE_2: usize = 7856;

const SIGNATURE_3: usize = 16;

// The most octets of a message of alg 2, and of any other.
const MOST_2: usize = 12288;

const MOST: usize = 4096;

// The most octets of the arguments.
const ARGS_MOST: usize = 1024;

// The most octets of the metadata.
const META_MOST: usize = 512;

// The most octets of a message by its alg.
fn most_octets(alg: u8) -> usize
    ensures { result ≡ message_most alg }
{
    if alg == ALG_2 { MOST_2 } else { MOST }
}

// The octets of a signature by its alg.
fn signature_octets(alg: u8) -> usize
    ensures { result ≡ signature_length alg }
{
    match alg {
        ALG_1 => SIGNATURE_1,
        ALG_2 => SIGNATURE_2,
        _ => SIGNATURE_3,
    }
}

// Whether the metadata are small enough, or absent.
fn meta_fits(meta: Option<Meta>) -> bool
    ensures { result ≡ meta_fits meta }
{
    meta.is_none_or(|meta| meta.span.len <= META_MOST)
}

impl<'a> Message<'a> {
    // The octets before the signature's entry.
    fn before_signature(&self) -> &'a [u8]
        ensures { result.now ≡ before_signature self.now.octets.now self.now.view }
    {
        front(self.octets, self.view.auth.entry)
    }

    // The octets behind the signature, and so behind its entry.
    fn behind_signature(&self) -> &'a [u8]
        ensures { result.now ≡ behind_signature self.now.octets.now self.now.view }
    {
        let signature = self.view.auth.signature;
        rest(rest(self.octets, signature.start), signature.len)
    }

    /// Is the profile 1?
    pub fn profile_matches(&self) -> bool
        ensures { result ≡ profile_matches self.now.view }
    {
        self.view.profile == PROFILE
    }

    /// Are message, arguments, metadata and all strings but the signature small enough?
    #[tactic(auto, unfolding(crate::specs::Sizes::sizes_fit))]
    pub fn sizes_fit(&self) -> bool
        ensures { result ≡ sizes_fit self.now.octets.now self.now.view }
    {
        self.octets.len() <= most_octets(self.view.auth.alg)
            && self.view.cmd.args.len <= ARGS_MOST
            && meta_fits(self.view.meta)
            && strings_fit(self.before_signature())
            && strings_fit(self.behind_signature())
    }

    /// Is an echo absent, or equal to a context that is there?
    pub fn echo_matches(&self) -> bool
        ensures { result ≡ echo_matches self.now.octets.now self.now.view }
    {
        let echo = self.view.meta.and_then(|meta| meta.echo);
        let ctx = self.view.auth.ctx;
        echo.is_none_or(|echo| ctx.is_some_and(|ctx| slice(self.octets, echo)
            == slice(self.octets, ctx)))
    }

    /// Has the signature the length of its alg?
    pub fn signature_length_fits(&self) -> bool
        ensures { result ≡ signature_length_fits self.now.view }
    {
        self.view.auth.signature.len == signature_octets(self.view.auth.alg)
    }

    /// The octets of the signature.
    pub fn signature(&self) -> &'a [u8]
        ensures { result.now ≡ signature_of self.now.octets.now self.now.view }
    {
        slice(self.octets, self.view.auth.signature)
    }

    /// What is signed: the message without the signature's entry, hashed where it lies.
    #[tactic(auto, unfolding(crate::specs::Checks::transcript_of))]
    pub fn transcript(&self) -> Transcript<'a>
        ensures { octets_of result ≡ transcript_of self.now.octets.now self.now.view }
    {
        let place = self.view.auth.place;
        let entry = self.view.auth.entry;
        let inside = rest(rest(self.octets, place), 1);
        Transcript::new(
            front(self.octets, place),
            octet_at(self.octets, place).saturating_sub(1),
            front(inside, entry.saturating_sub(place).saturating_sub(1)),
            self.behind_signature(),
        )
    }
}
