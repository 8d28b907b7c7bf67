// Reading the parts of a message, each forward from its place, and the whole message.
ghost use Rattle.std.specs.Prelude.{◌≡◌};
ghost use Rattle.message.specs.Parts.{mid_at, cmd_at, auth_at, meta_at, view_of};

use crate::entries::{Entries, alg_at, context_at, id_at};
use crate::types::{Auth, Cmd, Meta, Mid, View};
use items::types::Span;
use items::{bytes_at, map_at, unsigned_at};

// The version of a message.
const VERSION: u64 = 1;

// The keys of the message map.
// Kept: a key, here and below, is only compared with the number that is read; of an enum each use would be a cast back, as `MidKey::Epoch as u64`.
const V: u64 = 0;

const PROFILE: u64 = 1;

const MID: u64 = 2;

const CMD: u64 = 3;

const AUTH: u64 = 4;

const META: u64 = 5;

const EXT: u64 = 6;

// The keys of mid.
const EPOCH: u64 = 0;

const COUNTER: u64 = 1;

const SID: u64 = 2;

const EXP: u64 = 3;

// The keys of cmd.
const KIND: u64 = 0;

const ARGS: u64 = 1;

const DUO: u64 = 2;

// The keys of auth.
const ALG: u64 = 0;

const KID: u64 = 1;

const SIGNATURE: u64 = 2;

const CTX: u64 = 3;

// The key of meta.
const ECHO: u64 = 0;

// How many entries of each map are required.
const MESSAGE_ENTRIES: u64 = 5;

const MID_ENTRIES: u64 = 3;

const CMD_ENTRIES: u64 = 2;

const AUTH_ENTRIES: u64 = 3;

const META_ENTRIES: u64 = 0;

// The message id at the place.
#[tactic(auto, unfolding(crate::specs::Parts::mid_at))]
fn mid_at(octets: &[u8], place: usize) -> Option<(Mid, usize)>
    ensures { result ≡ mid_at octets.now place }
{
    let mut entries = Entries::at(octets, place, MID_ENTRIES)?;
    let epoch = entries.required(EPOCH, unsigned_at)?;
    let counter = entries.required(COUNTER, unsigned_at)?;
    let sid = entries.required(SID, id_at)?;
    let exp = entries.optional(EXP, unsigned_at)?;
    let behind = entries.end()?;
    Some((
        Mid {
            epoch,
            counter,
            sid,
            exp,
        },
        behind,
    ))
}

// The command at the place.
#[tactic(auto, unfolding(crate::specs::Parts::cmd_at))]
fn cmd_at(octets: &[u8], place: usize) -> Option<(Cmd, usize)>
    ensures { result ≡ cmd_at octets.now place }
{
    let mut entries = Entries::at(octets, place, CMD_ENTRIES)?;
    let kind = entries.required(KIND, unsigned_at)?;
    let args = entries.required(ARGS, map_at)?;
    let duo = entries.optional(DUO, bytes_at)?;
    let behind = entries.end()?;
    Some((Cmd { kind, args, duo }, behind))
}

// The authentication at the place.
#[tactic(auto, unfolding(crate::specs::Parts::auth_at))]
fn auth_at(octets: &[u8], place: usize) -> Option<(Auth, usize)>
    ensures { result ≡ auth_at octets.now place }
{
    let mut entries = Entries::at(octets, place, AUTH_ENTRIES)?;
    let alg = entries.required(ALG, alg_at)?;
    let kid = entries.required(KID, id_at)?;
    let entry = entries.place;
    let signature = entries.required(SIGNATURE, bytes_at)?;
    let ctx = entries.optional(CTX, context_at)?;
    let behind = entries.end()?;
    Some((
        Auth {
            place,
            alg,
            kid,
            entry,
            signature,
            ctx,
        },
        behind,
    ))
}

// The metadata at the place.
#[tactic(auto, unfolding(crate::specs::Parts::meta_at))]
fn meta_at(octets: &[u8], place: usize) -> Option<(Meta, usize)>
    ensures { result ≡ meta_at octets.now place }
{
    let mut entries = Entries::at(octets, place, META_ENTRIES)?;
    let echo = entries.optional(ECHO, context_at)?;
    let behind = entries.end()?;
    let span = Span {
        start: place,
        len: behind - place,
    };
    Some((Meta { span, echo }, behind))
}

// What the octets show, if they are a message with nothing behind it.
#[tactic(auto, unfolding(crate::specs::Parts::view_of, crate::specs::Parts::body_at))]
pub(crate) fn view_of(octets: &[u8]) -> Option<View>
    ensures { result ≡ view_of octets.now }
{
    let mut entries = Entries::at(octets, 0, MESSAGE_ENTRIES)?;
    entries.pass(V)?;
    entries.pass(VERSION)?;
    let profile = entries.required(PROFILE, unsigned_at)?;
    let mid = entries.required(MID, mid_at)?;
    let cmd = entries.required(CMD, cmd_at)?;
    let auth = entries.required(AUTH, auth_at)?;
    let meta = entries.optional(META, meta_at)?;
    let ext = entries.optional(EXT, map_at)?;
    let behind = entries.end()?;
    (behind == octets.len()).then_some(View {
        profile,
        mid,
        cmd,
        auth,
        meta,
        ext,
    })
}
