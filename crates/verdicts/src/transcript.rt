// What is signed of a message.
mod hashing;

ghost use Rattle.std.specs.Prelude.{◌≡◌, ◌∷◌, ◌++◌, length};
ghost use Rattle.sha256.specs.Sha256.{sha256_of};

/// What is signed, as pieces of lent memory around one octet, and the SHA-256 of it all.
#[derive(Clone, Copy)]
pub struct Transcript<'a> {
    before: &'a [u8],
    head: u8,
    middle: &'a [u8],
    after: &'a [u8],
    digest: [u8; 32],
    ghost hashed: { digest ≡ sha256_of (before.now ++ (head ∷ (middle.now ++ after.now))) },
    ghost full: { length digest ≡ 32 },
}
