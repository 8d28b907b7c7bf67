// The functions of words, one round, and all 64 rounds.
ghost use Rattle.std.specs.Prelude.{◌≡◌, ℕ, length};
ghost use Rattle.sha256.specs.Sha256.{Ch, Maj, big_sigma0, big_sigma1, sigma0, sigma1, round, rounds, sums};

use crate::words::Words;

// The first 32 bits of the fractional parts of the cube roots of the first 64 primes.
const K: [u32; 64] = [
    0x428a2f98, 0x71374491, 0xb5c0fbcf, 0xe9b5dba5, 0x3956c25b, 0x59f111f1, 0x923f82a4, 0xab1c5ed5,
    0xd807aa98, 0x12835b01, 0x243185be, 0x550c7dc3, 0x72be5d74, 0x80deb1fe, 0x9bdc06a7, 0xc19bf174,
    0xe49b69c1, 0xefbe4786, 0x0fc19dc6, 0x240ca1cc, 0x2de92c6f, 0x4a7484aa, 0x5cb0a9dc, 0x76f988da,
    0x983e5152, 0xa831c66d, 0xb00327c8, 0xbf597fc7, 0xc6e00bf3, 0xd5a79147, 0x06ca6351, 0x14292967,
    0x27b70a85, 0x2e1b2138, 0x4d2c6dfc, 0x53380d13, 0x650a7354, 0x766a0abb, 0x81c2c92e, 0x92722c85,
    0xa2bfe8a1, 0xa81a664b, 0xc24b8b70, 0xc76c51a3, 0xd192e819, 0xd6990624, 0xf40e3585, 0x106aa070,
    0x19a4c116, 0x1e376c08, 0x2748774c, 0x34b0bcb5, 0x391c0cb3, 0x4ed8aa4a, 0x5b9cca4f, 0x682e6ff3,
    0x748f82ee, 0x78a5636f, 0x84c87814, 0x8cc70208, 0x90befffa, 0xa4506ceb, 0xbef9a3f7, 0xc67178f2,
];

// Each bit of y where x has a 1, of z where it has a 0.
fn choose(x: u32, y: u32, z: u32) -> u32
    ensures { result ≡ Ch x y z }
{
    z ^ (x & (y ^ z))
}

// Each bit as most of the three have it.
#[tactic(auto, unfolding(crate::specs::Sha256::Maj))]
fn majority(x: u32, y: u32, z: u32) -> u32
    ensures { result ≡ Maj x y z }
{
    (x & y) ^ (x & z) ^ (y & z)
}

#[tactic(auto, unfolding(crate::specs::Sha256::big_sigma0, crate::specs::Sha256::ROTR))]
fn big_sigma_0(x: u32) -> u32
    ensures { result ≡ big_sigma0 x }
{
    x.rotate_right(2) ^ x.rotate_right(13) ^ x.rotate_right(22)
}

#[tactic(auto, unfolding(crate::specs::Sha256::big_sigma1, crate::specs::Sha256::ROTR))]
fn big_sigma_1(x: u32) -> u32
    ensures { result ≡ big_sigma1 x }
{
    x.rotate_right(6) ^ x.rotate_right(11) ^ x.rotate_right(25)
}

#[tactic(auto, unfolding(crate::specs::Sha256::sigma0, crate::specs::Sha256::ROTR, crate::specs::Sha256::SHR))]
pub(crate) fn small_sigma_0(x: u32) -> u32
    ensures { result ≡ sigma0 x }
{
    x.rotate_right(7) ^ x.rotate_right(18) ^ (x >> 3)
}

#[tactic(auto, unfolding(crate::specs::Sha256::sigma1, crate::specs::Sha256::ROTR, crate::specs::Sha256::SHR))]
pub(crate) fn small_sigma_1(x: u32) -> u32
    ensures { result ≡ sigma1 x }
{
    x.rotate_right(17) ^ x.rotate_right(19) ^ (x >> 10)
}

// One round, with its constant and its word of the schedule.
fn step(v: Words, k: u32, w: u32) -> Words
    ensures { result ≡ round v k w }
{
    let t1 = v
        .h
        .wrapping_add(big_sigma_1(v.e))
        .wrapping_add(choose(v.e, v.f, v.g))
        .wrapping_add(k)
        .wrapping_add(w);
    let t2 = big_sigma_0(v.a).wrapping_add(majority(v.a, v.b, v.c));
    Words {
        a: t1.wrapping_add(t2),
        b: v.a,
        c: v.b,
        d: v.c,
        e: v.d.wrapping_add(t1),
        f: v.e,
        g: v.f,
        h: v.g,
    }
}

// All 64 rounds.
pub(crate) fn steps(first: Words, w: &[u32; 64]) -> Words
    ensures { result ≡ rounds 64 w.now first }
{
    let mut v = first;
    for (k, word) in K.iter().zip(w) {
        v = step(v, *k, *word);
    }
    v
}

// The words of both, added modulo 2^32.
pub(crate) fn add(x: Words, y: Words) -> Words
    ensures { result ≡ sums x y }
{
    Words {
        a: x.a.wrapping_add(y.a),
        b: x.b.wrapping_add(y.b),
        c: x.c.wrapping_add(y.c),
        d: x.d.wrapping_add(y.d),
        e: x.e.wrapping_add(y.e),
        f: x.f.wrapping_add(y.f),
        g: x.g.wrapping_add(y.g),
        h: x.h.wrapping_add(y.h),
    }
}
