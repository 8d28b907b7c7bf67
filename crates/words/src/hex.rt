// Octets as hexadecimal words.
ghost use Rattle.std.specs.Prelude.{◌≡◌, ℕ, ◌<◌, List, Some, IfSome, IfOk, string_bytes, MatchOption};
ghost use Rattle.std.specs.Fmt.{WritesOnOk};
ghost use Rattle.words.specs.Hex.{value_of, digit_of, octet_of, hex_of, hex_text, word_of, Spells, Names, HexBack, OctetBack};

use std::alloc::{AllocError, Global};
use std::fmt;

// The word for no octets.
const NONE: &str = "-";

// How many octets have their digits written at once.
const PIECE: usize = 16;

// The value of a digit, in either case.
fn value(digit: u8) -> Option<u8>
    ensures { result ≡ value_of digit }
{
    Some(char::from(digit).to_digit(16)? as u8)
}

// The digit of a value.
fn digit(value: u8) -> u8
    requires { value < 16 }
    ensures is { result ≡ digit_of value }
    ensures small { result < 128 }
{
    if value < 10 {
        b'0' + value
    } else {
        b'A' + (value - 10)
    }
}

/// The octet of a high and a low digit.
pub fn octet(high: u8, low: u8) -> Option<u8>
    ensures is { result ≡ octet_of high low }
    ensures back { OctetBack }
{
    Some(16 * value(high)? + value(low)?)
}

// The octets that digits spell.
fn spelt(heap: Global, digits: &[u8]) -> Result<Option<Vec<u8>>, AllocError>
    ensures reads { IfOk result (λ o. IfSome o (λ v. Spells digits.now v.items)) }
    ensures finds { (os : List ℕ) → Spells digits.now os → IfOk result (λ o. MatchOption o ⊥ (λ v. v.items ≡ os)) }
{
    let (pairs, []) = digits.as_chunks::<2>() else {
        return Ok(None);
    };
    let mut found = Vec::with_capacity(heap, pairs.len())?;
    for [high, low] in pairs {
        let Some(octet) = octet(*high, *low) else {
            return Ok(None);
        };
        found.push(octet)?;
    }
    Ok(Some(found))
}

/// The octets that a word names.
pub fn octets(heap: Global, word: &str) -> Result<Option<Vec<u8>>, AllocError>
    ensures reads { IfOk result (λ o. IfSome o (λ v. Names word.now v.items)) }
    ensures finds { (os : List ℕ) → Names word.now os → IfOk result (λ o. MatchOption o ⊥ (λ v. v.items ≡ os)) }
{
    if word == NONE {
        return Ok(Some(Vec::new(heap)));
    }
    spelt(heap, word.as_bytes())
}

// The two digits of an octet.
fn pair(octet: u8) -> [u8; 2]
    ensures { result ≡ hex_of octet }
{
    [digit(octet / 16), digit(octet % 16)]
}

// Writes the digits of a piece of octets at once.
fn write_piece<W: fmt::Write>(f: &mut fmt::Formatter<W>, piece: &[u8; PIECE]) -> fmt::Result
    ensures { WritesOnOk W.write_str_gives f.old result (hex_text piece.now) f.new }
{
    let pairs = piece.map(pair);
    let Ok(digits) = str::from_utf8(pairs.as_flattened()) else {
        return Err(fmt::Error);
    };
    f.write_str(digits)
}

// Writes the digits of octets one by one.
fn write_each<W: fmt::Write>(f: &mut fmt::Formatter<W>, octets: &[u8]) -> fmt::Result
    ensures { WritesOnOk W.write_str_gives f.old result (hex_text octets.now) f.new }
{
    for octet in octets {
        f.write_char(char::from(digit(*octet / 16)))?;
        f.write_char(char::from(digit(*octet % 16)))?;
    }
    Ok(())
}

/// The digits of octets, two each.
#[derive(Clone, Copy)]
pub struct Digits<'a>(pub &'a [u8]);

impl fmt::Display for Digits<'_> {
    ghost output = { λ octets. Some (hex_text octets.0.now) };

    fn fmt<W: fmt::Write>(&self, f: &mut fmt::Formatter<W>) -> fmt::Result {
        let mut rest = self.0;
        while let Some((piece, behind)) = rest.split_first_chunk::<PIECE>() {
            write_piece(f, piece)?;
            rest = behind;
        }
        write_each(f, rest)
    }
}

/// Octets as the word that names them: their digits, and `-` for none.
#[derive(Clone, Copy)]
pub struct Hex<'a>(pub &'a [u8]);

impl fmt::Display for Hex<'_> {
    ghost output = { λ octets. Some (word_of octets.0.now) };

    fn fmt<W: fmt::Write>(&self, f: &mut fmt::Formatter<W>) -> fmt::Result {
        match self.0 {
            [] => f.write_str(NONE),
            octets => write!(f, "{}", Digits(octets)),
        }
    }
}

/// The word for octets.
#[tactic(auto, using(crate::proofs::Spelling::hex_back))]
pub fn text(heap: Global, octets: &[u8]) -> Result<String, AllocError>
    ensures is { IfOk result (λ s. string_bytes s ≡ word_of octets.now) }
    ensures back { HexBack }
{
    Ok(format!(in heap; "{}", Hex(octets))?)
}
