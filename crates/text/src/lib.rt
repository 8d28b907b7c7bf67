// Whether octets are UTF-8 text (RFC 3629).
#![tactic(auto)]

ghost use Rattle.std.specs.Prelude.{◌≡◌, ◌<◌, ◌≤◌, ◌∷◌, false, MatchOption, length};
ghost use Rattle.text.specs.Laws.{TextIsUtf8};
ghost use Rattle.text.specs.Table.{is_text, tails, low, high, within};

// How many octets follow the first octet of a character, if it is one.
fn tails_of(first: u8) -> Option<u8>
    ensures { MatchOption result (tails first ≡ 4) (λ n. (n ≡ tails first) × (n < 4)) }
{
    match first {
        0..=0x7F => Some(0),
        0xC2..=0xDF => Some(1),
        0xE0..=0xEF => Some(2),
        0xF0..=0xF4 => Some(3),
        _ => None,
    }
}

// Whether an octet may stand behind a character's first: none makes the form overlong, a surrogate, or a character above 10FFFF.
fn may_follow(first: u8, second: u8) -> bool
    ensures { result ≡ within (low first) (high first) second }
{
    match first {
        0xE0 => matches!(second, 0xA0..=0xBF),
        0xED => matches!(second, 0x80..=0x9F),
        0xF0 => matches!(second, 0x90..=0xBF),
        0xF4 => matches!(second, 0x80..=0x8F),
        _ => is_tail(second),
    }
}

// Whether an octet may stand further behind.
fn is_tail(octet: u8) -> bool
    ensures { result ≡ within 0x80 0xBF octet }
{
    matches!(octet, 0x80..=0xBF)
}

// What stands behind the tails of a character, if they are whole and may follow its first octet.
fn behind_tails(first: u8, octets: &[u8]) -> Option<&[u8]>
    ensures { MatchOption result (is_text (first ∷ octets.now) ≡ false) (λ rest. (is_text (first ∷ octets.now) ≡ is_text rest.now) × (length rest.now ≤ length octets.now)) }
{
    match (tails_of(first)?, octets) {
        (0, rest) => Some(rest),
        (1, [second, rest @ ..]) if may_follow(first, *second) => Some(rest),
        (2, [second, third, rest @ ..]) if may_follow(first, *second) && is_tail(*third) => {
            Some(rest)
        }
        (3, [second, third, fourth, rest @ ..])
            if may_follow(first, *second) && is_tail(*third) && is_tail(*fourth) => { Some(rest) }
        _ => None,
    }
}

// The octets from the first that is not ASCII.
fn behind_ascii(octets: &[u8]) -> &[u8]
    ensures { (is_text octets.now ≡ is_text result.now) × (length result.now ≤ length octets.now) }
{
    let ascii = octets
        .iter()
        .position(|octet| !octet.is_ascii())
        .unwrap_or(octets.len());
    &octets[ascii..]
}

/// Whether the octets are UTF-8: whole characters, none overlong, no surrogate, none above 10FFFF.
// Kept: `str::from_utf8` answers the same, as clause `utf8` says; the table stands here so that each of its bounds can be turned by an edit and is refused.
pub fn is_text(octets: &[u8]) -> bool
    ensures is { result ≡ is_text octets.now }
    ensures utf8 { TextIsUtf8 }
{
    // Many octets at a time: most text is ASCII alone.
    if octets.is_ascii() {
        return true;
    }
    let mut rest = behind_ascii(octets);
    while let Some((first, behind)) = rest.split_first() {
        let Some(next) = behind_tails(*first, behind) else {
            return false;
        };
        rest = behind_ascii(next);
    }
    true
}
