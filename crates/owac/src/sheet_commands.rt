// Commands on a sheet.
use crate::arguments::Arguments;
use crate::sheet::Sheet;
use crate::shown::YesNo;
use crate::unreadable::Unreadable;
use verdicts::{Transcript, Verifier};

// A key and the alg that it is asked for.
#[derive(Clone, Copy)]
struct Key {
    kid: [u8; 16],
    alg: u64,
}

// `KID ALG`
fn read_key(words: &mut Arguments<'_>) -> Result<Key, Unreadable> {
    let kid = words.array::<16>()?;
    let alg = words.number()?;
    Ok(Key { kid, alg })
}

// `verdicts HEX`
pub fn verdicts(words: &mut Arguments<'_>) -> Result<Sheet, Unreadable> {
    let rows = words.octets()?;
    words.end()?;
    Ok(Sheet::Verdicts(rows))
}

// `tags HEX`
pub fn tags(words: &mut Arguments<'_>) -> Result<Sheet, Unreadable> {
    let rows = words.octets()?;
    words.end()?;
    Ok(Sheet::Tags(rows))
}

// `known KID ALG`. No sheet knows an alg beyond an octet.
pub fn known(words: &mut Arguments<'_>, sheet: &Sheet) -> Result<String, Unreadable> {
    let Key { kid, alg } = read_key(words)?;
    words.end()?;
    let answer = YesNo(u8::try_from(alg).is_ok_and(|alg| sheet.knows(&kid, alg)));
    Ok(format!(in words.heap(); "known {answer}")?)
}

// `good KID ALG TRANSCRIPT SIGNATURE`
pub fn good(words: &mut Arguments<'_>, sheet: &Sheet) -> Result<String, Unreadable> {
    let Key { kid, alg } = read_key(words)?;
    let transcript = words.octets()?;
    let signature = words.octets()?;
    words.end()?;
    let [head, rest @ ..] = transcript.as_slice() else {
        return Err(Unreadable::EmptyTranscript);
    };
    let transcript = Transcript::new(&[], *head, rest, &[]);
    let signature = signature.as_slice();
    let answer = YesNo(u8::try_from(alg).is_ok_and(|alg| sheet.is_good(
        &kid,
        alg,
        &transcript,
        signature,
    )));
    Ok(format!(in words.heap(); "good {answer}")?)
}
