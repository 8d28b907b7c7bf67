// Commands on octets alone: their digest, and whether they are text.
use crate::arguments::Arguments;
use crate::shown::YesNo;
use crate::unreadable::Unreadable;
use sha256::digest;
use text::is_text;
use words::hex::Hex;

// `sha HEX`
pub fn sha(words: &mut Arguments<'_>) -> Result<String, Unreadable> {
    let octets = words.octets()?;
    words.end()?;
    let digest = digest(octets.as_slice());
    Ok(format!(in words.heap(); "sha {}", Hex(&digest))?)
}

// `utf8 HEX`
pub fn utf8(words: &mut Arguments<'_>) -> Result<String, Unreadable> {
    let octets = words.octets()?;
    words.end()?;
    let answer = YesNo(is_text(octets.as_slice()));
    Ok(format!(in words.heap(); "utf8 {answer}")?)
}
