// Parts of octets, whatever their places: what lies outside is left out.
ghost use Rattle.std.specs.Prelude.{◌≡◌, take, drop, slice_index};
ghost use Rattle.message.specs.Checks.{held};

use items::types::Span;

// The first octets.
pub(crate) fn front(octets: &[u8], count: usize) -> &[u8]
    ensures { result.now ≡ take count octets.now }
{
    octets.get(..count).unwrap_or(octets)
}

// The octets behind the first ones.
pub(crate) fn rest(octets: &[u8], count: usize) -> &[u8]
    ensures { result.now ≡ drop count octets.now }
{
    octets.get(count..).unwrap_or(&[])
}

// What the span holds.
// Kept: a public call takes a message with any spans: one that ends outside is cut at the end, where `Span::of` has nothing.
pub(crate) fn slice(octets: &[u8], span: Span) -> &[u8]
    ensures { result.now ≡ held octets.now span }
{
    front(rest(octets, span.start), span.len)
}

// The octet at the place, or 0 where there is none.
pub(crate) fn octet_at(octets: &[u8], place: usize) -> u8
    ensures { result ≡ slice_index octets.now place }
{
    octets.get(place).copied().unwrap_or(0)
}
