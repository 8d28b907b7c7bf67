// The arguments of a command, each by its key, in a map at a place. `None` where one is not as asked.
ghost use Rattle.std.specs.Prelude.{◌≡◌, ℕ, ◌≤◌, false, Option, IfSome, MatchOption, unsigned_abs};
ghost use Rattle.std.specs.Range.{range_inclusive_start, range_inclusive_end, range_inclusive_exhausted};
ghost use Rattle.items.specs.Lookup.{lookup_of};
ghost use Rattle.items.specs.Fields.{map_head_at};
ghost use Rattle.commands.specs.Arguments.{required, number_in, between_in, signed_in, optional_in, track_in, text_in};
ghost use Rattle.commands.specs.Octets.{field, sized, source_of};

use crate::types::Track;
use items::types::{Fault, Span};
use items::{bytes_at, integer_at, lookup, map_head_at, text_at, unsigned_at};
use std::ops::RangeInclusive;

// The map of arguments at a place in the octets.
#[derive(Clone, Copy)]
pub(crate) struct Arguments<'a> {
    pub octets: &'a [u8],
    pub place: usize,
}

impl<'a> Arguments<'a> {
    // Where the value of the key starts, or that there is no such key.
    fn value(&self, key: u64) -> Result<Option<usize>, Fault>
        ensures { result ≡ lookup_of self.now.octets.now self.now.place key }
    {
        let mut place = self.place;
        lookup(self.octets, &mut place, key)
    }

    // Where the value of a key that has to be there starts.
    fn required(&self, key: u64) -> Option<usize>
        ensures { result ≡ required (source_of self.now) key }
    {
        self.value(key).ok()?
    }

    // The value of a key that has to be there, as it is read at its place.
    fn read<T, F: Fn(&[u8], usize) -> Option<(T, usize)>>(&self, key: u64, read: F) -> Option<T>
        requires { F.IsAlwaysCallable read }
        ensures { MatchOption (required (source_of self.now) key) (result ≡ None) (λ q. (came : Option (T × ℕ)) × F.post read self.now.octets q came × (result ≡ field came)) }
    {
        read(self.octets, self.required(key)?).map(|(value, _)| value)
    }

    // An unsigned number.
    #[tactic(auto, unfolding(crate::specs::Arguments::number_in))]
    pub(crate) fn number(&self, key: u64) -> Option<u64>
        ensures { result ≡ number_in (source_of self.now) key }
    {
        self.read(key, unsigned_at)
    }

    // An unsigned number in the range.
    #[tactic(auto, unfolding(crate::specs::Arguments::between_in))]
    pub(crate) fn between(&self, key: u64, range: RangeInclusive<u8>) -> Option<u8>
        requires { range_inclusive_exhausted range ≡ false }
        ensures { result ≡ between_in (source_of self.now) key (range_inclusive_start range) (range_inclusive_end range) }
    {
        let number = u8::try_from(self.number(key)?).ok()?;
        range.contains(&number).then_some(number)
    }

    // An integer from `-limit` to `limit`.
    #[tactic(auto, unfolding(crate::specs::Arguments::signed_in))]
    pub(crate) fn signed(&self, key: u64, limit: u64) -> Option<i64>
        ensures is { result ≡ signed_in (source_of self.now) key limit }
        ensures within { IfSome result (λ z. unsigned_abs z ≤ limit) }
    {
        let number = self.read(key, integer_at)?;
        (number.unsigned_abs() <= limit).then_some(number)
    }

    // An unsigned number that may be absent.
    // Kept: the outer `None` says, as in every method here, that the argument is not as asked, and `Some(None)` that it is absent,
    // which may be. A `Result` for this one alone would have to be turned back into an `Option` at each use.
    #[tactic(auto, unfolding(crate::specs::Arguments::optional_in))]
    pub(crate) fn optional(&self, key: u64) -> Option<Option<u64>>
        ensures { result ≡ optional_in (source_of self.now) key }
    {
        let Some(at) = self.value(key).ok()? else {
            return Some(None);
        };
        unsigned_at(self.octets, at).map(|(number, _)| Some(number))
    }

    // A track: an unsigned number or a byte string.
    #[tactic(auto, unfolding(crate::specs::Arguments::track_in))]
    pub(crate) fn track(&self, key: u64) -> Option<Track>
        ensures { result ≡ track_in (source_of self.now) key }
    {
        let at = self.required(key)?;
        if let Some((number, _)) = unsigned_at(self.octets, at) {
            return Some(Track::Number(number));
        }
        bytes_at(self.octets, at).map(|(bytes, _)| Track::Octets(bytes))
    }

    // A text string.
    #[tactic(auto, unfolding(crate::specs::Arguments::text_in))]
    pub(crate) fn text(&self, key: u64) -> Option<Span>
        ensures { result ≡ text_in (source_of self.now) key }
    {
        self.read(key, text_at)
    }

    // Whether the map has so many entries. Its keys are distinct, so with as many entries as were found it has no others.
    pub(crate) fn has(&self, count: u64) -> bool
        ensures { result ≡ sized (map_head_at self.now.octets.now self.now.place) count }
    {
        map_head_at(self.octets, self.place).is_some_and(|(entries, _)| entries == count)
    }
}
