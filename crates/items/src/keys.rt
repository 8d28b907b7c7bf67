// The keys of a map: whether a new one ascends, and whether it was there before.
ghost use Rattle.std.specs.Prelude.{◌≡◌, ◌<◌, ◌≤◌, [], length};
ghost use Rattle.std.specs.Option.{ok_or};
ghost use Rattle.items.specs.declared.types.Fault.TheVariants.{Malformed};
ghost use Rattle.items.specs.Keys.{span, above, has, judged};
ghost use Rattle.items.specs.Reading.{map_entries};
ghost use Rattle.items.specs.Held.{held, Added};

use crate::types::{Fault, Keys, MAP_ENTRIES};

impl<'a> Keys<'a> {
    #[tactic(auto, unfolding(crate::specs::Held::held))]
    pub(crate) fn new(octets: &'a [u8]) -> Keys<'a>
        ensures octets { result.octets.now ≡ octets.now }
        ensures none { held result ≡ [] }
        ensures zero { result.count ≡ 0 }
    {
        Keys {
            octets,
            starts: [0; MAP_ENTRIES],
            ends: [0; MAP_ENTRIES],
            count: 0,
            sorted: true,
        }
    }

    fn ascends(&self, key: &[u8]) -> bool
        ensures { result ≡ above (held self.now) key.now }
    {
        if self.count == 0 {
            return true;
        }
        let last = self.count - 1;
        &self.octets[self.starts[last]..self.ends[last]] < key
    }

    fn seen(&self, key: &[u8]) -> bool
        ensures { result ≡ has (held self.now) key.now }
    {
        // Kept: by number, since the two arrays are read side by side.
        for i in 0..self.count {
            if &self.octets[self.starts[i]..self.ends[i]] == key {
                return true;
            }
        }
        false
    }

    // Whether the key from `start` to `end` stands above the one before it; a fault where an earlier key has its octets.
    pub(crate) fn add(&mut self, start: usize, end: usize) -> Result<bool, Fault>
        requires room { self.old.count < map_entries }
        requires within { (start ≤ end) × (end ≤ length self.old.octets.now) }
        ensures is { result ≡ ok_or (judged (held self.old) (span self.old.octets.now start end)) Malformed }
        ensures added { Added result self.old self.new (span self.old.octets.now start end) }
    {
        let key = &self.octets[start..end];
        let up = self.ascends(key);
        let sorted = self.sorted & up;
        if !sorted && self.seen(key) {
            return Err(Fault::Malformed);
        }
        self.starts[self.count] = start;
        self.ends[self.count] = end;
        self.count += 1;
        self.sorted = sorted;
        Ok(up)
    }
}
