// The entries of a map, read forward, and the values that they have.
ghost use Rattle.std.specs.Prelude.{◌≡◌, ◌≤◌, ◌-◌, ℕ, Option, Some, None, MatchOption, OnSome};
ghost use Rattle.items.specs.Fields.{bind, key_at};
ghost use Rattle.message.specs.Entries.{map_of, next_key, id_at, alg_at, context_at, ended, Opens, Reads, Leaves};

use items::types::Span;
use items::{bytes_at, key_at, map_head_at, unsigned_at};

// The octets of an identifier.
const ID: usize = 16;

// The highest alg; the lowest is 1.
const ALGS: u64 = 3;

// The most octets of a context or an echo.
const CONTEXT: usize = 32;

// The entries of a map that are still to be read.
#[derive(Clone, Copy)]
pub(crate) struct Entries<'a> {
    octets: &'a [u8],
    // Where the next entry starts, or where the map ends.
    pub(crate) place: usize,
    // How many entries are left above the required ones.
    left: u64,
}

impl<'a> Entries<'a> {
    // The entries of the map at the place, which has at least the required ones.
    #[tactic(auto, unfolding(crate::specs::Entries::map_of))]
    pub(crate) fn at(octets: &'a [u8], place: usize, required: u64) -> Option<Entries<'a>>
        ensures { Opens octets.now result (map_of required octets.now place) }
    {
        let (count, place) = map_head_at(octets, place)?;
        let left = count.checked_sub(required)?;
        Some(Entries {
            octets,
            place,
            left,
        })
    }

    // Passes this unsigned number.
    pub(crate) fn pass(&mut self, number: u64) -> Option<()>
        ensures { MatchOption (key_at number self.old.octets.now self.old.place) (result ≡ None) (λ q. Reads result self.old self.new (Some (tt, q))) }
    {
        self.place = key_at(self.octets, self.place, number)?;
        Some(())
    }

    // The value of this key, which the next entry has.
    // Kept: `read` takes octets and a place, and not the entries, so that the readers of `items` can be passed here as they are.
    pub(crate) fn required<T, F: Fn(&[u8], usize) -> Option<(T, usize)>>(
        &mut self,
        key: u64,
        read: F,
    ) -> Option<T>
        requires { F.IsAlwaysCallable read }
        ensures { MatchOption (key_at key self.old.octets.now self.old.place) (result ≡ None) (λ q. (came : Option (T × ℕ)) × F.post read self.old.octets q came × Reads result self.old self.new came) }
    {
        let place = key_at(self.octets, self.place, key)?;
        let (value, behind) = read(self.octets, place)?;
        self.place = behind;
        Some(value)
    }

    // The place behind this key, if an entry is left and the next one has it.
    #[tactic(auto, unfolding(crate::specs::Entries::next_key))]
    fn next_key(&self, key: u64) -> Option<usize>
        ensures is { result ≡ next_key self.now.left key self.now.octets.now self.now.place }
        ensures some { OnSome result (1 ≤ self.now.left) }
    {
        if self.left == 0 {
            return None;
        }
        key_at(self.octets, self.place, key)
    }

    // The value of this key, if an entry is left and the next one has it.
    pub(crate) fn optional<T, F: Fn(&[u8], usize) -> Option<(T, usize)>>(
        &mut self,
        key: u64,
        read: F,
    ) -> Option<Option<T>>
        requires { F.IsAlwaysCallable read }
        ensures { MatchOption (next_key self.old.left key self.old.octets.now self.old.place) (Leaves result self.old self.new (Some (None, self.old.left, self.old.place))) (λ q. (came : Option (T × ℕ)) × F.post read self.old.octets q came × Leaves result self.old self.new (bind came (λ x. Some (Some x.0, self.old.left - 1, x.1)))) }
    {
        let Some(place) = self.next_key(key) else {
            return Some(None);
        };
        let (value, behind) = read(self.octets, place)?;
        self.place = behind;
        self.left -= 1;
        Some(Some(value))
    }

    // The place behind the entries, if none is left.
    pub(crate) fn end(self) -> Option<usize>
        ensures { result ≡ ended self.entry.left self.entry.place }
    {
        (self.left == 0).then_some(self.place)
    }
}

// An identifier: a byte string of 16 octets.
#[tactic(auto, using(crate::proofs::Bounds::string_lies, crate::proofs::Bounds::lies_shown), unfolding(crate::specs::Entries::id_at, items::specs::Spans::shown))]
pub(crate) fn id_at(octets: &[u8], place: usize) -> Option<([u8; ID], usize)>
    ensures { result ≡ id_at octets.now place }
{
    let (span, behind) = bytes_at(octets, place)?;
    let id = <[u8; ID]>::try_from(span.of(octets)?).ok()?;
    Some((id, behind))
}

// The alg of a signature, 1 to 3.
#[tactic(auto, unfolding(crate::specs::Entries::alg_at))]
pub(crate) fn alg_at(octets: &[u8], place: usize) -> Option<(u8, usize)>
    ensures { result ≡ alg_at octets.now place }
{
    let (alg, behind) = unsigned_at(octets, place)?;
    match alg {
        1..=ALGS => Some((alg as u8, behind)),
        _ => None,
    }
}

// A context or an echo: a byte string of up to 32 octets.
#[tactic(auto, unfolding(crate::specs::Entries::context_at))]
pub(crate) fn context_at(octets: &[u8], place: usize) -> Option<(Span, usize)>
    ensures { result ≡ context_at octets.now place }
{
    bytes_at(octets, place).filter(|(span, _)| span.len <= CONTEXT)
}
