// A reader whose type ties its place to the length of its octets, so that no read tests the place again.
ghost use Rattle.std.specs.Prelude.{◌≤◌, length};

pub mod heads;

#[derive(Clone, Copy)]
pub struct Reader<'a> {
    octets: &'a [u8],
    place: usize,
    ghost inside: { place ≤ length octets.now },
}
