// The bits of an octet.
ghost use Rattle.std.specs.Prelude.{◌≡◌, ◌/◌, ◌^◌, ◌<◌};
ghost use Rattle.line.specs.Bits.{odd};

// Bit i of an octet, from the lowest.
pub(crate) fn bit(octet: u8, i: usize) -> bool
    requires { i < 8 }
    ensures { result ≡ odd (octet / 2 ^ i) }
{
    (octet >> i) & 1 == 1
}
