// The frame check sequence.
ghost use Rattle.std.specs.Prelude.{◌≡◌, ◌-◌};
ghost use Rattle.line.specs.Fcs.{step as stepped, register as registered, fcs_of};

// Shifts into the register whose lowest bit was 1.
const POLYNOMIAL: u16 = 0x8408;

// The register before the first octet, and the complement's mask.
const ONES: u16 = 0xFFFF;

// The register after one more octet.
fn step(register: u16, octet: u8) -> u16
    ensures { result ≡ stepped register octet }
{
    let mut r = register ^ octet as u16;
    for _i in 0..8u8 {
        r = if r & 1 == 1 {
            (r >> 1) ^ POLYNOMIAL
        } else {
            r >> 1
        };
    }
    r
}

// The register after all octets.
pub fn register(octets: &[u8]) -> u16
    ensures { result ≡ registered octets.now }
{
    let mut r = ONES;
    for octet in octets {
        r = step(r, *octet);
    }
    r
}

// The FCS of a message, as it is sent behind it.
pub fn fcs(octets: &[u8]) -> u16
    ensures { result ≡ fcs_of octets.now }
{
    ONES - register(octets)
}
