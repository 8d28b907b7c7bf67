// What the definitions of the line come to, said once each.
ghost use Rattle.std.specs.Prelude.{◌≡◌};
ghost use Rattle.line_laws.specs.Passing.{FlagsTold, StuffingTold, CheckTold};

// What each of these calls answers.
const TOLD: u8 = 0;

// The opening and the closing flag are the first ones there are.
pub fn flags_are_first() -> u8
    ensures told { FlagsTold }
    ensures zero { result ≡ 0 }
{
    TOLD
}

// Stuffing comes out in one way only.
pub fn stuffing_is_undone() -> u8
    ensures told { StuffingTold }
    ensures zero { result ≡ 0 }
{
    TOLD
}

// The residue tells an FCS, and nothing else leaves it.
pub fn residue_tells() -> u8
    ensures told { CheckTold }
    ensures zero { result ≡ 0 }
{
    TOLD
}
