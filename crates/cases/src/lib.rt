// The worked cases of the rules, in one table.
#![tactic(auto)]

ghost use Rattle.std.specs.Prelude.{◌≡◌, length};
ghost use Rattle.cases.specs.Table.{table, CasesHold};

const CASES: usize = 26;

/// Every case of the table holds of the definitions that the contracts use.
#[tactic(auto, using(crate::proofs::Computed::all_hold))]
pub fn table_holds() -> u8
    ensures zero { result ≡ 0 }
    ensures hold { CasesHold }
{
    0
}

/// How many cases the table has, every one of which holds of the definitions that the contracts use.
#[tactic(auto, using(crate::proofs::Computed::all_hold))]
pub fn cases() -> usize
    ensures count { result ≡ length table }
    ensures hold { CasesHold }
{
    CASES
}
