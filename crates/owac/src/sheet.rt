// A sheet that says which keys are known and which signatures are good.
ghost use Rattle.owac.specs.Sheets.{known_by, good_by, good-known};

use verdicts::{TagSheet, Transcript, VerdictSheet, Verifier};

#[derive(Drop)]
pub enum Sheet {
    Verdicts(Vec<u8>),
    Tags(Vec<u8>),
}

impl Verifier for Sheet {
    ghost known = { λ sheet kid alg. known_by sheet kid alg };

    ghost good = { λ sheet kid alg transcript signature. good_by sheet kid alg transcript signature };

    ghost sound = { λ sheet kid alg transcript signature. good-known sheet kid alg transcript signature };

    fn knows(&self, kid: &[u8; 16], alg: u8) -> bool {
        match self {
            Sheet::Verdicts(octets) => VerdictSheet::new(octets.as_slice()).knows(kid, alg),
            Sheet::Tags(octets) => TagSheet::new(octets.as_slice()).knows(kid, alg),
        }
    }

    fn is_good(
        &self,
        kid: &[u8; 16],
        alg: u8,
        transcript: &Transcript<'_>,
        signature: &[u8],
    ) -> bool {
        match self {
            Sheet::Verdicts(octets) => {
                VerdictSheet::new(octets.as_slice()).is_good(kid, alg, transcript, signature)
            }
            Sheet::Tags(octets) => {
                TagSheet::new(octets.as_slice()).is_good(kid, alg, transcript, signature)
            }
        }
    }
}
