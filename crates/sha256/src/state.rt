// A hash in the making.
ghost use Rattle.std.specs.Prelude.{◌<◌};
ghost use Rattle.arrayvec.specs.ArrayVec.{array_vec_len};

use crate::words::Words;
use arrayvec::ArrayVec;

// The octets of a block.
pub(crate) const BLOCK: usize = 64;

/// A hash in the making: the hash value of the whole blocks so far, the octets behind them, and how many octets there were in all, modulo 2^64.
#[derive(Drop)]
pub struct Sha256 {
    pub(crate) hash: Words,
    pub(crate) part: ArrayVec<u8, BLOCK>,
    pub(crate) total: u64,
    ghost partial: { array_vec_len part < 64 },
}
