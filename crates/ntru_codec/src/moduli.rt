//! The moduli of a list of digits, round by round.

ghost use Rattle.std.specs.Prelude.{◌≡◌, ◌+◌, ◌*◌, ◌^◌, ◌<◌, ◌≤◌};

use crate::digit::{Shrunk, shrink};

/// A joined pair gives off bytes while its modulus is at least this.
const LIMIT: u32 = 16384;

/// The moduli of one round's digits. All have the same one, but for the last digit.
#[derive(Clone, Copy)]
pub(crate) struct Moduli {
    /// How many digits stand before the last.
    pub front: usize,
    pub each: u32,
    pub last: u32,
    ghost few: { front < 1000 },
    ghost each_above: { 0 < each },
    ghost each_fits: { each < 2 ^ 16 },
    ghost last_above: { 0 < last },
    ghost last_fits: { last < 2 ^ 16 },
}

/// What one round does: each pair of neighbours gives off the same number of bytes, but for what stands at the end, a
/// pair with the last digit, or that digit alone, which stays as it is.
#[derive(Clone, Copy)]
pub(crate) struct Round {
    /// How many pairs there are without the last digit.
    pub pairs: usize,
    pub each: Shrunk,
    pub last: Shrunk,
}

impl Moduli {
    ghost use Rattle.ntru_codec.specs.Round.{IsRound, round_len};

    /// Those of `count` digits that all have the same modulus.
    pub(crate) fn equal(count: usize, modulus: u16) -> Moduli
        requires some { 0 < count }
        requires few { count ≤ 761 }
        requires above { 0 < modulus }
        ensures front { result.front + 1 ≡ count }
        ensures each { result.each ≡ modulus }
        ensures last { result.last ≡ modulus }
    {
        Moduli {
            front: count - 1,
            each: u32::from(modulus),
            last: u32::from(modulus),
        }
    }

    /// The round that these digits go through.
    pub(crate) fn round(self) -> Round
        ensures { IsRound self result }
    {
        let last = if self.front % 2 == 0 {
            Shrunk {
                bytes: 0,
                modulus: self.last,
            }
        } else {
            shrink(self.each * self.last, LIMIT)
        };
        Round {
            pairs: self.front / 2,
            each: shrink(self.each * self.each, LIMIT),
            last,
        }
    }

    /// The moduli of the digits that this round leaves.
    pub(crate) fn after(self, round: Round) -> Moduli
        requires { IsRound self round }
        ensures front { result.front ≡ round.pairs }
        ensures each { result.each ≡ round.each.modulus }
        ensures last { result.last ≡ round.last.modulus }
    {
        Moduli {
            front: round.pairs,
            each: round.each.modulus,
            last: round.last.modulus,
        }
    }

    /// How many bytes this round gives off.
    pub(crate) fn len(self, round: Round) -> usize
        requires { IsRound self round }
        ensures exact { result ≡ round_len round }
        ensures few { result ≤ 4 * self.front + 4 }
    {
        round.each.bytes * round.pairs + round.last.bytes
    }
}
