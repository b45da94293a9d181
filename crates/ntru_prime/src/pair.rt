// Tested pairs.

ghost use Rattle.std.specs.Prelude.{◌≡◌, Some};
ghost use Rattle.ntru_model.specs.Pairs.{secret_read};
ghost use Rattle.ntru_prime.specs.Sets.{pair_with, parameters};

use ring_solve::Poly;

/// A pair of the set with P coefficients, whose products are as they should be.
#[derive(Drop)]
pub struct TestedPair<const P: usize> {
    pub(crate) f: Poly,
    pub(crate) g_inverse: Poly,
    pub(crate) h: Poly,
    /// The secret key: f, g_inverse, the public key, rho, and the hash of the public key.
    pub(crate) secret: Vec<u8>,
    ghost tested: { secret_read (parameters P) secret.items ≡ Some (pair_with (parameters P) f g_inverse h secret.items) },
}
