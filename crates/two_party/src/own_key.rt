//! The own keys that a pairing keeps until parts come that are sealed to them.

ghost use Rattle.std.specs.Prelude.{◌≡◌, IfOk};

use crate::writing::secret_bytes;
use group_fields::Memory;
use kem_trait::Kem;
use std::alloc::Global;
use std::marker::{Model, PhantomData};

/// A tested pair, kept as the bytes of its secret key alone: a pair has the polynomials in them beside it, and takes some
/// four times as much. Contracts see the secret key.
#[derive(Drop)]
pub(crate) struct OwnKey<K: Kem> {
    pub(crate) secret: Vec<u8>,
    kem: PhantomData<K>,
}

impl<K: Kem> Model for OwnKey<K> {
    ghost use Rattle.std.specs.Prelude.{◌≡◌, List, ℕ, true};

    ghost Value = { List ℕ };

    ghost view = { λ key. key.secret.items };

    ghost invariant = { λ key. K.is_secret key.secret.items ≡ true };
}

impl<K: Kem> OwnKey<K> {
    /// The key of a pair.
    pub(crate) fn new(alloc: Global, pair: &K::Pair) -> Result<OwnKey<K>, Memory>
        ensures { IfOk result (λ key. key ≡ K.secret_key pair.now) }
    {
        Ok(OwnKey {
            secret: secret_bytes::<K>(alloc, pair)?,
            kem: PhantomData,
        })
    }

    /// The pair, read from its secret key and tested again.
    pub(crate) fn pair(&self, alloc: Global) -> Result<K::Pair, Memory>
        ensures { IfOk result (λ pair. K.secret_key pair ≡ self.now) }
    {
        match K::pair_from_secret(alloc, self.secret.as_slice())? {
            Some(pair) => Ok(pair),
            None => unreachable!(),
        }
    }
}
