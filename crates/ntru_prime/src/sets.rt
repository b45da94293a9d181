//! The two sets.

ghost use Rattle.std.specs.Prelude.{◌≡◌, ℕ, refl};
ghost use Rattle.std.proofs.Common.{inl, inr};
ghost use Rattle.ntru_model.specs.Parameters.{drill37, sntrup761};

use crate::blanks::blank;
use crate::encodings::read_public;
use crate::pair::TestedPair;
use crate::{encapsulation, making, reading};
use kem_trait::{Kem, KemRefusal, Words};
use std::alloc::{AllocError, Global};

/// The set with p = 761, q = 4591 and w = 286.
pub struct Sntrup761;

/// The set with p = 37, q = 127 and w = 7, for rehearsals: it has no security.
pub struct Drill37;

impl Kem for Sntrup761 {
    ghost use Rattle.ntru_model.specs.Encapsulation.{decapsulated_by, encapsulated};
    ghost use Rattle.ntru_model.specs.Pairs.{pair_words};
    ghost use Rattle.ntru_prime.specs.Keys.{is_public, is_secret, made, public_in};
    ghost use Rattle.ntru_prime.specs.PairKeys.{secret_of};
    ghost use Rattle.ntru_prime.specs.Lengths.{large_lengths};
    ghost use Rattle.ntru_prime.specs.KeyLaws.{is_secret_from, made_is_tested, public_is_public, decapsulates, secrets_have_length, publics_have_length, encapsulates, ciphers_have_length};

    ghost SET = { 1 };

    ghost PUBLIC_LEN = { 1158 };

    ghost SECRET_LEN = { 1763 };

    ghost CIPHER_LEN = { 1039 };

    const SET: u8 = 1;

    const PUBLIC_LEN: usize = 1158;

    const SECRET_LEN: usize = 1763;

    const CIPHER_LEN: usize = 1039;

    type Pair = TestedPair<761>;

    ghost made = { made sntrup761 };

    ghost pair_words = { pair_words sntrup761 };

    ghost is_secret = { is_secret sntrup761 };

    ghost public_in = { public_in sntrup761 };

    ghost is_public = { is_public sntrup761 };

    ghost encapsulated = { encapsulated sntrup761 };

    ghost cipher_words = { 761 };

    ghost decapsulated = { decapsulated_by sntrup761 };

    ghost secret_key = { secret_of };

    ghost has_set_lengths = { inl (refl, refl, refl, refl) };

    ghost pairs_are_tested = { λ pair. is_secret_from sntrup761 _ _ pair.tested };

    ghost made_is_tested = { made_is_tested sntrup761 (inl refl) };

    ghost public_is_public = { public_is_public sntrup761 (inl refl) };

    ghost decapsulates = { decapsulates sntrup761 (inl refl) };

    ghost secrets_have_length = { secrets_have_length large_lengths };

    ghost publics_have_length = { publics_have_length large_lengths };

    ghost encapsulates = { encapsulates sntrup761 };

    ghost ciphers_have_length = { ciphers_have_length large_lengths };

    fn make<V: Words>(alloc: Global, words: &mut V) -> Result<TestedPair<761>, KemRefusal> {
        making::make::<761, 4591, 286, V>(alloc, words)
    }

    fn pair_from_secret(
        alloc: Global,
        secret: &[u8],
    ) -> Result<Option<TestedPair<761>>, AllocError> {
        reading::from_secret::<761, 4591, 286>(alloc, secret)
    }

    fn secret(pair: &TestedPair<761>, into: &mut [u8]) {
        into.copy_from_slice(pair.secret.as_slice());
    }

    fn public(pair: &TestedPair<761>, into: &mut [u8]) {
        reading::copy_public::<761, 4591, 286>(pair, into)
    }

    fn public_ok(public: &[u8]) -> bool {
        let mut h = blank::<761>();
        read_public::<761, 4591, 286>(public, &mut h).is_some()
    }

    fn encap<V: Words>(public: &[u8], words: &mut V, cipher: &mut [u8]) -> [u8; 32] {
        encapsulation::encap::<761, 4591, 286, V>(public, words, cipher)
    }

    fn decap(pair: &TestedPair<761>, cipher: &[u8]) -> Option<[u8; 32]> {
        encapsulation::decap::<761, 4591, 286>(pair, cipher)
    }
}

impl Kem for Drill37 {
    ghost use Rattle.ntru_model.specs.Encapsulation.{decapsulated_by, encapsulated};
    ghost use Rattle.ntru_model.specs.Pairs.{pair_words};
    ghost use Rattle.ntru_prime.specs.Keys.{is_public, is_secret, made, public_in};
    ghost use Rattle.ntru_prime.specs.PairKeys.{secret_of};
    ghost use Rattle.ntru_prime.specs.Lengths.{little_lengths};
    ghost use Rattle.ntru_prime.specs.KeyLaws.{is_secret_from, made_is_tested, public_is_public, decapsulates, secrets_have_length, publics_have_length, encapsulates, ciphers_have_length};

    ghost SET = { 2 };

    ghost PUBLIC_LEN = { 33 };

    ghost SECRET_LEN = { 95 };

    ghost CIPHER_LEN = { 58 };

    const SET: u8 = 2;

    const PUBLIC_LEN: usize = 33;

    const SECRET_LEN: usize = 95;

    const CIPHER_LEN: usize = 58;

    type Pair = TestedPair<37>;

    ghost made = { made drill37 };

    ghost pair_words = { pair_words drill37 };

    ghost is_secret = { is_secret drill37 };

    ghost public_in = { public_in drill37 };

    ghost is_public = { is_public drill37 };

    ghost encapsulated = { encapsulated drill37 };

    ghost cipher_words = { 37 };

    ghost decapsulated = { decapsulated_by drill37 };

    ghost secret_key = { secret_of };

    ghost has_set_lengths = { inr (refl, refl, refl, refl) };

    ghost pairs_are_tested = { λ pair. is_secret_from drill37 _ _ pair.tested };

    ghost made_is_tested = { made_is_tested drill37 (inr refl) };

    ghost public_is_public = { public_is_public drill37 (inr refl) };

    ghost decapsulates = { decapsulates drill37 (inr refl) };

    ghost secrets_have_length = { secrets_have_length little_lengths };

    ghost publics_have_length = { publics_have_length little_lengths };

    ghost encapsulates = { encapsulates drill37 };

    ghost ciphers_have_length = { ciphers_have_length little_lengths };

    fn make<V: Words>(alloc: Global, words: &mut V) -> Result<TestedPair<37>, KemRefusal> {
        making::make::<37, 127, 7, V>(alloc, words)
    }

    fn pair_from_secret(
        alloc: Global,
        secret: &[u8],
    ) -> Result<Option<TestedPair<37>>, AllocError> {
        reading::from_secret::<37, 127, 7>(alloc, secret)
    }

    fn secret(pair: &TestedPair<37>, into: &mut [u8]) {
        into.copy_from_slice(pair.secret.as_slice());
    }

    fn public(pair: &TestedPair<37>, into: &mut [u8]) {
        reading::copy_public::<37, 127, 7>(pair, into)
    }

    fn public_ok(public: &[u8]) -> bool {
        let mut h = blank::<37>();
        read_public::<37, 127, 7>(public, &mut h).is_some()
    }

    fn encap<V: Words>(public: &[u8], words: &mut V, cipher: &mut [u8]) -> [u8; 32] {
        encapsulation::encap::<37, 127, 7, V>(public, words, cipher)
    }

    fn decap(pair: &TestedPair<37>, cipher: &[u8]) -> Option<[u8; 32]> {
        encapsulation::decap::<37, 127, 7>(pair, cipher)
    }
}
