//! Laws of every key encapsulation. Each function does nothing: its contract is the law.

ghost use Rattle.std.specs.Prelude.{◌≡◌, ◌≤◌, ℕ, List};
ghost use Rattle.kem_trait.specs.Lengths.{HasSetLengths};
ghost use Rattle.kem_trait.specs.Streams.{Stream};

use crate::Kem;

/// What a key encapsulation makes of words depends on the words alone: streams that agree at each place are equal, make
/// equal pairs and encapsulate the same.
pub fn depends_on_words<K: Kem>()
    ensures streams { (u v : Stream) → ((n : ℕ) → u n ≡ v n) → u ≡ v }
    ensures pairs { (u v : Stream) → ((n : ℕ) → u n ≡ v n) → K.made u ≡ K.made v }
    ensures ciphers { (public : List ℕ) (u v : Stream) → ((n : ℕ) → u n ≡ v n)
        → K.encapsulated public u ≡ K.encapsulated public v }
{}

/// The set is 1 or 2, and its number fixes how many bytes keys and ciphertexts have. So code that is generic over the key
/// encapsulation has room for them.
pub fn has_set_lengths<K: Kem>()
    ensures set { HasSetLengths K.SET K.PUBLIC_LEN K.SECRET_LEN K.CIPHER_LEN }
    ensures most { (K.PUBLIC_LEN ≤ 1158) × (K.SECRET_LEN ≤ 1763) × (K.CIPHER_LEN ≤ 1039) }
{}
