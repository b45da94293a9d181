//! The key encapsulation by its definitions, and its laws: each is the contract of a function.
#![tactic(auto)]

ghost use Rattle.std.specs.Prelude.{◌≡◌, ℕ, ◌+◌, ◌%◌, ◌<◌, length, take, drop, All, List, [], ◌∷◌, Some, None, ℤ, pos, negsuc};
ghost use Rattle.ring_poly.specs.Ring.{AreCongruent, IsCentred, product};
ghost use Rattle.ring_solve.specs.Fields.{one};
ghost use Rattle.ring_laws.specs.Laws.{HasInverse};
ghost use Rattle.ntru_codec.specs.Mixed.{mixed_encoding, Spells};
ghost use Rattle.ntru_codec.specs.Small.{IsSmall, small_encoding, SpellsSmall};
ghost use Rattle.kem_trait.specs.Encapsulated.{Encapsulated};
ghost use Rattle.ntru_model.specs.Parameters.{Parameters, IsKnown, sntrup761, drill37, small_len, public_len, core_len, secret_len, cipher_len};
ghost use Rattle.ntru_model.specs.Residues.{inverse_mod};
ghost use Rattle.kem_trait.specs.Streams.{Stream};
ghost use Rattle.ntru_model.specs.Draws.{marked, small_coefficient};
ghost use Rattle.ntru_model.specs.Encodings.{mixed_read, small_read, public_read, public_encoding};
ghost use Rattle.ntru_model.specs.Pairs.{KeyPair, hash, pair_drawn, public_key, secret_key, secret_read};
ghost use Rattle.ntru_model.specs.Encapsulation.{decapsulated, decapsulated_by, encapsulated};

/// What `inverse_mod` gives: the centred polynomial whose product with a is 1, and nothing where a has no inverse.
pub fn inverts()
    ensures found { (p m : ℕ) (a b : List ℤ) → 1 < p → m % 2 ≡ 1 → 1 < m → length a ≡ p → length b ≡ p → All (IsCentred (pos m)) b → AreCongruent (pos m) (product p a b) (one p) → inverse_mod p m a ≡ Some b }
    ensures none { (p m : ℕ) (a : List ℤ) → m % 2 ≡ 1 → 1 < m → (HasInverse p (pos m) a → ⊥) → inverse_mod p m a ≡ None }
    ensures only { (p m : ℕ) (a b : List ℤ) → m % 2 ≡ 1 → 1 < m → inverse_mod p m a ≡ Some b → (length b ≡ p) × All (IsCentred (pos m)) b × AreCongruent (pos m) (product p a b) (one p) }
{}

/// Each list of digits below a modulus, and each list of 4 k + 1 small coefficients, is read from its encoding, and nothing
/// else is read.
pub fn reads_encodings()
    ensures mixed { (n m : ℕ) (rs : List ℕ) → m < 65536 → length rs ≡ n → All (λ r. r < m) rs → mixed_read n m (mixed_encoding m rs) ≡ Some rs }
    ensures small { (n : ℕ) (a : List ℤ) → n % 4 ≡ 1 → length a ≡ n → All IsSmall a → small_read n (small_encoding a) ≡ Some a }
    ensures mixed_only { (n m : ℕ) (bytes rs : List ℕ) → mixed_read n m bytes ≡ Some rs → (length rs ≡ n) × Spells m bytes rs }
    ensures small_only { (n : ℕ) (bytes : List ℕ) (a : List ℤ) → small_read n bytes ≡ Some a → (length a ≡ n) × SpellsSmall bytes a }
{}

/// The polynomial of a public key: each polynomial of centred coefficients is read from its encoding, as that of a tested
/// pair, and nothing else is read.
pub fn reads_public_keys()
    ensures every { (s : Parameters) (h : List ℤ) → IsKnown s → length h ≡ s.p → All (IsCentred (pos s.q)) h → public_read s (public_encoding s h) ≡ Some h }
    ensures own { (s : Parameters) (secret : List ℕ) (pair : KeyPair) → IsKnown s → secret_read s secret ≡ Some pair → public_read s (public_key s pair) ≡ Some pair.h }
    ensures only { (s : Parameters) (public : List ℕ) (h : List ℤ) → IsKnown s → public_read s public ≡ Some h → (length h ≡ s.p) × All (IsCentred (pos s.q)) h }
    ensures bytes { (s : Parameters) (public : List ℕ) (h : List ℤ) → public_read s public ≡ Some h → public_encoding s h ≡ public }
{}

/// What is drawn is a tested pair: its secret key reads as the pair.
pub fn draws_tested_pairs()
    ensures { (s : Parameters) (words : Stream) (pair : KeyPair) → IsKnown s → pair_drawn s words ≡ Some pair → secret_read s (secret_key s pair) ≡ Some pair }
{}

/// A tested pair has one secret key, which is what it was read from; its public key, rho and the hash of the public key
/// stand in it.
pub fn has_one_secret()
    ensures whole { (s : Parameters) (secret : List ℕ) (pair : KeyPair) → IsKnown s → secret_read s secret ≡ Some pair → secret_key s pair ≡ secret }
    ensures public { (s : Parameters) (secret : List ℕ) (pair : KeyPair) → IsKnown s → secret_read s secret ≡ Some pair → take (public_len s) (drop (small_len s + small_len s) secret) ≡ public_key s pair }
    ensures rho { (s : Parameters) (secret : List ℕ) (pair : KeyPair) → IsKnown s → secret_read s secret ≡ Some pair → take (small_len s) (drop (small_len s + small_len s + public_len s) secret) ≡ pair.rho }
    ensures cache { (s : Parameters) (secret : List ℕ) (pair : KeyPair) → IsKnown s → secret_read s secret ≡ Some pair → drop (small_len s + small_len s + public_len s + small_len s) secret ≡ hash 4 (public_key s pair) }
{}

/// Equal words draw equal pairs, and encapsulate the same.
pub fn depends_on_words()
    ensures pairs { (s : Parameters) (u v : Stream) → ((n : ℕ) → u n ≡ v n) → pair_drawn s u ≡ pair_drawn s v }
    ensures keys { (s : Parameters) (public : List ℕ) (u v : Stream) → ((n : ℕ) → u n ≡ v n) → encapsulated s public u ≡ encapsulated s public v }
{}

/// Decapsulation by a tested pair gives the key that was encapsulated to its public key.
pub fn decapsulates()
    ensures { (s : Parameters) (secret : List ℕ) (pair : KeyPair) (words : Stream) (e : Encapsulated) → IsKnown s → secret_read s secret ≡ Some pair → encapsulated s (public_key s pair) words ≡ Some e → decapsulated_by s secret e.cipher ≡ Some e.key }
{}

/// How many bytes each thing has.
pub fn has_lengths()
    ensures secret { (s : Parameters) (secret : List ℕ) (pair : KeyPair) → IsKnown s → secret_read s secret ≡ Some pair → length secret ≡ secret_len s }
    ensures public { (s : Parameters) (secret : List ℕ) (pair : KeyPair) → IsKnown s → secret_read s secret ≡ Some pair → length (public_key s pair) ≡ public_len s }
    ensures cipher { (s : Parameters) (public : List ℕ) (words : Stream) (e : Encapsulated) → encapsulated s public words ≡ Some e → length e.cipher ≡ cipher_len s }
    ensures key { (s : Parameters) (public : List ℕ) (words : Stream) (e : Encapsulated) → encapsulated s public words ≡ Some e → length e.key ≡ 32 }
    ensures answer { (s : Parameters) (pair : KeyPair) (cipher key : List ℕ) → decapsulated s pair cipher ≡ Some key → length key ≡ 32 }
{}

/// The lengths in bytes of both sets.
pub fn counts_bytes()
    ensures small { (small_len sntrup761 ≡ 191) × (small_len drill37 ≡ 10) }
    ensures public { (public_len sntrup761 ≡ 1158) × (public_len drill37 ≡ 33) }
    ensures core { (core_len sntrup761 ≡ 1007) × (core_len drill37 ≡ 26) }
    ensures secret { (secret_len sntrup761 ≡ 1763) × (secret_len drill37 ≡ 95) }
    ensures cipher { (cipher_len sntrup761 ≡ 1039) × (cipher_len drill37 ≡ 58) }
{}

/// Words at the bounds of the coefficients, and marked words.
pub fn draws_examples()
    ensures least { small_coefficient 0 ≡ negsuc 0 }
    ensures middle { small_coefficient 0x20000000 ≡ pos 0 }
    ensures greatest { small_coefficient 0x3fffffff ≡ pos 1 }
    ensures high_bits { small_coefficient 0xc0000000 ≡ negsuc 0 }
    ensures marks { (marked 7 6 15 ≡ 14) × (marked 7 7 15 ≡ 13) }
{}
