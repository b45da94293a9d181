//! The trait.

ghost use Rattle.std.specs.Prelude.{◌≡◌, ◌↔◌, Bool, true, List, ℕ, Option, Some, None, length, map, Any};
ghost use Rattle.std.specs.Prelude.{IsSome, IfOk, IfSome, IsErrOf, OnOk, ◌++◌, ◌∷◌, []};
ghost use Rattle.kem_trait.specs.Encapsulated.{Encapsulated};
ghost use Rattle.kem_trait.specs.Lengths.{HasSetLengths};
ghost use Rattle.kem_trait.specs.Streams.{Stream, behind};

use crate::Words;
use std::alloc::{AllocError, Global};
use std::marker::Model;

/// Want of memory.
pub type Memory = AllocError;

/// Why no pair is made.
#[derive(Clone, Copy, PartialEq, Eq, Debug)]
pub enum KemRefusal {
    /// The words give no usable key.
    NoUsableKey,
    /// Memory was wanting.
    Memory,
}

impl From<AllocError> for KemRefusal {
    ghost use Rattle.kem_trait.specs.declared.kem.KemRefusal.{KemRefusal};
    ghost use Rattle.kem_trait.specs.declared.kem.KemRefusal.TheVariants.{Memory as NoMemory};

    ghost from_gives = { λ _ refusal. refusal ≡ NoMemory };

    fn from(_: AllocError) -> KemRefusal {
        KemRefusal::Memory
    }
}

/// Key pairs, in the order of the sources that they were made from. Contracts see the list of them.
#[derive(Drop)]
pub struct PairList<T> {
    pairs: Vec<T>,
}

impl<T> Model for PairList<T> {
    ghost use Rattle.std.specs.Prelude.{List};

    ghost Value = { List T };

    ghost view = { λ list. list.pairs.items };
}

impl<T> PairList<T> {
    /// The list of these pairs.
    pub fn from_vec(pairs: Vec<T>) -> PairList<T>
        ensures { result ≡ pairs.items }
    {
        PairList { pairs }
    }

    /// Puts a pair behind the others. Where memory is wanting it is dropped.
    fn push(&mut self, pair: T) -> Result<(), AllocError>
    where
        T: Drop,
        ensures { OnOk result (self.new ≡ self.old ++ pair ∷ []) }
    {
        self.pairs.push(pair)?;
        Ok(())
    }

    /// The pairs.
    pub fn as_slice(&self) -> &[T]
        ensures { result.now ≡ self.now }
    {
        self.pairs.as_slice()
    }

    /// Gives the pairs back, without taking memory.
    pub fn into_vec(self) -> Vec<T>
        ensures { result.items ≡ self }
    {
        self.pairs
    }
}

/// A key encapsulation. Its keys and ciphertexts are bytes; a slice of them has the length that its constant states. What
/// it makes of words is a function of the stream of the words to come.
pub trait Kem {
    ghost SET: { ℕ };

    ghost PUBLIC_LEN: { ℕ };

    ghost SECRET_LEN: { ℕ };

    ghost CIPHER_LEN: { ℕ };

    /// The number of the set of parameters: 1 or 2.
    const SET: u8;
    /// How many bytes a public key has.
    const PUBLIC_LEN: usize;
    /// How many bytes a secret key has.
    const SECRET_LEN: usize;
    /// How many bytes a ciphertext has.
    const CIPHER_LEN: usize;

    /// A tested pair.
    type Pair: Drop;

    /// The secret key that words give, where they give a usable one.
    ghost made: { Stream → Option (List ℕ) };

    /// How many of the words are taken to make a pair, or to find that they give none.
    ghost pair_words: { Stream → ℕ };

    /// The bytes are the secret key of a tested pair.
    ghost is_secret: { List ℕ → Bool };

    /// The public key in a secret key.
    ghost public_in: { List ℕ → List ℕ };

    /// The bytes are a public key.
    ghost is_public: { List ℕ → Bool };

    /// What is encapsulated to a public key by words.
    ghost encapsulated: { List ℕ → Stream → Option Encapsulated };

    /// How many of the words are taken to encapsulate a key.
    ghost cipher_words: { ℕ };

    /// The key that a secret key finds in a ciphertext.
    ghost decapsulated: { List ℕ → List ℕ → Option (List ℕ) };

    /// The secret key of a pair.
    ghost secret_key: { Self.Pair → List ℕ };

    /// The number of the set fixes the lengths.
    ghost has_set_lengths: { HasSetLengths SET PUBLIC_LEN SECRET_LEN CIPHER_LEN };

    /// Each pair is tested.
    ghost pairs_are_tested: { (pair : Self.Pair) → is_secret (secret_key pair) ≡ true };

    /// What words give is the secret key of a tested pair.
    ghost made_is_tested: { (words : Stream) (secret : List ℕ) → made words ≡ Some secret
        → is_secret secret ≡ true };

    /// The public key of a tested pair is one.
    ghost public_is_public: { (secret : List ℕ) → is_secret secret ≡ true
        → is_public (public_in secret) ≡ true };

    /// Decapsulation undoes encapsulation.
    ghost decapsulates: { (secret : List ℕ) (words : Stream) (e : Encapsulated) → is_secret secret ≡ true
        → encapsulated (public_in secret) words ≡ Some e → decapsulated secret e.cipher ≡ Some e.key };

    /// A secret key of a tested pair has its length.
    ghost secrets_have_length: { (secret : List ℕ) → is_secret secret ≡ true
        → length secret ≡ SECRET_LEN };

    /// A public key has its length.
    ghost publics_have_length: { (public : List ℕ) → is_public public ≡ true
        → length public ≡ PUBLIC_LEN };

    /// To each public key any words encapsulate.
    ghost encapsulates: { (public : List ℕ) (words : Stream) → is_public public ≡ true
        → IsSome (encapsulated public words) };

    /// What is encapsulated is a ciphertext of its length and a key of 32 bytes.
    ghost ciphers_have_length: { (public : List ℕ) (words : Stream) (e : Encapsulated)
        → encapsulated public words ≡ Some e → (length e.cipher ≡ CIPHER_LEN) × (length e.key ≡ 32) };

    /// Makes a pair by words. `NoUsableKey` where they give none. The words behind those taken are left; where memory
    /// is wanting, which words are left is open.
    fn make<W: Words>(alloc: Global, words: &mut W) -> Result<Self::Pair, KemRefusal>
        ensures pair { IfOk result (λ pair. made (W.upcoming words.old) ≡ Some (secret_key pair)) }
        ensures unusable { IsErrOf result KemRefusal.NoUsableKey → made (W.upcoming words.old) ≡ None }
        ensures left { OnOk result (W.upcoming words.new
            ≡ behind (pair_words (W.upcoming words.old)) (W.upcoming words.old)) }
        ensures unusable_left { IsErrOf result KemRefusal.NoUsableKey
            → W.upcoming words.new ≡ behind (pair_words (W.upcoming words.old)) (W.upcoming words.old) };

    /// Makes for each source of words what `make` makes, and leaves the words that `make` leaves. `NoUsableKey` where
    /// some source gives no usable key; after a refusal, which words are left is open.
    fn make_many<W: Words>(
        alloc: Global,
        words: &mut [W],
    ) -> Result<PairList<Self::Pair>, KemRefusal>
        ensures pairs { IfOk result (λ pairs. map (λ pair. Some (secret_key pair)) pairs
            ≡ map (λ w. made (W.upcoming w)) words.old) }
        ensures unusable { IsErrOf result KemRefusal.NoUsableKey
            → Any (λ w. made (W.upcoming w) ≡ None) words.old }
        ensures left { OnOk result (map (λ w. W.upcoming w) words.new
            ≡ map (λ w. behind (pair_words (W.upcoming w)) (W.upcoming w)) words.old) }
    {
        let mut pairs = PairList::from_vec(Vec::new(alloc));
        for source in words.iter_mut() {
            let pair = Self::make(alloc, source)?;
            pairs.push(pair)?;
        }
        Ok(pairs)
    }

    /// The pair with this secret key. None where the bytes are the secret key of no tested pair.
    fn pair_from_secret(alloc: Global, secret: &[u8]) -> Result<Option<Self::Pair>, Memory>
        requires { length secret.now ≡ SECRET_LEN }
        ensures tested { IfOk result (λ answer. IsSome answer ↔ (is_secret secret.now ≡ true)) }
        ensures same { IfOk result (λ answer. IfSome answer (λ pair. secret_key pair ≡ secret.now)) };

    /// Writes the secret key.
    fn secret(pair: &Self::Pair, into: &mut [u8])
        requires { length into.old ≡ SECRET_LEN }
        ensures { into.new ≡ secret_key pair.now };

    /// Writes the public key.
    fn public(pair: &Self::Pair, into: &mut [u8])
        requires { length into.old ≡ PUBLIC_LEN }
        ensures { into.new ≡ public_in (secret_key pair.now) };

    /// Whether the bytes are a public key.
    fn public_ok(public: &[u8]) -> bool
        requires { length public.now ≡ PUBLIC_LEN }
        ensures { result ≡ is_public public.now };

    /// Writes a ciphertext to a public key, and answers the key in it. The words behind those taken are left.
    fn encap<W: Words>(public: &[u8], words: &mut W, cipher: &mut [u8]) -> [u8; 32]
        requires public_len { length public.now ≡ PUBLIC_LEN }
        requires public_ok { is_public public.now ≡ true }
        requires room { length cipher.old ≡ CIPHER_LEN }
        ensures given { encapsulated public.now (W.upcoming words.old)
            ≡ Some (record { cipher = cipher.new; key = result }) }
        ensures left { W.upcoming words.new ≡ behind cipher_words (W.upcoming words.old) };

    /// The key in a ciphertext. None where the ciphertext is not spelled.
    fn decap(pair: &Self::Pair, cipher: &[u8]) -> Option<[u8; 32]>
        requires { length cipher.now ≡ CIPHER_LEN }
        ensures { result ≡ decapsulated (secret_key pair.now) cipher.now };
}
