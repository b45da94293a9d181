ghost use Rattle.std.specs.Prelude.{◌≡◌, length, IsErrOf, IsSome, IfOk, Some, None};
ghost use Rattle.group_fields.specs.Cards.{Spells};
ghost use Rattle.lms_sign.specs.Trees.{IsHeight};
ghost use Rattle.member_identity.specs.Identity.{AreKeysOf, HasCards, card_bytes, secret_from, signing_tree};

use crate::keys::Keys;
use group_fields::{Bytes, Card, MemberId, Memory, write_card};
use hkdf_seal::kdf;
use kem_trait::{Kem, KemRefusal, SeedWords};
use lms_sign::Tree;
use std::alloc::Global;
use std::marker::Model;

/// A member as the step that made it: the id of its inviter, 32 zero bytes for nobody, its 32 random bytes, and the key pair
/// of the key encapsulation that these give. Contracts see the inviter and the random bytes, which all else follows from.
#[derive(Drop)]
pub struct Identity<K: Kem> {
    inviter: MemberId,
    random: [u8; 32],
    pair: K::Pair,
}

impl<K: Kem> Model for Identity<K> {
    ghost use Rattle.std.specs.Prelude.{◌≡◌, Some};
    ghost use Rattle.member_identity.specs.Identity.{Origin, pair_words};

    ghost Value = { Origin };

    ghost view = { λ identity. record { inviter = identity.inviter.0.0; random = identity.random } };

    ghost invariant = { λ identity. K.made (pair_words identity.random) ≡ Some (K.secret_key identity.pair) };
}

impl<K: Kem> Identity<K> {
    /// The member that an inviter, 32 zero bytes for nobody, and 32 random bytes make. Its key pair is drawn from the words of
    /// ChaCha with 20 rounds (RFC 8439, section 2.3) under the key that the random bytes give under the label "kem".
    ///
    /// `NoUsableKey` only where these words give no usable key, so that no call with these random bytes makes a member.
    /// `Memory` where an allocation was refused.
    pub fn make(
        alloc: Global,
        inviter: MemberId,
        random: &[u8; 32],
    ) -> Result<Identity<K>, KemRefusal>
        ensures made { IfOk result (λ identity. identity ≡ record { inviter = inviter.0.0; random = random.now }) }
        ensures usable { IfOk result (λ identity. IsSome (secret_from ⟦<K as Kem>⟧ random.now)) }
        ensures unusable { IsErrOf result KemRefusal.NoUsableKey → secret_from ⟦<K as Kem>⟧ random.now ≡ None }
    {
        let mut words = SeedWords::new(&kdf(random, b"kem", b""));
        let pair = K::make(alloc, &mut words)?;
        Ok(Identity {
            inviter,
            random: *random,
            pair,
        })
    }

    // The bytes of the member's card, with the LMS public key (RFC 8554, section 5.3) of the member's tree.
    fn card_with(&self, alloc: Global, tree: &Tree, height: u32) -> Result<Bytes, Memory>
        requires height { HasCards ⟦<K as Kem>⟧ height }
        requires tree { tree.now ≡ signing_tree height self.now.random }
        ensures bytes { IfOk result (λ bytes. card_bytes ⟦<K as Kem>⟧ height self.now ≡ Some bytes) }
        ensures spells { IfOk result (λ bytes. (value : Card) × Spells value bytes) }
    {
        let card = Card {
            set: K::SET,
            lms_public: tree.public(),
            inviter: self.inviter,
            kem_public: kem_public::<K>(alloc, &self.pair)?,
        };
        write_card(alloc, &card)
    }

    /// What the member signs with and shows: its tree of a height, which has 2 ^ height leaves, its card and its id. The
    /// height is 10 with set 1, 5 or 10 with set 2. Each call makes the whole tree anew.
    ///
    /// `Memory` where an allocation was refused.
    pub fn keys(&self, alloc: Global, height: u32) -> Result<Keys, Memory>
        requires { HasCards ⟦<K as Kem>⟧ height }
        ensures { IfOk result (AreKeysOf ⟦<K as Kem>⟧ height self.now) }
    {
        let tree = signing_tree(alloc, height, &self.random)?;
        let card = self.card_with(alloc, &tree, height)?;
        Ok(Keys::new(tree, card))
    }

    /// The bytes of the member's card at a height, as `keys` has it. Each call makes the whole tree anew.
    ///
    /// `Memory` where an allocation was refused.
    pub fn card(&self, alloc: Global, height: u32) -> Result<Bytes, Memory>
        requires { HasCards ⟦<K as Kem>⟧ height }
        ensures { IfOk result (λ bytes. card_bytes ⟦<K as Kem>⟧ height self.now ≡ Some bytes) }
    {
        let tree = signing_tree(alloc, height, &self.random)?;
        self.card_with(alloc, &tree, height)
    }

    /// The member's key pair, which is that on its card.
    pub fn into_pair(self) -> K::Pair
        ensures { secret_from ⟦<K as Kem>⟧ self.random ≡ Some (K.secret_key result) }
    {
        let Identity {
            inviter: _,
            random: _,
            pair,
        } = self;
        pair
    }
}

/// The tree of a height that a member with these random bytes signs with.
fn signing_tree(alloc: Global, height: u32, random: &[u8; 32]) -> Result<Tree, Memory>
    requires { IsHeight height }
    ensures { IfOk result (λ tree. tree ≡ signing_tree height random.now) }
{
    let seed = kdf(random, b"lms seed", b"");
    let long_id = kdf(random, b"lms id", b"");
    let id = long_id.first_chunk::<16>().unwrap();
    Tree::make(alloc, height, id, &seed)
}

/// The public key of a pair, in memory of its own.
fn kem_public<K: Kem>(alloc: Global, pair: &K::Pair) -> Result<Bytes, Memory>
    ensures key { IfOk result (λ public. public ≡ K.public_in (K.secret_key pair.now)) }
    ensures size { IfOk result (λ public. length public ≡ K.PUBLIC_LEN) }
{
    let mut public = vec![in alloc; 0; K::PUBLIC_LEN]?;
    K::public(pair, public.as_mut_slice());
    Ok(Bytes::from(public))
}
