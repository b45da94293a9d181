//! Laws of the primitives.

ghost use Rattle.std.specs.Prelude.{◌≡◌, ◌<◌, ◌^◌, true, Some, IsSome};
ghost use Rattle.group_model.specs.Sets.{Bytes};
ghost use Rattle.group_model.specs.Primitives.{KeyPair, Encapsulation, Content};
ghost use Rattle.group_model.specs.Pairing.{Part, Target, sealed_part};
ghost use Rattle.group_parts.specs.Parts.{IsSized};
ghost use Rattle.group_keys.specs.Primitives.{primitives_of};

use kem_trait::Kem;

/// The primitives of every key encapsulation are lawful: what is sealed opens, a pair that a seed gives is tested, the
/// owner of a tested pair finds what was encapsulated to its public key, and what is written of a content is read back.
/// A tested pair's public key is a public key, and to each public key every seed encapsulates.
pub fn primitives_are_lawful<K: Kem>()
    ensures sealing { (key text : Bytes)
        → (primitives_of ⟦<K as Kem>⟧).unseal key ((primitives_of ⟦<K as Kem>⟧).seal key text) ≡ Some text }
    ensures pairs { (seed : Bytes) (pair : KeyPair) → (primitives_of ⟦<K as Kem>⟧).make seed ≡ Some pair
        → (primitives_of ⟦<K as Kem>⟧).is_pair pair.secret pair.public ≡ true }
    ensures keys { (secret public seed : Bytes) (e : Encapsulation)
        → (primitives_of ⟦<K as Kem>⟧).is_pair secret public ≡ true
        → (primitives_of ⟦<K as Kem>⟧).encapsulate public seed ≡ Some e
        → (primitives_of ⟦<K as Kem>⟧).decapsulate secret e.ciphertext ≡ Some e.key }
    ensures contents { (content : Content) (bytes : Bytes) → (primitives_of ⟦<K as Kem>⟧).write content ≡ Some bytes
        → (primitives_of ⟦<K as Kem>⟧).read bytes ≡ Some content }
    ensures public_keys { (secret public : Bytes) → (primitives_of ⟦<K as Kem>⟧).is_pair secret public ≡ true
        → ⟦<K as Kem>⟧.is_public public ≡ true }
    ensures encapsulates { (public seed : Bytes) → ⟦<K as Kem>⟧.is_public public ≡ true
        → IsSome ((primitives_of ⟦<K as Kem>⟧).encapsulate public seed) }
{}

/// A part that is made has its sizes, so it is read back from its bytes: what is encapsulated to the target, whose
/// number fits 32 bits, and a content that is written make no other.
pub fn made_parts_have_sizes<K: Kem>()
    ensures { (to : Target) (content : Content) (seed : Bytes) (part : Part) → to.number < 2 ^ 32
        → sealed_part (primitives_of ⟦<K as Kem>⟧) to ((primitives_of ⟦<K as Kem>⟧).encapsulate to.public seed)
        ((primitives_of ⟦<K as Kem>⟧).write content) ≡ Some part
        → IsSized ⟦<K as Kem>⟧ part }
{}
