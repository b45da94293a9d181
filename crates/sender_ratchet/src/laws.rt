//! Laws of the keys. The function does nothing: its contract is the law.

ghost use Rattle.std.specs.Prelude.{◌≡◌, [], codes};
ghost use Rattle.group_model.specs.Sets.{Bytes};
ghost use Rattle.group_model.specs.KeyTerms.{first_chain, next_chain, message_key};
ghost use Rattle.hkdf_seal.specs.Keys.{kdf};
ghost use Rattle.hkdf_seal.specs.Sealing.{opened, sealed_with_tag};
ghost use Rattle.group_keys.specs.Primitives.{primitives_of};
ghost use Rattle.group_parts.specs.Ratchets.{next_ratchet, update_secret};

use kem_trait::Kem;

/// What the calls of this crate compute is what a group's primitives and key terms say, for every key encapsulation.
#[tactic(auto, unfolding(group_keys::specs::Primitives::primitives_of, group_model::specs::KeyTerms::first_chain, group_model::specs::KeyTerms::next_chain, group_model::specs::KeyTerms::message_key))]
pub fn keys_are_terms<K: Kem>()
    ensures ratchet { (primitives_of ⟦<K as Kem>⟧).next ≡ next_ratchet }
    ensures secret { (primitives_of ⟦<K as Kem>⟧).out ≡ update_secret }
    ensures first { (secret : Bytes) → first_chain (primitives_of ⟦<K as Kem>⟧) secret ≡ kdf secret (codes "chain") [] }
    ensures chain { (chain : Bytes) → next_chain (primitives_of ⟦<K as Kem>⟧) chain ≡ kdf chain (codes "next") [] }
    ensures key { (chain : Bytes) → message_key (primitives_of ⟦<K as Kem>⟧) chain ≡ kdf chain (codes "text") [] }
    ensures seals { (primitives_of ⟦<K as Kem>⟧).seal ≡ sealed_with_tag }
    ensures opens { (primitives_of ⟦<K as Kem>⟧).unseal ≡ opened }
{}
