//! What is asked of cards, taken once of each.

ghost use Rattle.std.specs.Prelude.{◌≡◌, List, IfOk, length, map};
ghost use Rattle.group_fields.specs.Cards.{HasSpelling, key_size};
ghost use Rattle.member_checks.specs.Facts.{facts_of, fault_of};
ghost use Rattle.member_checks.specs.Inputs.{AreSpelled};

use group_fields::{Card, CardView, Digest, MemberId, Memory, write_card};
use kem_trait::Kem;
use sha2::{Digest as Hasher, Sha256};
use std::alloc::Global;

// What is asked of a card: the place at which it is refused, its id, and the inviter that it names.
#[derive(Clone, Copy, Drop)]
pub(crate) struct CardFacts {
    pub(crate) fault: Option<u32>,
    pub(crate) id: MemberId,
    pub(crate) inviter: MemberId,
}

// The places of the set and of the key in a card.
const SET_PLACE: u32 = 2;

const KEY_PLACE: u32 = 91;

// The place at which a card with this set and this key is refused.
fn fault<K: Kem>(set: u8, kem_public: &[u8]) -> Option<u32>
    requires { length kem_public.now ≡ key_size set }
    ensures { result ≡ fault_of ⟦<K as Kem>⟧ set kem_public.now }
{
    if set != K::SET {
        return Some(SET_PLACE);
    }
    if K::public_ok(kem_public) {
        None
    } else {
        Some(KEY_PLACE)
    }
}

// What is asked of a card.
fn facts_of_card<K: Kem>(alloc: Global, card: &Card) -> Result<CardFacts, Memory>
    requires { HasSpelling card.now }
    ensures { IfOk result (λ facts. facts ≡ facts_of ⟦<K as Kem>⟧ card.now) }
{
    let bytes = write_card(alloc, card)?;
    let id = MemberId(Digest(Sha256::digest(bytes.as_slice())));
    Ok(CardFacts {
        fault: fault::<K>(card.set, card.kem_public.as_slice()),
        id,
        inviter: card.inviter,
    })
}

// What is asked of cards, in their order.
pub(crate) fn facts_of_cards<K: Kem>(
    alloc: Global,
    cards: &[Card],
) -> Result<Vec<CardFacts>, Memory>
    requires { AreSpelled cards.now }
    ensures { IfOk result (λ facts. facts.items ≡ map (facts_of ⟦<K as Kem>⟧) cards.now) }
{
    let mut facts = Vec::new(alloc);
    for card in cards {
        facts.push(facts_of_card::<K>(alloc, card)?)?;
    }
    Ok(facts)
}

// What is asked of a card that is lent.
pub(crate) fn facts_of_view<K: Kem>(card: &CardView<'_>) -> CardFacts
    ensures { result ≡ facts_of ⟦<K as Kem>⟧ card.now }
{
    let _bytes = card.bytes();
    CardFacts {
        fault: fault::<K>(card.set(), card.kem_public()),
        id: card.id(),
        inviter: card.inviter(),
    }
}
