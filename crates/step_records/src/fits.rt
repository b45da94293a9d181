//! What fits into a record.

ghost use Rattle.std.specs.Prelude.{◌≡◌, ◌↔◌, IsTrue, length};
ghost use Rattle.group_fields.specs.declared.card.Card.{Card};
ghost use Rattle.group_model.specs.Sets.{In};
ghost use Rattle.member_identity.specs.Identity.{HasCards};
ghost use Rattle.reference_member.specs.Inputs.{input_of};
ghost use Rattle.reference_member.specs.Steps.{FitsRecord, HasBytes};

use crate::kinds::MOST_CARDS;
use group_fields::{Card, CardView, MemberId};
use kem_trait::Kem;
use reference_member::Input;

/// Whether what a member is given fits into a record, which `write_record` asks for. No memory is taken.
pub fn fits_record<K: Kem>(input: &Input<'_>) -> bool
    ensures { IsTrue result ↔ FitsRecord ⟦<K as Kem>⟧ (input_of input.now) }
{
    match input {
        Input::Init(inviter, height) => {
            ids_have_32_bytes(inviter);
            has_cards::<K>(*height)
        }
        Input::Create(cards) => {
            cards.len() <= MOST_CARDS as usize && are_spelled(cards.as_slice())
        }
        Input::Add(card) => {
            lent_cards_are_spelled(card);
            true
        }
        Input::Remove(target) => {
            ids_have_32_bytes(target);
            true
        }
        Input::Update | Input::Send(_) | Input::Packet(_) => true,
    }
}

/// A card that is lent out of bytes is one that bytes spell, so it fits into a record. Does nothing; its contract is
/// the law.
pub fn lent_cards_are_spelled(card: &CardView<'_>)
    ensures { HasBytes card.now }
{
    let _bytes = card.bytes();
}

// An id has 32 bytes, as its type says. Does nothing.
fn ids_have_32_bytes(id: &MemberId)
    ensures { length id.now.0.0 ≡ 32 }
{
    let _bytes: &[u8] = &id.0.0;
}

// Whether members of the set have cards at the height.
pub(crate) fn has_cards<K: Kem>(height: u32) -> bool
    ensures { IsTrue result ↔ HasCards ⟦<K as Kem>⟧ height }
{
    height == 10 || (K::SET == 2 && height == 5)
}

// Whether a card is one that bytes spell.
fn is_spelled(card: &Card) -> bool
    ensures { IsTrue result ↔ HasBytes card.now }
{
    let _set = card.set;
    let _key: &[u8] = &card.lms_public;
    ids_have_32_bytes(&card.inviter);
    card.has_spelling()
}

// Whether each card is one that bytes spell.
fn are_spelled(cards: &[Card]) -> bool
    ensures { IsTrue result ↔ ((card : Card) → In card cards.now → HasBytes card) }
{
    match cards {
        [] => true,
        [card, others @ ..] => is_spelled(card) && are_spelled(others),
    }
}
