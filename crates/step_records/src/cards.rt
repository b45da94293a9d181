//! The cards of a record, one behind the other.

ghost use Rattle.std.specs.Prelude.{◌≡◌, ◌++◌, ◌*◌, ◌≤◌, length, IfOk, MatchBool, MatchOption, OnOk};
ghost use Rattle.group_fields.specs.Cards.{spelling};
ghost use Rattle.group_fields.specs.declared.card.Card.{Card};
ghost use Rattle.group_model.specs.Sets.{In};
ghost use Rattle.reference_member.specs.Steps.{HasBytes, spellings};
ghost use Rattle.step_records.specs.CardLists.{AreCards, AreNoCards, HasNoFront, IsFront, PutsCards};

use group_fields::{
    Card, CardView, Cards, Cursor, Memory, append_bytes, append_digest, append_known, append_u8,
    take_card,
};
use std::alloc::Global;

/// The fields of a card before its public key.
const FIELDS_SIZE: usize = 91;

// How many bytes the spelling of a card has.
fn card_size(card: &Card) -> usize
    requires { HasBytes card.now }
    ensures size { result ≡ length (spelling card.now) }
    ensures few { result ≤ 1249 }
{
    FIELDS_SIZE + card.kem_public.len()
}

// How many bytes the spellings of cards have.
pub(crate) fn cards_size(cards: &[Card]) -> usize
    requires spelled { (card : Card) → In card cards.now → HasBytes card }
    requires few { length cards.now ≤ 31 }
    ensures size { result ≡ length (spellings cards.now) }
    ensures few { result ≤ 1249 * length cards.now }
{
    match cards {
        [] => 0,
        [card, others @ ..] => card_size(card) + cards_size(others),
    }
}

// Appends the spelling of a card.
fn append_card(bytes: &mut Vec<u8>, card: &Card) -> Result<(), Memory>
    requires { HasBytes card.now }
    ensures { OnOk result (bytes.new.items ≡ bytes.old.items ++ spelling card.now) }
{
    append_known(bytes, &[0x43])?;
    append_known(bytes, &[1])?;
    append_u8(bytes, card.set)?;
    append_bytes(bytes, &card.lms_public)?;
    append_digest(bytes, card.inviter.0)?;
    append_bytes(bytes, card.kem_public.as_slice())
}

// Appends the spellings of cards.
pub(crate) fn append_cards(bytes: &mut Vec<u8>, cards: &[Card]) -> Result<(), Memory>
    requires { (card : Card) → In card cards.now → HasBytes card }
    ensures { OnOk result (bytes.new.items ≡ bytes.old.items ++ spellings cards.now) }
{
    let [card, others @ ..] = cards else {
        return Ok(());
    };
    append_card(bytes, card)?;
    append_cards(bytes, others)
}

// The card that bytes begin with, and the bytes behind it.
fn split_card(bytes: &[u8]) -> Option<(CardView<'_>, &[u8])>
    ensures { MatchOption result (HasNoFront bytes.now) (λ both. IsFront bytes.now both.0 both.1.now) }
{
    let mut cursor = Cursor::new(bytes);
    let Ok(card) = take_card(&mut cursor, 1, 2) else {
        return None;
    };
    let place = cursor.place();
    Some((card, &bytes[place..]))
}

// Puts the cards behind others, where the bytes are so many. Otherwise the list is one to let go.
fn put_cards(cards: &mut Cards, count: u8, bytes: &[u8]) -> Result<bool, Memory>
    ensures { IfOk result (λ all.
        MatchBool all (PutsCards count bytes.now cards.old cards.new) (AreNoCards count bytes.now)) }
{
    if count == 0 {
        return Ok(bytes.is_empty());
    }
    let Some((card, others)) = split_card(bytes) else {
        return Ok(false);
    };
    cards.push(&card)?;
    put_cards(cards, count - 1, others)
}

// The cards of the bytes, where they are so many.
pub(crate) fn read_cards(alloc: Global, count: u8, bytes: &[u8]) -> Result<Option<Cards>, Memory>
    ensures { IfOk result (λ read. MatchOption read (AreNoCards count bytes.now) (AreCards count bytes.now)) }
{
    let mut cards = Cards::new(alloc);
    if put_cards(&mut cards, count, bytes)? {
        Ok(Some(cards))
    } else {
        Ok(None)
    }
}
