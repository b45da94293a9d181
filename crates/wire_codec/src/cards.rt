ghost use Rattle.std.specs.Prelude.{◌≡◌, ◌<◌, ◌≤◌, Some, None, drop, length, slice_get, IfOk};
ghost use Rattle.group_fields.specs.Cards.{key_size};
ghost use Rattle.group_fields.specs.Fields.{is_above};
ghost use Rattle.group_fields.specs.LayoutReads.{Takes};
ghost use Rattle.wire_codec.specs.Packets.{card_above, card_named, card_size, cards_above, cards_named, counted_cards};
ghost use Rattle.wire_codec.specs.Packets.{greatest_size, id_of};
ghost use Rattle.wire_codec.specs.Readings.{IsIn, Passes};

use group_fields::{CardView, Cursor, Digest, FieldFault, IdsView, read_card, take_card, take_u8};
use std::marker::Model;

// The most members that a group ever names.
const GREATEST_CARDS: u8 = 32;

// Cards of a set that are lent out of the bytes in which they stand one behind the other.
#[derive(Debug, Drop)]
pub struct CardsView<'a> {
    bytes: &'a [u8],
    set: u8,
    count: u8,
}

impl<'a> Model for CardsView<'a> {
    ghost use Rattle.std.specs.Prelude.{List};
    ghost use Rattle.group_fields.specs.Cards.{card_of_sets};
    ghost use Rattle.group_fields.specs.declared.card.Card.{Card};
    ghost use Rattle.wire_codec.specs.Readings.{AreCards};
    ghost use Rattle.wire_codec.specs.Repeated.{items_in};

    ghost Value = { List Card };

    ghost view = { λ cards. items_in (card_of_sets cards.set cards.set) cards.count cards.bytes.now };

    ghost invariant = { λ cards. AreCards cards.set cards.count cards.bytes.now };
}

impl<'a> CardsView<'a> {
    // How many there are.
    pub(crate) fn count(&self) -> u8
        ensures { result ≡ length self.now }
    {
        self.count
    }

    // The card at an index below the count.
    pub(crate) fn card(&self, index: u8) -> CardView<'a>
        requires { index < length self.now }
        ensures { slice_get self.now index ≡ Some result }
    {
        let size = card_size(self.set);
        let from = index as usize * size;
        read_card(&self.bytes[from..from + size]).unwrap()
    }

    // The same cards once more.
    pub(crate) fn again(&self) -> CardsView<'a>
        ensures { result ≡ self.now }
    {
        CardsView {
            bytes: self.bytes,
            set: self.set,
            count: self.count,
        }
    }
}

// The bytes of a public key of a set.
fn key_size(set: u8) -> usize
    ensures { result ≡ key_size set }
{
    if set == 1 { 1158 } else { 33 }
}

// The bytes of a card of a set.
fn card_size(set: u8) -> usize
    ensures { result ≡ card_size set }
{
    91 + key_size(set)
}

// The card of a set with an id, which is asked for once the card has no fault inside.
pub(crate) fn take_card_named<'a>(
    cursor: &mut Cursor<'a>,
    set: u8,
    id: Digest,
) -> Result<CardView<'a>, FieldFault>
    requires within { IsIn greatest_size cursor.old }
    requires least { 1 ≤ set }
    requires greatest { set ≤ 2 }
    ensures { Takes (λ card. card) (card_named set id) cursor.old cursor.new result }
{
    let place = cursor.place() as u32;
    let card = take_card(cursor, set, set)?;
    if card.id().0.0 == id.0 {
        Ok(card)
    } else {
        Err(FieldFault::Range(place))
    }
}

// Passes the cards of a set with the ids from an index on.
fn pass_cards_named(
    cursor: &mut Cursor<'_>,
    set: u8,
    ids: &IdsView<'_>,
    index: u32,
) -> Result<(), FieldFault>
    requires within { IsIn greatest_size cursor.old }
    requires least { 1 ≤ set }
    requires greatest { set ≤ 2 }
    requires index { index ≤ length ids.now }
    ensures { Passes (cards_named set (drop index ids.now)) cursor.old cursor.new result }
{
    if index == ids.count() {
        return Ok(());
    }
    let id = ids.id(index);
    take_card_named(cursor, set, id)?;
    pass_cards_named(cursor, set, ids, index + 1)
}

// The cards of a set with these ids, in their order.
pub(crate) fn take_cards_named<'a>(
    cursor: &mut Cursor<'a>,
    set: u8,
    ids: &IdsView<'_>,
) -> Result<CardsView<'a>, FieldFault>
    requires within { IsIn greatest_size cursor.old }
    requires least { 1 ≤ set }
    requires greatest { set ≤ 2 }
    requires few { length ids.now ≤ 32 }
    ensures { Takes (λ cards. cards) (cards_named set ids.now) cursor.old cursor.new result }
{
    let from = cursor.place();
    pass_cards_named(cursor, set, ids, 0)?;
    let _end = cursor.place();
    Ok(CardsView {
        bytes: cursor.since(from),
        set,
        count: ids.count() as u8,
    })
}

// Whether an id may stand behind the one before it.
fn is_above(last: Option<Digest>, id: Digest) -> bool
    ensures { result ≡ is_above last id.0 }
{
    match last {
        None => true,
        Some(last) => last.0.as_slice().cmp(id.0.as_slice()).is_lt(),
    }
}

// A card of a set with an id above the one before it, which is asked for once the card has no fault inside; and its id.
fn take_card_above<'a>(
    cursor: &mut Cursor<'a>,
    set: u8,
    last: Option<Digest>,
) -> Result<(CardView<'a>, Digest), FieldFault>
    requires within { IsIn greatest_size cursor.old }
    requires least { 1 ≤ set }
    requires greatest { set ≤ 2 }
    ensures takes { Takes (λ both. both.0) (card_above set last) cursor.old cursor.new result }
    ensures id { IfOk result (λ both. both.1 ≡ id_of both.0) }
{
    let place = cursor.place() as u32;
    let card = take_card(cursor, set, set)?;
    let id = card.id().0;
    if is_above(last, id) {
        Ok((card, id))
    } else {
        Err(FieldFault::Range(place))
    }
}

// Passes so many cards of a set, each with an id above the one before it.
fn pass_cards_above(
    cursor: &mut Cursor<'_>,
    set: u8,
    count: u8,
    last: Option<Digest>,
) -> Result<(), FieldFault>
    requires within { IsIn greatest_size cursor.old }
    requires least { 1 ≤ set }
    requires greatest { set ≤ 2 }
    ensures { Passes (cards_above set count last) cursor.old cursor.new result }
{
    if count == 0 {
        return Ok(());
    }
    let one = take_card_above(cursor, set, last)?;
    pass_cards_above(cursor, set, count - 1, Some(one.1))
}

// So many cards of a set, each with an id above the one before it.
fn take_cards_above<'a>(
    cursor: &mut Cursor<'a>,
    set: u8,
    count: u8,
) -> Result<CardsView<'a>, FieldFault>
    requires within { IsIn greatest_size cursor.old }
    requires least { 1 ≤ set }
    requires greatest { set ≤ 2 }
    ensures takes { Takes (λ cards. cards) (cards_above set count None) cursor.old cursor.new result }
    ensures count { IfOk result (λ cards. length cards ≡ count) }
{
    let from = cursor.place();
    pass_cards_above(cursor, set, count, None)?;
    let _end = cursor.place();
    Ok(CardsView {
        bytes: cursor.since(from),
        set,
        count,
    })
}

// A count, and so many cards of a set, each with an id above the one before it.
pub(crate) fn take_counted_cards<'a>(
    cursor: &mut Cursor<'a>,
    set: u8,
) -> Result<CardsView<'a>, FieldFault>
    requires within { IsIn greatest_size cursor.old }
    requires least { 1 ≤ set }
    requires greatest { set ≤ 2 }
    ensures { Takes (λ cards. cards) (counted_cards set) cursor.old cursor.new result }
{
    let count = take_u8(cursor, 0, GREATEST_CARDS)?;
    let cards = take_cards_above(cursor, set, count)?;
    Ok(cards)
}
