//! The cards of a welcome.

ghost use Rattle.std.specs.Prelude.{◌≡◌, ◌↔◌, ◌≤◌, ◌++◌, List, [], length, map, drop, IsTrue, IfOk, OnOk};
ghost use Rattle.group_fields.specs.Cards.{card_id};
ghost use Rattle.group_messages.specs.Messages.{ids_of, kind_of};
ghost use Rattle.group_model.specs.Membership.{named_by};
ghost use Rattle.causal_history.specs.Rows.{card_among};
ghost use Rattle.welcome_history.specs.Welcomes.{before, cards_for};

use group_fields::{CardView, Cards, HeaderView, IdsView, MemberId, Memory};
use member_view::{Act, act_of};
use std::alloc::Global;
use wire_codec::HistoryView;

/// The ids of the cards, in their order.
pub(crate) fn card_ids(alloc: Global, welcome: &HistoryView<'_>) -> Result<Vec<MemberId>, Memory>
    ensures { IfOk result (λ ids. map (λ id. id.0.0) ids.items ≡ map card_id welcome.now.cards) }
{
    let mut ids = Vec::new(alloc);
    for index in 0..welcome.cards() {
        ids.push(welcome.card(index).id())?;
    }
    Ok(ids)
}

// Whether two ids are one.
pub(crate) fn is_same(a: &MemberId, b: &MemberId) -> bool
    ensures { IsTrue result ↔ (a.now.0.0 ≡ b.now.0.0) }
{
    *a == *b
}

// The first card with the id, where one has it.
pub(crate) fn card_with<'a>(
    welcome: &HistoryView<'a>,
    ids: &[MemberId],
    id: &MemberId,
) -> Option<CardView<'a>>
    requires { map (λ id. id.0.0) ids.now ≡ map card_id welcome.now.cards }
    ensures { result ≡ card_among welcome.now.cards id.now.0.0 }
{
    for index in 0..welcome.cards() {
        if is_same(&ids[index as usize], id) {
            return Some(welcome.card(index));
        }
    }
    None
}

// Appends the card with the id, where one has it.
fn push_card(
    cards: &mut Cards,
    welcome: &HistoryView<'_>,
    ids: &[MemberId],
    id: &MemberId,
) -> Result<(), Memory>
    requires { map (λ id. id.0.0) ids.now ≡ map card_id welcome.now.cards }
    ensures { OnOk result (cards.new ≡ cards.old ++ before (card_among welcome.now.cards id.now.0.0) []) }
{
    match card_with(welcome, ids, id) {
        Some(card) => cards.push(&card),
        None => Ok(()),
    }
}

// Appends the cards of the named ids from an index on.
fn push_cards(
    cards: &mut Cards,
    welcome: &HistoryView<'_>,
    ids: &[MemberId],
    named: &IdsView<'_>,
    index: u32,
) -> Result<(), Memory>
    requires ids { map (λ id. id.0.0) ids.now ≡ map card_id welcome.now.cards }
    requires index { index ≤ length named.now }
    ensures { OnOk result
        (cards.new ≡ cards.old ++ cards_for welcome.now.cards (ids_of (drop index named.now))) }
{
    if index == named.count() {
        return Ok(());
    }
    push_card(cards, welcome, ids, &MemberId(named.id(index)))?;
    push_cards(cards, welcome, ids, named, index + 1)
}

/// The cards of the ids that a header names, in their order, as far as the welcome has them.
pub(crate) fn cards_of(
    alloc: Global,
    welcome: &HistoryView<'_>,
    ids: &[MemberId],
    header: &HeaderView<'_>,
) -> Result<Cards, Memory>
    requires { map (λ id. id.0.0) ids.now ≡ map card_id welcome.now.cards }
    ensures { IfOk result (λ cards. cards ≡ cards_for welcome.now.cards (named_by (kind_of header.now))) }
{
    let mut cards = Cards::new(alloc);
    match act_of(header) {
        Act::Create(named) => push_cards(&mut cards, welcome, ids, &named, 0)?,
        Act::Add(id) => push_card(&mut cards, welcome, ids, &id)?,
        _ => {}
    }
    Ok(cards)
}
