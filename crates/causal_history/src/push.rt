//! One row more, and whether it may be pushed.

ghost use Rattle.std.specs.Prelude.{◌≡◌, ◌+◌, ◌≤◌, ◌∷◌, [], ◌++◌, ◌↔◌, List, map, length, IsTrue, IfOk, MatchResult};
ghost use Rattle.group_fields.specs.Cards as card_words;
ghost use Rattle.group_fields.specs.Cards.{card_id};
ghost use Rattle.group_fields.specs.declared.card.Card.{Card};
ghost use Rattle.group_model.specs.Sets.{Id, In, IsDistinct};
ghost use Rattle.group_model.specs.Membership.{ids_named, joined, named_by};
ghost use Rattle.group_messages.specs.Messages.{ids_of, kind_of, message_of};
ghost use Rattle.causal_history.specs.Rows.{Row, AreCardsOf, MayBePushed, history_of};

use crate::history::History;
use crate::kept::{KeptCard, KeptRow};
use group_fields::{Card, Cards, HeaderView, IdsView, Kind, MemberId, Memory, TargetView};
use group_messages::{named_ids_are_few, targets_say_the_kind};
use std::alloc::Global;

impl History {
    /// One row more: the header, and the cards of the ids that a create or an add names, in their order. Its
    /// predecessors have to be there and its id not, there have to be fewer than 4,096 rows, and at most 32 ids may be
    /// named afterwards (`may_push`). After `Memory` the history is as it was.
    pub fn push(&mut self, header: &HeaderView<'_>, cards: &Cards) -> Result<(), Memory>
        requires { MayBePushed self.old (record { header = header.now; cards = cards.now }) }
        ensures { MatchResult result
            (λ _. self.new ≡ self.old ++ (record { header = header.now; cards = cards.now }) ∷ [])
            (λ _. self.new ≡ self.old) }
    {
        let _spelled = header.bytes();
        let row = KeptRow::of(self.alloc, header, cards.as_slice())?;
        self.table.make_room()?;
        self.table.push(header, row);
        Ok(())
    }

    /// Whether the row may be pushed. It takes memory for the ids of the cards.
    pub fn may_push(&self, header: &HeaderView<'_>, cards: &Cards) -> Result<bool, Memory>
        ensures { IfOk result (λ may. IsTrue may
            ↔ MayBePushed self.now (record { header = header.now; cards = cards.now })) }
    {
        if self.count() >= 4096 || !self.may_name(header) {
            return Ok(false);
        }
        if self.missing(header).is_some() {
            return Ok(false);
        }
        let known = self.find(&header.id());
        if known.is_some() {
            return Ok(false);
        }
        are_cards_of(self.alloc, cards.as_slice(), header)
    }

    // Whether at most 32 ids are named with the header.
    fn may_name(&self, header: &HeaderView<'_>) -> bool
        ensures { IsTrue result ↔ (length (ids_named (message_of header.now ∷ history_of self.now)) ≤ 32) }
    {
        targets_say_the_kind();
        named_ids_are_few();
        let _spelled = header.bytes();
        let known = u32::from(self.places());
        match (header.kind(), header.target()) {
            (Kind::Create, TargetView::Members(ids)) => known + self.count_new(&ids) <= 32,
            (Kind::Add, TargetView::Member(id)) => known + self.count_new_one(&id) <= 32,
            _ => true,
        }
    }

    // 1 where the history doesn't name the id, else 0.
    fn count_new_one(&self, id: &MemberId) -> u32
        ensures count { length (joined (ids_named (history_of self.now)) (id.now.0.0 ∷ []))
            ≡ length (ids_named (history_of self.now)) + result }
        ensures few { result ≤ 1 }
    {
        match self.place(id) {
            Some(_) => 0,
            None => 1,
        }
    }

    // How many of the ids the history doesn't name.
    fn count_new(&self, ids: &IdsView<'_>) -> u32
        requires distinct { IsDistinct (ids_of ids.now) }
        requires few { length ids.now ≤ 32 }
        ensures count { length (joined (ids_named (history_of self.now)) (ids_of ids.now))
            ≡ length (ids_named (history_of self.now)) + result }
        ensures few { result ≤ length ids.now }
    {
        let mut count = 0;
        for at in 0..ids.count() {
            if self.place(&MemberId(ids.id(at))).is_none() {
                count += 1;
            }
        }
        count
    }
}

// Whether the cards are those of the ids that the header names, in their order.
fn are_cards_of(alloc: Global, cards: &[Card], header: &HeaderView<'_>) -> Result<bool, Memory>
    ensures { IfOk result (λ are. IsTrue are ↔ AreCardsOf (named_by (kind_of header.now)) cards.now) }
{
    targets_say_the_kind();
    let _spelled = header.bytes();
    match header.kind() {
        Kind::Create => match header.target() {
            TargetView::Members(ids) => are_cards_of_ids(alloc, cards, &ids),
            _ => Ok(false),
        },
        Kind::Add => match header.target() {
            TargetView::Member(id) => are_cards_of_one(alloc, cards, &id.0.0),
            _ => Ok(false),
        },
        _ => Ok(cards.is_empty()),
    }
}

// Whether the cards are those of the ids, in their order.
fn are_cards_of_ids(alloc: Global, cards: &[Card], ids: &IdsView<'_>) -> Result<bool, Memory>
    ensures { IfOk result (λ are. IsTrue are ↔ AreCardsOf (ids_of ids.now) cards.now) }
{
    if cards.len() != ids.count() as usize {
        return Ok(false);
    }
    for at in 0..ids.count() {
        let is = is_card_of(alloc, &cards[at as usize], &ids.id(at).0)?;
        if !is {
            return Ok(false);
        }
    }
    Ok(true)
}

// Whether the one card is that of the id.
fn are_cards_of_one(alloc: Global, cards: &[Card], id: &[u8; 32]) -> Result<bool, Memory>
    ensures { IfOk result (λ are. IsTrue are ↔ AreCardsOf (id.now ∷ []) cards.now) }
{
    match cards {
        [card] => is_card_of(alloc, card, id),
        _ => Ok(false),
    }
}

// Whether the card has a spelling, and is that of the id.
fn is_card_of(alloc: Global, card: &Card, id: &[u8; 32]) -> Result<bool, Memory>
    ensures { IfOk result (λ is. IsTrue is ↔ (card_words.HasSpelling card.now × (card_id card.now ≡ id.now))) }
{
    if !card.has_spelling() {
        return Ok(false);
    }
    let kept = KeptCard::of(alloc, card)?;
    Ok(kept.view().id().0.0 == *id)
}
