//! Cards and headers that are kept as their bytes, and viewed in them.

ghost use Rattle.std.specs.Prelude.{◌≡◌, ◌<◌, List, Some, length, slice_get, IfOk};
ghost use Rattle.group_model.specs.Sets.{In};
ghost use Rattle.group_fields.specs.Cards as card_words;
ghost use Rattle.group_fields.specs.declared.card.Card.{Card};

use group_fields::{Bytes, Card, CardView, HeaderView, Memory, read_card, read_header, write_card};
use std::alloc::Global;
use std::marker::Model;

/// A card, as its bytes.
#[derive(Drop)]
pub struct KeptCard {
    bytes: Bytes,
}

impl Model for KeptCard {
    ghost use Rattle.group_fields.specs.declared.card.Card.{Card};

    ghost Value = { Card };

    ghost use Rattle.group_fields.specs.Cards.{Spells};
    ghost use Rattle.causal_history.specs.Spelled.{card_spelled};

    ghost view = { λ kept. card_spelled kept.bytes };

    ghost invariant = { λ kept. Spells (card_spelled kept.bytes) kept.bytes };
}

impl KeptCard {
    pub(crate) fn of(alloc: Global, card: &Card) -> Result<KeptCard, Memory>
        requires { card_words.HasSpelling card.now }
        ensures { IfOk result (λ kept. kept ≡ card.now) }
    {
        let bytes = write_card(alloc, card)?;
        Ok(KeptCard { bytes })
    }

    pub(crate) fn view(&self) -> CardView<'_>
        ensures { result ≡ self.now }
    {
        read_card(self.bytes.as_slice()).unwrap()
    }
}

/// A header, as its bytes.
#[derive(Drop)]
pub struct KeptHeader {
    bytes: Bytes,
}

impl Model for KeptHeader {
    ghost use Rattle.group_fields.specs.declared.header.Header.{Header};

    ghost Value = { Header };

    ghost use Rattle.group_fields.specs.Headers.{Spells};
    ghost use Rattle.causal_history.specs.Spelled.{header_in};

    ghost view = { λ kept. header_in kept.bytes };

    ghost invariant = { λ kept. Spells (header_in kept.bytes) kept.bytes };
}

impl KeptHeader {
    pub(crate) fn of(alloc: Global, header: &HeaderView<'_>) -> Result<KeptHeader, Memory>
        ensures { IfOk result (λ kept. kept ≡ header.now) }
    {
        let bytes = Bytes::copy_of(alloc, header.bytes())?;
        Ok(KeptHeader { bytes })
    }

    pub(crate) fn view(&self) -> HeaderView<'_>
        ensures { result ≡ self.now }
    {
        read_header(self.bytes.as_slice()).unwrap()
    }
}

/// One row: a header and the cards of the ids that it names.
#[derive(Drop)]
pub struct KeptRow {
    header: KeptHeader,
    cards: Vec<KeptCard>,
}

impl Model for KeptRow {
    ghost use Rattle.causal_history.specs.Rows.{Row};

    ghost Value = { Row };

    ghost view = { λ row. record { header = row.header; cards = row.cards.items } };
}

impl KeptRow {
    pub(crate) fn of(
        alloc: Global,
        header: &HeaderView<'_>,
        cards: &[Card],
    ) -> Result<KeptRow, Memory>
        requires { (card : Card) → In card cards.now → card_words.HasSpelling card }
        ensures { IfOk result (λ row. row ≡ record { header = header.now; cards = cards.now }) }
    {
        let kept = KeptHeader::of(alloc, header)?;
        let mut copies = Vec::new(alloc);
        for card in cards {
            copies.push(KeptCard::of(alloc, card)?)?;
        }
        Ok(KeptRow {
            header: kept,
            cards: copies,
        })
    }

    pub(crate) fn header(&self) -> HeaderView<'_>
        ensures { result ≡ self.now.header }
    {
        self.header.view()
    }

    pub(crate) fn card(&self, at: u32) -> CardView<'_>
        requires { at < length self.now.cards }
        ensures { slice_get self.now.cards at ≡ Some result }
    {
        self.cards[at as usize].view()
    }
}
