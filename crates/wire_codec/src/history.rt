ghost use Rattle.std.specs.Prelude.{◌≡◌, ◌<◌, ◌≤◌, Some, length, slice_get};
ghost use Rattle.group_fields.specs.LayoutReads.{Takes};
ghost use Rattle.wire_codec.specs.Packets.{greatest_size, history};
ghost use Rattle.wire_codec.specs.Readings.{IsIn};

use crate::cards::{CardsView, take_counted_cards};
use crate::rows::{Rows, take_counted_rows};
use group_fields::{CardView, Cursor, FieldFault, HeaderView};
use std::marker::Model;

/// The history that an add hands on, lent out of its packet. Contracts see its cards and its headers.
#[derive(Debug, Drop)]
pub struct HistoryView<'a> {
    cards: CardsView<'a>,
    rows: Rows<'a>,
}

impl<'a> Model for HistoryView<'a> {
    ghost use Rattle.wire_codec.specs.Packets.{WelcomeRows};

    ghost Value = { WelcomeRows };

    ghost view = { λ history. record { cards = history.cards; rows = history.rows } };
}

impl<'a> HistoryView<'a> {
    /// How many headers it has, at most 4,095.
    pub fn rows(&self) -> u16
        ensures { result ≡ length self.now.rows }
    {
        self.rows.count()
    }

    /// The header at an index below the count, which is found from the first one on. A walk over all is `all_rows`.
    pub fn row(&self, index: u16) -> HeaderView<'a>
        requires { index < length self.now.rows }
        ensures { slice_get self.now.rows index ≡ Some result }
    {
        self.rows.row(index)
    }

    /// A walk over all headers, which goes once over their bytes.
    pub fn all_rows(&self) -> Rows<'a>
        ensures { result ≡ self.now.rows }
    {
        self.rows.again()
    }

    /// How many cards it has, at most 32.
    pub fn cards(&self) -> u8
        ensures { result ≡ length self.now.cards }
    {
        self.cards.count()
    }

    /// The card at an index below the count.
    pub fn card(&self, index: u8) -> CardView<'a>
        requires { index < length self.now.cards }
        ensures { slice_get self.now.cards index ≡ Some result }
    {
        self.cards.card(index)
    }

    // The same history once more.
    pub(crate) fn again(&self) -> HistoryView<'a>
        ensures { result ≡ self.now }
    {
        HistoryView {
            cards: self.cards.again(),
            rows: self.rows.again(),
        }
    }
}

// Cards of a set, and headers.
#[tactic(auto, unfolding(crate::specs::Packets::history, group_fields::specs::LayoutReads::read))]
pub(crate) fn take_history<'a>(
    cursor: &mut Cursor<'a>,
    set: u8,
) -> Result<HistoryView<'a>, FieldFault>
    requires within { IsIn greatest_size cursor.old }
    requires least { 1 ≤ set }
    requires greatest { set ≤ 2 }
    ensures { Takes (λ history. history) (history set) cursor.old cursor.new result }
{
    let cards = take_counted_cards(cursor, set)?;
    let rows = take_counted_rows(cursor)?;
    Ok(HistoryView { cards, rows })
}
