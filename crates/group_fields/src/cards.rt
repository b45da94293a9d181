ghost use Rattle.std.specs.Prelude.{◌≡◌, ◌↔◌, List, [], ◌∷◌, ◌++◌, length, IsTrue, OnOk, OnErr};

use crate::Memory;
use crate::card::Card;
use crate::card_view::CardView;
use std::alloc::Global;
use std::marker::Model;

/// A list of cards. Contracts see the list of their values.
#[derive(Debug, Drop)]
pub struct Cards {
    items: Vec<Card>,
}

impl Model for Cards {
    ghost use Rattle.std.specs.Prelude.{List};
    ghost use Rattle.group_fields.specs.declared.card.Card.{Card};

    ghost Value = { List Card };

    ghost view = { λ cards. cards.items.items };
}

impl Cards {
    /// No card yet.
    pub fn new(alloc: Global) -> Cards
        ensures { result ≡ [] }
    {
        Cards {
            items: Vec::new(alloc),
        }
    }

    /// Appends the card that a view shows. Without memory the list stays as it was.
    pub fn push(&mut self, card: &CardView<'_>) -> Result<(), Memory>
        ensures ok { OnOk result (self.new ≡ self.old ++ card.now ∷ []) }
        ensures err { OnErr result (self.new ≡ self.old) }
    {
        let alloc = *self.items.allocator();
        let value = card.to_card(alloc)?;
        self.items.push(value)?;
        Ok(())
    }

    /// The vector that holds the cards, which takes no memory.
    pub fn into_vec(self) -> Vec<Card>
        ensures { result.items ≡ self }
    {
        let Cards { items } = self;
        items
    }

    pub fn as_slice(&self) -> &[Card]
        ensures { result.now ≡ self.now }
    {
        &self.items
    }

    pub fn len(&self) -> usize
        ensures { result ≡ length self.now }
    {
        self.items.len()
    }

    pub fn is_empty(&self) -> bool
        ensures { IsTrue result ↔ (self.now ≡ []) }
    {
        self.items.is_empty()
    }
}

/// The cards of a vector, which takes no memory.
impl From<Vec<Card>> for Cards {
    ghost from_gives = { λ vector cards. cards ≡ vector.items };

    fn from(items: Vec<Card>) -> Cards {
        Cards { items }
    }
}
