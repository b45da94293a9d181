//! Texts of a history.

ghost use Rattle.std.specs.Prelude.{◌≡◌, ◌↔◌, List, [], ◌∷◌, ◌++◌, length, IsTrue, MatchResult};

use group_fields::{Bytes, MemberId, Memory, MessageId};
use std::alloc::Global;
use std::marker::Model;

/// A text: its message, who sent it, and its bytes where they could be read.
#[derive(Debug, Drop)]
pub struct TextRow {
    pub id: MessageId,
    pub sender: MemberId,
    pub text: Option<Bytes>,
}

/// A list of texts. Contracts see the list of their rows.
#[derive(Debug, Drop)]
pub struct Texts {
    items: Vec<TextRow>,
}

impl Model for Texts {
    ghost use Rattle.std.specs.Prelude.{List};
    ghost use Rattle.causal_history.specs.declared.texts.TextRow.{TextRow};

    ghost Value = { List TextRow };

    ghost view = { λ texts. texts.items.items };
}

impl Texts {
    /// No text yet.
    pub fn new(alloc: Global) -> Texts
        ensures { result ≡ [] }
    {
        Texts {
            items: Vec::new(alloc),
        }
    }

    /// Appends a text. Without memory the list stays as it was.
    pub fn push(&mut self, row: TextRow) -> Result<(), Memory>
        ensures { MatchResult result (λ _. self.new ≡ self.old ++ row ∷ []) (λ _. self.new ≡ self.old) }
    {
        self.items.push(row)?;
        Ok(())
    }

    /// The vector that holds the texts, which takes no memory.
    pub fn into_vec(self) -> Vec<TextRow>
        ensures { result.items ≡ self }
    {
        let Texts { items } = self;
        items
    }

    pub fn as_slice(&self) -> &[TextRow]
        ensures { result.now ≡ self.now }
    {
        &self.items
    }

    pub fn len(&self) -> usize
        ensures { result ≡ length self.now }
    {
        self.items.len()
    }

    pub fn is_empty(&self) -> bool
        ensures { IsTrue result ↔ (self.now ≡ []) }
    {
        self.items.is_empty()
    }
}

/// The texts of a vector, which takes no memory.
impl From<Vec<TextRow>> for Texts {
    ghost from_gives = { λ vector texts. texts ≡ vector.items };

    fn from(items: Vec<TextRow>) -> Texts {
        Texts { items }
    }
}
