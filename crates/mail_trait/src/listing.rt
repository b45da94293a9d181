ghost use Rattle.std.specs.Prelude.{◌≡◌, ◌↔◌, List, [], length, IsTrue};

use group_fields::Text;
use std::marker::Model;

/// One file of a mail folder: its name, and how many bytes it has.
#[derive(Debug, Drop)]
pub struct Entry {
    pub name: Text,
    pub length: u64,
}

/// The files of a mail folder, a row each. Contracts see the list of the rows.
#[derive(Debug, Drop)]
pub struct Listing {
    rows: Vec<Entry>,
}

impl Model for Listing {
    ghost use Rattle.std.specs.Prelude.{List};
    ghost use Rattle.mail_trait.specs.declared.listing.Entry.{Entry};

    ghost Value = { List Entry };

    ghost view = { λ listing. listing.rows.items };
}

impl Listing {
    /// The vector that holds the rows, which takes no memory.
    pub fn into_vec(self) -> Vec<Entry>
        ensures { result.items ≡ self }
    {
        let Listing { rows } = self;
        rows
    }

    pub fn as_slice(&self) -> &[Entry]
        ensures { result.now ≡ self.now }
    {
        &self.rows
    }

    pub fn len(&self) -> usize
        ensures { result ≡ length self.now }
    {
        self.rows.len()
    }

    pub fn is_empty(&self) -> bool
        ensures { IsTrue result ↔ (self.now ≡ []) }
    {
        self.rows.is_empty()
    }
}

/// The rows of a vector, which takes no memory.
impl From<Vec<Entry>> for Listing {
    ghost from_gives = { λ vector listing. listing ≡ vector.items };

    fn from(rows: Vec<Entry>) -> Listing {
        Listing { rows }
    }
}
