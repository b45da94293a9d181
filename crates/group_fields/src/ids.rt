ghost use Rattle.std.specs.Prelude.{◌≡◌, ◌↔◌, List, [], ◌∷◌, ◌++◌, length, IsTrue, OnOk, OnErr};

use crate::Memory;
use std::alloc::Global;
use std::marker::Model;

/// A string of 32 bytes, mostly the SHA-256 of something.
#[derive(Clone, Copy, Debug, PartialEq, Eq, PartialOrd, Ord, Hash)]
pub struct Digest(pub [u8; 32]);

/// A member: the digest of its card. Ids are ordered by their bytes.
#[derive(Clone, Copy, Debug, PartialEq, Eq, PartialOrd, Ord, Hash)]
pub struct MemberId(pub Digest);

/// A group: a digest that its creator drew.
#[derive(Clone, Copy, Debug, PartialEq, Eq, PartialOrd, Ord, Hash)]
pub struct GroupId(pub Digest);

/// A message: the digest of its header.
#[derive(Clone, Copy, Debug, PartialEq, Eq, PartialOrd, Ord, Hash)]
pub struct MessageId(pub Digest);

/// A list of ids, of members or of messages. Contracts see the list of them.
#[derive(Debug, Drop)]
pub struct Ids {
    items: Vec<Digest>,
}

impl Model for Ids {
    ghost use Rattle.std.specs.Prelude.{List};
    ghost use Rattle.group_fields.specs.declared.ids.Digest.{Digest};

    ghost Value = { List Digest };

    ghost view = { λ ids. ids.items.items };
}

impl Ids {
    /// No id yet.
    pub fn new(alloc: Global) -> Ids
        ensures { result ≡ [] }
    {
        Ids {
            items: Vec::new(alloc),
        }
    }

    /// Appends an id. Without memory the list stays as it was.
    pub fn push(&mut self, id: Digest) -> Result<(), Memory>
        ensures ok { OnOk result (self.new ≡ self.old ++ id ∷ []) }
        ensures err { OnErr result (self.new ≡ self.old) }
    {
        self.items.push(id)?;
        Ok(())
    }

    /// The vector that holds the ids, which takes no memory.
    pub fn into_vec(self) -> Vec<Digest>
        ensures { result.items ≡ self }
    {
        let Ids { items } = self;
        items
    }

    pub fn as_slice(&self) -> &[Digest]
        ensures { result.now ≡ self.now }
    {
        &self.items
    }

    pub fn len(&self) -> usize
        ensures { result ≡ length self.now }
    {
        self.items.len()
    }

    pub fn is_empty(&self) -> bool
        ensures { IsTrue result ↔ (self.now ≡ []) }
    {
        self.items.is_empty()
    }
}

/// The ids of a vector, which takes no memory.
impl From<Vec<Digest>> for Ids {
    ghost from_gives = { λ vector ids. ids ≡ vector.items };

    fn from(items: Vec<Digest>) -> Ids {
        Ids { items }
    }
}
