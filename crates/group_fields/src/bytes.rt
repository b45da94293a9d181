ghost use Rattle.std.specs.Prelude.{◌≡◌, ◌↔◌, List, ℕ, [], length, IsTrue, IfOk};

use crate::Memory;
use std::alloc::Global;
use std::marker::Model;

/// A byte string that owns its memory. Contracts see the list of its bytes.
#[derive(Debug, Drop)]
pub struct Bytes {
    items: Vec<u8>,
}

impl Model for Bytes {
    ghost Value = { List ℕ };

    ghost view = { λ bytes. bytes.items.items };
}

impl Bytes {
    /// A copy of a slice.
    pub fn copy_of(alloc: Global, items: &[u8]) -> Result<Bytes, Memory>
        ensures { IfOk result (λ bytes. bytes ≡ items.now) }
    {
        Ok(Bytes {
            items: items.to_vec(alloc)?,
        })
    }

    /// The vector that holds the bytes, which takes no memory.
    pub fn into_vec(self) -> Vec<u8>
        ensures { result.items ≡ self }
    {
        let Bytes { items } = self;
        items
    }

    pub fn as_slice(&self) -> &[u8]
        ensures { result.now ≡ self.now }
    {
        &self.items
    }

    pub fn len(&self) -> usize
        ensures { result ≡ length self.now }
    {
        self.items.len()
    }

    pub fn is_empty(&self) -> bool
        ensures { IsTrue result ↔ (self.now ≡ []) }
    {
        self.items.is_empty()
    }
}

/// The bytes of a vector, which takes no memory.
impl From<Vec<u8>> for Bytes {
    ghost from_gives = { λ vector bytes. bytes ≡ vector.items };

    fn from(items: Vec<u8>) -> Bytes {
        Bytes { items }
    }
}
