ghost use Rattle.std.specs.Prelude.{◌≡◌, ◌<◌, ◌*◌, Some, length, slice_get, IfOk};
ghost use Rattle.group_fields.specs.Ids.{ids_in};

use crate::Memory;
use crate::ids::{Digest, Ids};
use std::alloc::Global;
use std::marker::Model;

/// Ids that are lent out of the bytes in which they stand one behind the other. Contracts see the list of them.
#[derive(Debug, Drop)]
pub struct IdsView<'a> {
    bytes: &'a [u8],
    count: u32,
}

impl<'a> Model for IdsView<'a> {
    ghost use Rattle.std.specs.Prelude.{List, ◌≡◌, ◌*◌, length};
    ghost use Rattle.group_fields.specs.Ids.{ids_in};
    ghost use Rattle.group_fields.specs.declared.ids.Digest.{Digest};

    ghost Value = { List Digest };

    ghost view = { λ ids. ids_in ids.count ids.bytes.now };

    ghost invariant = { λ ids. length ids.bytes.now ≡ 32 * ids.count };
}

impl<'a> IdsView<'a> {
    // So many ids, which fill the bytes.
    pub(crate) fn new(bytes: &'a [u8], count: u32) -> IdsView<'a>
        requires { length bytes.now ≡ 32 * count }
        ensures { result ≡ ids_in count bytes.now }
    {
        IdsView { bytes, count }
    }

    /// The same ids once more.
    pub fn again(&self) -> IdsView<'a>
        ensures { result ≡ self.now }
    {
        IdsView {
            bytes: self.bytes,
            count: self.count,
        }
    }

    pub fn count(&self) -> u32
        ensures { result ≡ length self.now }
    {
        self.count
    }

    /// The id at an index below the count.
    pub fn id(&self, index: u32) -> Digest
        requires { index < length self.now }
        ensures { slice_get self.now index ≡ Some result }
    {
        let from = index as usize * 32;
        let mut id = [0; 32];
        id.copy_from_slice(&self.bytes[from..from + 32]);
        Digest(id)
    }

    /// The ids as a list of their own.
    pub fn to_ids(&self, alloc: Global) -> Result<Ids, Memory>
        ensures { IfOk result (λ ids. ids ≡ self.now) }
    {
        let mut ids = Ids::new(alloc);
        for index in 0..self.count() {
            ids.push(self.id(index))?;
        }
        Ok(ids)
    }
}
