//! Ids with numbers: the number of an id is how many stood before it.

ghost use Rattle.std.specs.Prelude.{◌≡◌, ◌+◌, ◌<◌, ◌≤◌, [], ◌∷◌, ◌++◌, length, slice_get, Some, MatchOption, vec_len};
ghost use Rattle.std.specs.Prelude.{vec_capacity};
ghost use Rattle.indexmap.specs.IndexSet.{spare};
ghost use Rattle.group_model.specs.Sets.{In};
ghost use Rattle.group_model.specs.Marks.{IsPlace};
ghost use Rattle.group_model.specs.Membership.{with_id};

use indexmap::IndexSet;

/// Ids, each once, by their numbers.
pub(crate) type Index = IndexSet<[u8; 32]>;

/// The number of the id.
pub(crate) fn number_of(index: &Index, id: &[u8; 32]) -> Option<usize>
    ensures { MatchOption result (In id.now index.now.keys → ⊥) (λ at. IsPlace index.now.keys at id.now) }
{
    index.get_index_of(id)
}

/// Puts an id where it isn't there, for which there has to be room, and answers its number.
pub(crate) fn put(index: &mut Index, id: &[u8; 32]) -> usize
    requires { 0 < spare index.old }
    ensures keys { index.new.keys ≡ with_id index.old.keys id.now }
    ensures number { IsPlace index.new.keys result id.now }
    ensures room { spare index.old ≤ spare index.new + 1 }
{
    index.insert_full(*id).unwrap().0
}

/// Appends an item, for which there has to be room.
pub(crate) fn append<T: Drop>(list: &mut Vec<T>, item: T)
    requires { vec_len list.old < vec_capacity list.old }
    ensures items { list.new.items ≡ list.old.items ++ item ∷ [] }
    ensures size { vec_len list.new ≡ vec_len list.old + 1 }
    ensures room { vec_capacity list.old ≤ vec_capacity list.new }
{
    list.push(item).unwrap();
}
