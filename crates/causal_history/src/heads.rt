//! Heads of sets of rows.

ghost use Rattle.std.specs.Prelude.{◌≡◌, ℕ, ◌<◌, ◌≤◌, ◌↔◌, true, false, length, IsTrue, IfOk};
ghost use Rattle.group_model.specs.Sets.{Id, In};
ghost use Rattle.group_model.specs.Messages.{Message, AreHeads};
ghost use Rattle.group_model.specs.Marks.{HasNumber, marked};
ghost use Rattle.group_messages.specs.Messages.{ids_of};
ghost use Rattle.causal_history.specs.Bits.{mark};
ghost use Rattle.causal_history.specs.Numbered.{MarksHeads};
ghost use Rattle.causal_history.specs.Followed.{MarksFollowed, AreIdsOf};
ghost use Rattle.causal_history.specs.Rows.{history_of, IsKept};

use crate::history::History;
use crate::marks::Marks;
use group_fields::{Digest, HeaderView, Ids, Memory};
use group_messages::predecessors_ascend;
use std::alloc::Global;

impl History {
    /// Sets the marks to exactly the rows that a row of the set has among its predecessors.
    fn mark_followed(&self, of: &Marks, into: &mut Marks)
        ensures { MarksFollowed (history_of self.now) (mark of.now) (mark into.new) (length self.now) }
    {
        into.clear();
        for at in 0..self.count() {
            if of.has(at) {
                self.mark_predecessors(at, into);
            }
        }
    }

    /// Sets the marks to exactly the heads of the rows of the set.
    pub fn mark_heads(&self, of: &Marks, into: &mut Marks)
        ensures { MarksHeads (history_of self.now) (mark of.now) (mark into.new) }
    {
        let mut followed = Marks::new();
        self.mark_followed(of, &mut followed);
        into.clear();
        for at in 0..self.count() {
            if of.has(at) && !followed.has(at) {
                into.put(at);
            }
        }
    }

    /// Whether the header's predecessors are exactly the heads of the rows of the set.
    pub fn follows_heads(&self, of: &Marks, header: &HeaderView<'_>) -> bool
        ensures { IsTrue result
            ↔ AreHeads (marked (mark of.now) (history_of self.now)) (ids_of header.now.predecessors) }
    {
        predecessors_ascend();
        let _spelled = header.bytes();
        if self.missing(header).is_some() {
            return false;
        }
        let mut heads = Marks::new();
        self.mark_heads(of, &mut heads);
        let mut named = Marks::new();
        self.mark(&header.predecessors(), &mut named);
        heads.agrees_below(&named, self.count())
    }

    /// The ids of the heads of all rows, in ascending order.
    pub fn heads(&self) -> Result<Ids, Memory>
        ensures { IfOk result (λ ids. AreHeads (history_of self.now) (ids_of ids)) }
    {
        let mut all = Marks::new();
        self.mark_all(&mut all);
        let mut heads = Marks::new();
        self.mark_heads(&all, &mut heads);
        let mut ids = self.ids_of(&heads)?;
        ids.sort()?;
        digests(self.alloc, ids.as_slice())
    }

    // The ids of the rows of a set.
    fn ids_of(&self, of: &Marks) -> Result<Vec<[u8; 32]>, Memory>
        ensures { IfOk result (λ ids. AreIdsOf (history_of self.now) (mark of.now) (length self.now) ids.items) }
    {
        let mut ids = Vec::new(self.alloc);
        for at in 0..self.count() {
            if of.has(at) {
                ids.push(self.id(at).0.0)?;
            }
        }
        Ok(ids)
    }
}

// A list of ids.
fn digests(alloc: Global, ids: &[[u8; 32]]) -> Result<Ids, Memory>
    ensures { IfOk result (λ list. ids_of list ≡ ids.now) }
{
    let mut list = Ids::new(alloc);
    for id in ids {
        list.push(Digest(*id))?;
    }
    Ok(list)
}
