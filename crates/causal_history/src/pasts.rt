//! Sets of rows: predecessors and pasts.

ghost use Rattle.std.specs.Prelude.{◌≡◌, ℕ, ◌<◌, ◌≤◌, ◌↔◌, true, ◌+◌, take, drop, length, MatchOption, MatchResult};
ghost use Rattle.group_model.specs.Sets.{Id, In};
ghost use Rattle.group_model.specs.Messages.{Message, Stands};
ghost use Rattle.group_model.specs.Marks.{HasNumber, MarksPast, marked};
ghost use Rattle.group_messages.specs.Messages.{ids_of, message_of};
ghost use Rattle.causal_history.specs.Bits.{mark};
ghost use Rattle.causal_history.specs.Numbered.{AreNumbersOf, IsLeastMissing, MarksMore};
ghost use Rattle.causal_history.specs.Rows.{history_of, IsKept};

use crate::history::History;
use crate::marks::Marks;
use group_fields::{HeaderView, IdsView, MessageId};
use group_messages::predecessors_ascend;

impl History {
    /// Marks exactly all rows.
    pub fn mark_all(&self, into: &mut Marks)
        ensures each { (i : ℕ) → (mark into.new i ≡ true) ↔ (i < length self.now) }
        ensures marked { marked (mark into.new) (history_of self.now) ≡ history_of self.now }
    {
        into.set_first(self.count());
    }

    /// Marks the rows with these ids besides those that are marked.
    pub fn mark(&self, ids: &IdsView<'_>, into: &mut Marks)
        ensures { MarksMore (history_of self.now) (ids_of ids.now) (mark into.old) (mark into.new) }
    {
        for at in 0..ids.count() {
            if let Some(index) = self.find(&MessageId(ids.id(at))) {
                into.put(index);
            }
        }
    }

    // The numbers of the rows that are the predecessors of the row.
    fn predecessors_of(&self, index: u32) -> &[u16]
        requires { index < length self.now }
        ensures numbers { (m : Message) → HasNumber (history_of self.now) index m
            → AreNumbersOf (history_of self.now) m.predecessors result.now }
        ensures kept { IsKept self.now }
    {
        let link = self.table.links[index as usize];
        part(
            &self.table.numbers,
            link.first as usize,
            link.count as usize,
        )
    }

    /// Marks the predecessors of the row with the number besides the rows that are marked.
    pub fn mark_predecessors(&self, index: u32, into: &mut Marks)
        requires { index < length self.now }
        ensures { (m : Message) → HasNumber (history_of self.now) index m
            → MarksMore (history_of self.now) m.predecessors (mark into.old) (mark into.new) }
    {
        for number in self.predecessors_of(index) {
            into.put((*number).into());
        }
    }

    /// The least of the header's predecessors that no row has.
    pub fn missing(&self, header: &HeaderView<'_>) -> Option<MessageId>
        ensures { MatchOption result
            ((i : Id) → In i (ids_of header.now.predecessors) → Stands (history_of self.now) i)
            (λ id. IsLeastMissing (history_of self.now) (ids_of header.now.predecessors) id.0.0) }
    {
        predecessors_ascend();
        let _spelled = header.bytes();
        let ids = header.predecessors();
        for at in 0..ids.count() {
            let id = MessageId(ids.id(at));
            if self.find(&id).is_none() {
                return Some(id);
            }
        }
        None
    }

    /// Sets the marks to exactly the rows of the header's past. Where a predecessor isn't there, answers the least such
    /// and leaves the marks as they were.
    pub fn past(&self, header: &HeaderView<'_>, into: &mut Marks) -> Result<(), MessageId>
        ensures { MatchResult result
            (λ _. ((i : Id) → In i (ids_of header.now.predecessors) → Stands (history_of self.now) i)
            × MarksPast (history_of self.now) (ids_of header.now.predecessors) (mark into.new))
            (λ id. IsLeastMissing (history_of self.now) (ids_of header.now.predecessors) id.0.0
            × (into.new ≡ into.old)) }
    {
        if let Some(id) = self.missing(header) {
            return Err(id);
        }
        self.mark_past(header, into);
        Ok(())
    }

    /// Sets the marks to exactly the rows of the header's past, of those of its predecessors that are there.
    pub fn mark_past(&self, header: &HeaderView<'_>, into: &mut Marks)
        ensures { MarksPast (history_of self.now) (ids_of header.now.predecessors) (mark into.new) }
    {
        into.clear();
        self.mark(&header.predecessors(), into);
        let mut at = self.count();
        while at > 0 {
            at -= 1;
            if into.has(at) {
                self.mark_predecessors(at, into);
            }
        }
    }
}

// So many items from one on.
fn part(list: &[u16], first: usize, count: usize) -> &[u16]
    requires { first + count ≤ length list.now }
    ensures { result.now ≡ take count (drop first list.now) }
{
    &list[first..first + count]
}
