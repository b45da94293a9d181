//! A history: rows in the order in which they were pushed. A row's number is how many are older.

ghost use Rattle.std.specs.Prelude.{◌≡◌, ℕ, ◌<◌, ◌≤◌, List, [], ◌∷◌, ◌++◌, length, slice_get, option_map, Some};
ghost use Rattle.std.specs.Prelude.{IsSome, MatchOption, MatchResult, IfSome, IfOk, IsTrue, ◌↔◌};
ghost use Rattle.group_fields.specs.Headers.{message_id};
ghost use Rattle.group_model.specs.Sets.{Id, In};
ghost use Rattle.group_model.specs.Messages.{Message, Stands, past as past_of};
ghost use Rattle.group_model.specs.Membership.{ids_named};
ghost use Rattle.group_model.specs.Marks.{HasNumber, IsPlace};
ghost use Rattle.group_model.specs.Validity.{Answers};
ghost use Rattle.group_messages.specs.Messages.{header_kind, message_of};
ghost use Rattle.causal_history.specs.Numbered.{IsNumberOf};
ghost use Rattle.causal_history.specs.Rows.{Row, history_of, card_in, senders_of, IsKept};

use crate::index::number_of;
use crate::table::{Table, operation_of};
use group_fields::{CardView, Digest, HeaderView, Kind, MemberId, MessageId};
use std::alloc::Global;
use std::marker::Model;

/// A history of at most 4,096 rows, which names at most 32 ids. Contracts see the list of its rows, oldest first.
#[derive(Drop)]
pub struct History {
    pub(crate) alloc: Global,
    pub(crate) table: Table,
}

impl Model for History {
    ghost use Rattle.std.specs.Prelude.{List};
    ghost use Rattle.causal_history.specs.Rows.{Row};

    ghost Value = { List Row };

    ghost use Rattle.causal_history.specs.Keeping.{IsTable};

    ghost view = { λ history. history.table.rows.items };

    ghost invariant = { λ history. IsTable history.table.rows.items history.table.links.items
        history.table.numbers.items history.table.ids.keys history.table.senders.keys history.table.named.keys
        history.table.cards.items };
}

impl History {
    /// No rows.
    pub fn new(alloc: Global) -> History
        ensures { result ≡ [] }
    {
        let table = Table::new(alloc);
        History { alloc, table }
    }

    /// How many rows there are.
    pub fn count(&self) -> u32
        ensures count { result ≡ length self.now }
        ensures kept { IsKept self.now }
    {
        self.table.rows.len() as u32
    }

    /// The number of the row with the id.
    pub fn find(&self, id: &MessageId) -> Option<u32>
        ensures number { MatchOption result (Stands (history_of self.now) id.now.0.0 → ⊥)
            (λ at. IsNumberOf (history_of self.now) id.now.0.0 at) }
        ensures within { IfSome result (λ at. at < length self.now) }
        ensures kept { IsKept self.now }
    {
        match number_of(&self.table.ids, &id.0.0) {
            Some(at) => Some(at as u32),
            None => None,
        }
    }

    /// The id of the row with the number.
    pub fn id(&self, index: u32) -> MessageId
        requires { index < length self.now }
        ensures row { option_map (λ (row : Row). message_id row.header) (slice_get self.now index) ≡ Some result.0.0 }
        ensures message { (m : Message) → HasNumber (history_of self.now) index m → result.0.0 ≡ m.id }
    {
        MessageId(Digest(*self.table.ids.get_index(index as usize).unwrap()))
    }

    /// The header of the row with the number.
    pub fn row(&self, index: u32) -> HeaderView<'_>
        requires { index < length self.now }
        ensures row { option_map (λ (row : Row). row.header) (slice_get self.now index) ≡ Some result }
        ensures message { HasNumber (history_of self.now) index (message_of result) }
    {
        self.table.rows[index as usize].header()
    }

    /// What the row does.
    pub fn kind(&self, index: u32) -> Kind
        requires { index < length self.now }
        ensures { (m : Message) → HasNumber (history_of self.now) index m → result ≡ header_kind m.kind }
    {
        self.table.links[index as usize].kind
    }

    /// The number of the row among those of its sender.
    pub fn seq(&self, index: u32) -> u32
        requires { index < length self.now }
        ensures { (m : Message) → HasNumber (history_of self.now) index m → result ≡ m.seq }
    {
        self.table.links[index as usize].seq
    }

    /// The number of the row's sender among all senders, in the order of their first rows.
    pub fn sender_number(&self, index: u32) -> u16
        requires { index < length self.now }
        ensures { (m : Message) → HasNumber (history_of self.now) index m
            → IsPlace (senders_of (history_of self.now)) result m.sender }
    {
        self.table.links[index as usize].sender
    }

    /// The number of the member among all senders, where it sent a row.
    pub fn number_of_sender(&self, id: &MemberId) -> Option<u16>
        ensures { MatchOption result (In id.now.0.0 (senders_of (history_of self.now)) → ⊥)
            (λ at. IsPlace (senders_of (history_of self.now)) at id.now.0.0) }
    {
        match number_of(&self.table.senders, &id.0.0) {
            Some(at) => Some(at as u16),
            None => None,
        }
    }

    /// The number of the row that the row answers.
    pub fn answered(&self, index: u32) -> Option<u32>
        requires { index < length self.now }
        ensures { (m : Message) → HasNumber (history_of self.now) index m
            → MatchOption result ((o : Message) → In o (history_of self.now) → Answers m.kind o.id → ⊥)
            (λ at. (o : Message) × HasNumber (history_of self.now) at o × Answers m.kind o.id) }
    {
        let link = self.table.links[index as usize];
        match (link.answered, link.kind) {
            (Some(at), _) => Some(at.into()),
            (None, Kind::Ack | Kind::AddAck) => self.answered_by_id(index),
            _ => None,
        }
    }

    // The same by the row's header: an operation may be pushed behind its answer.
    fn answered_by_id(&self, index: u32) -> Option<u32>
        requires { index < length self.now }
        ensures { (m : Message) → HasNumber (history_of self.now) index m
            → MatchOption result ((o : Message) → In o (history_of self.now) → Answers m.kind o.id → ⊥)
            (λ at. (o : Message) × HasNumber (history_of self.now) at o × Answers m.kind o.id) }
    {
        match operation_of(&self.row(index)) {
            Some(operation) => self.find(&operation),
            None => None,
        }
    }
}
