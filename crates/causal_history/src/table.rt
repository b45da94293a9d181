//! The rows of a history with what links them.

ghost use Rattle.std.specs.Prelude.{◌≡◌, ℕ, ◌+◌, ◌<◌, ◌≤◌, ◌^◌, [], ◌∷◌, ◌++◌, List, ◌↔◌, length, Some, MatchOption};
ghost use Rattle.std.specs.Prelude.{OnOk, vec_len, vec_capacity};
ghost use Rattle.indexmap.specs.IndexSet.{spare};
ghost use Rattle.group_fields.specs.Headers.{message_id};
ghost use Rattle.group_fields.specs.declared.ids.Digest.{Digest};
ghost use Rattle.group_model.specs.Sets.{Id, In};
ghost use Rattle.group_model.specs.Membership.{named_by, with_id};
ghost use Rattle.group_model.specs.Validity.{Answers};
ghost use Rattle.group_messages.specs.Messages.{ids_of, kind_of};
ghost use Rattle.causal_history.specs.Keeping.{AnswersRow, AreNumbers, IsLink, enrolled, roster_of, with_card};
ghost use Rattle.causal_history.specs.Room.{HasRoom};
ghost use Rattle.causal_history.specs.declared.table.Link.{Link};

use crate::index::{Index, append, number_of, put};
use crate::kept::KeptRow;
use group_fields::{HeaderView, IdsView, Kind, Memory, MessageId, TargetView};
use group_messages::{named_ids_are_few, predecessors_ascend, targets_say_the_kind};
use std::alloc::Global;

/// What a sweep asks of a row. `first` and `count` say where the numbers of its predecessors stand.
#[derive(Clone, Copy, Drop)]
pub struct Link {
    pub(crate) kind: Kind,
    pub(crate) seq: u32,
    pub(crate) sender: u16,
    pub(crate) answered: Option<u16>,
    pub(crate) first: u32,
    pub(crate) count: u16,
}

/// Where the card of an id is: the number of a row, and of a card in it.
#[derive(Clone, Copy, Drop)]
pub struct CardPlace {
    pub(crate) row: u32,
    pub(crate) at: u32,
}

/// Rows, and beside them their links. Numbers of rows, of senders and of members are those in the indexes.
#[derive(Drop)]
pub struct Table {
    pub(crate) rows: Vec<KeptRow>,
    pub(crate) links: Vec<Link>,
    pub(crate) numbers: Vec<u16>,
    pub(crate) ids: Index,
    pub(crate) senders: Index,
    pub(crate) named: Index,
    pub(crate) cards: Vec<CardPlace>,
}

impl Table {
    pub(crate) fn new(alloc: Global) -> Table
        ensures rows { result.rows.items ≡ [] }
        ensures links { result.links.items ≡ [] }
        ensures numbers { result.numbers.items ≡ [] }
        ensures ids { result.ids.keys ≡ [] }
        ensures senders { result.senders.keys ≡ [] }
        ensures named { result.named.keys ≡ [] }
        ensures cards { result.cards.items ≡ [] }
    {
        Table {
            rows: Vec::new(alloc),
            links: Vec::new(alloc),
            numbers: Vec::new(alloc),
            ids: Index::new(alloc),
            senders: Index::new(alloc),
            named: Index::new(alloc),
            cards: Vec::new(alloc),
        }
    }

    /// Makes room for one more row, of at most 32 predecessors that names at most 32 ids. Nothing else changes.
    pub(crate) fn make_room(&mut self) -> Result<(), Memory>
        ensures rows { self.new.rows.items ≡ self.old.rows.items }
        ensures links { self.new.links.items ≡ self.old.links.items }
        ensures numbers { self.new.numbers.items ≡ self.old.numbers.items }
        ensures ids { self.new.ids.keys ≡ self.old.ids.keys }
        ensures senders { self.new.senders.keys ≡ self.old.senders.keys }
        ensures named { self.new.named.keys ≡ self.old.named.keys }
        ensures cards { self.new.cards.items ≡ self.old.cards.items }
        ensures room { OnOk result (HasRoom self.new) }
    {
        self.rows.reserve(1)?;
        self.links.reserve(1)?;
        self.numbers.reserve(32)?;
        self.ids.reserve(1)?;
        self.senders.reserve(1)?;
        self.named.reserve(32)?;
        self.cards.reserve(32)
    }

    /// One row more, for which there is room, and whose predecessors are rows.
    pub(crate) fn push(&mut self, header: &HeaderView<'_>, row: KeptRow)
        requires room { HasRoom self.old }
        requires few { vec_len self.old.rows < 4096 }
        requires few_ids { length self.old.ids.keys < 4096 }
        requires few_senders { length self.old.senders.keys < 4096 }
        requires few_numbers { vec_len self.old.numbers ≤ 2 ^ 20 }
        requires stand { (i : Id) → In i (ids_of header.now.predecessors) → In i self.old.ids.keys }
        ensures rows { self.new.rows.items ≡ self.old.rows.items ++ row ∷ [] }
        ensures links { (link : Link) × (self.new.links.items ≡ self.old.links.items ++ link ∷ [])
            × IsLink self.old.ids.keys self.new.senders.keys self.new.numbers.items link header.now }
        ensures numbers { (more : List ℕ) × (self.new.numbers.items ≡ self.old.numbers.items ++ more)
            × (length more ≤ 32) }
        ensures ids { self.new.ids.keys ≡ with_id self.old.ids.keys (message_id header.now) }
        ensures senders { self.new.senders.keys ≡ with_id self.old.senders.keys header.now.sender.0.0 }
        ensures roster { roster_of self.new.named.keys self.new.cards.items
            ≡ enrolled (vec_len self.old.rows) (roster_of self.old.named.keys self.old.cards.items)
            (named_by (kind_of header.now)) 0 }
    {
        let link = self.link_of(header);
        append(&mut self.links, link);
        put(&mut self.ids, &header.id().0.0);
        enroll(
            &mut self.named,
            &mut self.cards,
            header,
            self.rows.len() as u32,
        );
        append(&mut self.rows, row);
    }

    // The link of a header, whose sender and numbers are put into the table.
    fn link_of(&mut self, header: &HeaderView<'_>) -> Link
        requires room { HasRoom self.old }
        requires few_ids { length self.old.ids.keys < 4096 }
        requires few_senders { length self.old.senders.keys < 4096 }
        requires few_numbers { vec_len self.old.numbers ≤ 2 ^ 20 }
        requires stand { (i : Id) → In i (ids_of header.now.predecessors) → In i self.old.ids.keys }
        ensures link { IsLink self.old.ids.keys self.new.senders.keys self.new.numbers.items result header.now }
        ensures numbers { (more : List ℕ) × (self.new.numbers.items ≡ self.old.numbers.items ++ more)
            × (length more ≤ 32) }
        ensures senders { self.new.senders.keys ≡ with_id self.old.senders.keys header.now.sender.0.0 }
        ensures rows { self.new.rows ≡ self.old.rows }
        ensures links { self.new.links ≡ self.old.links }
        ensures ids { self.new.ids ≡ self.old.ids }
        ensures named { self.new.named ≡ self.old.named }
        ensures cards { self.new.cards ≡ self.old.cards }
    {
        predecessors_ascend();
        let _spelled = header.bytes();
        let ids = header.predecessors();
        let first = self.numbers.len() as u32;
        push_numbers(&mut self.numbers, &self.ids, &ids);
        Link {
            kind: header.kind(),
            seq: header.seq(),
            sender: put(&mut self.senders, &header.sender().0.0) as u16,
            answered: answered_by(&self.ids, header),
            first,
            count: ids.count() as u16,
        }
    }
}

// Appends the numbers of ids that are in the index.
fn push_numbers(numbers: &mut Vec<u16>, index: &Index, ids: &IdsView<'_>)
    requires few { length ids.now ≤ 32 }
    requires few_ids { length index.now.keys ≤ 4096 }
    requires stand { (i : Id) → In i (ids_of ids.now) → In i index.now.keys }
    requires room { vec_len numbers.old + length ids.now ≤ vec_capacity numbers.old }
    ensures { (more : List ℕ) × (numbers.new.items ≡ numbers.old.items ++ more)
        × AreNumbers index.now.keys more (ids_of ids.now) }
{
    for at in 0..ids.count() {
        let number = number_of(index, &ids.id(at).0).unwrap();
        append(numbers, number as u16);
    }
}

// The operation that the header answers.
pub(crate) fn operation_of(header: &HeaderView<'_>) -> Option<MessageId>
    ensures { MatchOption result ((i : Id) → Answers (kind_of header.now) i → ⊥)
        (λ operation. (i : Id) → Answers (kind_of header.now) i ↔ (i ≡ operation.0.0)) }
{
    targets_say_the_kind();
    let _spelled = header.bytes();
    match (header.kind(), header.target()) {
        (Kind::Ack | Kind::AddAck, TargetView::Answer(operation, _)) => Some(operation),
        _ => None,
    }
}

// The number of the row that the header answers, where it is there.
fn answered_by(index: &Index, header: &HeaderView<'_>) -> Option<u16>
    requires { length index.now.keys ≤ 4096 }
    ensures { (at : ℕ) → result ≡ Some at → AnswersRow index.now.keys (kind_of header.now) at }
{
    match operation_of(header) {
        Some(operation) => match number_of(index, &operation.0.0) {
            Some(at) => Some(at as u16),
            None => None,
        },
        None => None,
    }
}

// Puts the ids that the header names at their places, with where their cards are: in the row with this number.
fn enroll(named: &mut Index, cards: &mut Vec<CardPlace>, header: &HeaderView<'_>, row: u32)
    requires room { 32 ≤ spare named.old }
    requires room_of_cards { vec_len cards.old + 32 ≤ vec_capacity cards.old }
    ensures { roster_of named.new.keys cards.new.items
        ≡ enrolled row (roster_of named.old.keys cards.old.items) (named_by (kind_of header.now)) 0 }
{
    named_ids_are_few();
    targets_say_the_kind();
    let _spelled = header.bytes();
    match (header.kind(), header.target()) {
        (Kind::Create, TargetView::Members(ids)) => enroll_all(named, cards, &ids, row),
        (Kind::Add, TargetView::Member(id)) => enroll_one(named, cards, &id.0.0, row, 0),
        _ => {}
    }
}

fn enroll_all(named: &mut Index, cards: &mut Vec<CardPlace>, ids: &IdsView<'_>, row: u32)
    requires few { length ids.now ≤ 32 }
    requires room { 32 ≤ spare named.old }
    requires room_of_cards { vec_len cards.old + 32 ≤ vec_capacity cards.old }
    ensures { roster_of named.new.keys cards.new.items
        ≡ enrolled row (roster_of named.old.keys cards.old.items) (ids_of ids.now) 0 }
{
    for at in 0..ids.count() {
        enroll_one(named, cards, &ids.id(at).0, row, at);
    }
}

fn enroll_one(named: &mut Index, cards: &mut Vec<CardPlace>, id: &[u8; 32], row: u32, at: u32)
    requires room { 0 < spare named.old }
    requires room_of_cards { vec_len cards.old < vec_capacity cards.old }
    ensures roster { roster_of named.new.keys cards.new.items
        ≡ with_card row at id.now (roster_of named.old.keys cards.old.items) }
    ensures room { spare named.old ≤ spare named.new + 1 }
    ensures room_of_cards { vec_capacity cards.old ≤ vec_capacity cards.new }
    ensures few { vec_len cards.new ≤ vec_len cards.old + 1 }
{
    if number_of(named, id).is_none() {
        put(named, id);
        append(cards, CardPlace { row, at });
    }
}
