//! Histories that are drawn, compared with the plain program of the model; what may not be pushed; and the limits.

mod asked;
mod fixtures;

use crate::{Crowd, History, Marks, TextRow, Texts};
use fixtures::{card_id, card_ids, cards, header, in_order, plain_message};
use group_fields::{Bytes, Cards, Digest, Ids, Kind, MemberId, Memory, MessageId, Target};
use group_model::plain::messages::PlainMessage;
use std::alloc::Global;
use std::test::Fail;

// A history and the same as the plain program has it, newest first.
#[derive(Drop)]
struct World {
    alloc: Global,
    history: History,
    plain: Vec<PlainMessage>,
    members: Vec<Digest>,
    state: u64,
}

// A number below the bound, which is at least 1.
fn draw(state: &mut u64, bound: u32) -> u32 {
    *state = state
        .wrapping_mul(6364136223846793005)
        .wrapping_add(1442695040888963407);
    if bound == 0 {
        return 0;
    }
    (*state >> 33) as u32 % bound
}

fn first_of(members: &[Digest]) -> Digest {
    members.get(0).copied().unwrap_or(Digest([0; 32]))
}

// The create of a group of these members by the first of them.
fn create(alloc: Global, members: &[Digest]) -> Result<Bytes, Memory> {
    let sender = MemberId(first_of(members));
    let target = Target::Members(Ids::from(members.to_vec(alloc)?));
    header(alloc, sender, 1, Kind::Create, target, Vec::new(alloc))
}

impl World {
    fn new(alloc: Global, seed: u64) -> World {
        World {
            alloc,
            history: History::new(alloc),
            plain: Vec::new(alloc),
            members: Vec::new(alloc),
            state: seed,
        }
    }

    // Pushes a row where it may be pushed, and answers whether it was.
    fn push_row(&mut self, bytes: &Bytes, cards: &Cards) -> Result<bool, Memory> {
        let Some(view) = asked::view(bytes) else {
            return Ok(false);
        };
        let pushed = asked::push(&mut self.history, &view, cards)?;
        if pushed {
            let message = plain_message(self.alloc, &view)?;
            self.plain.insert(0, message)?;
        }
        Ok(pushed)
    }

    // The same with the cards with these numbers.
    fn push(&mut self, bytes: &Bytes, numbers: &[u8]) -> Result<bool, Memory> {
        let cards = cards(self.alloc, numbers)?;
        self.push_row(bytes, &cards)
    }

    // Opens the group with the first so many members.
    fn create(&mut self, count: u8) -> Result<bool, Memory> {
        let numbers = in_order(self.alloc, count)?;
        self.members = card_ids(self.alloc, &numbers)?;
        let bytes = create(self.alloc, &self.members)?;
        self.push(&bytes, &numbers)
    }

    // The id of the first row.
    fn root(&self) -> Digest {
        Digest(asked::id(&self.history, 0))
    }

    // The id of a row that is drawn.
    fn drawn_id(&mut self) -> Digest {
        let index = draw(&mut self.state, asked::count(&self.history));
        Digest(asked::id(&self.history, index))
    }

    fn drawn_member(&mut self) -> MemberId {
        let count = u32::try_from(self.members.len()).unwrap_or(0);
        let index = draw(&mut self.state, count) as usize;
        MemberId(self.members.get(index).copied().unwrap_or(Digest([0; 32])))
    }

    // One to three ids of rows, in ascending order.
    fn drawn_predecessors(&mut self) -> Result<Vec<Digest>, Memory> {
        let mut ids = Vec::new(self.alloc);
        for _ in 0..draw(&mut self.state, 3).saturating_add(1) {
            let id = self.drawn_id();
            if !ids.as_slice().contains(&id) {
                ids.push(id)?;
            }
        }
        ids.sort()?;
        Ok(ids)
    }

    // What a drawn row does, and its target; an add adds the member with the number.
    fn drawn_target(&mut self, number: u8) -> Result<(Kind, Target), Memory> {
        Ok(match draw(&mut self.state, 6) {
            0 => (Kind::Update, Target::Nothing),
            1 => (Kind::Remove, Target::Member(self.drawn_member())),
            2 => (
                Kind::Ack,
                Target::Answer(MessageId(self.drawn_id()), number % 2 == 0),
            ),
            3 => (
                Kind::AddAck,
                Target::Answer(MessageId(self.drawn_id()), true),
            ),
            4 => (
                Kind::Add,
                Target::Member(MemberId(card_id(self.alloc, number)?)),
            ),
            _ => (Kind::Text, Target::Nothing),
        })
    }

    // The bytes of a row that is drawn, and whether it is an add; that adds the member with the number.
    fn drawn_header(&mut self, number: u8) -> Result<(Bytes, bool), Memory> {
        let predecessors = self.drawn_predecessors()?;
        let sender = self.drawn_member();
        let (kind, target) = self.drawn_target(number)?;
        let seq = u32::from(number);
        let bytes = header(self.alloc, sender, seq, kind, target, predecessors)?;
        Ok((bytes, kind == Kind::Add))
    }

    // Pushes a row that is drawn; `number` is for who is added.
    fn push_drawn(&mut self, number: u8) -> Result<bool, Memory> {
        let (bytes, is_add) = self.drawn_header(number)?;
        if is_add {
            self.push(&bytes, &[number])
        } else {
            self.push(&bytes, &[])
        }
    }

    // Whether the marks are exactly the rows with these ids.
    fn marks_are(&self, marks: &Marks, ids: &[[u8; 32]]) -> bool {
        for index in 0..asked::count(&self.history) {
            let id = asked::id(&self.history, index);
            if asked::has_mark(marks, index) != asked::has_id(ids, id) {
                return false;
            }
        }
        true
    }

    // Whether what is kept beside a row is what its header says.
    fn link_agrees(&self, index: u32, row: &PlainMessage) -> bool {
        asked::number(&self.history, row.id) == Some(index)
            && asked::seq(&self.history, index) == Some(row.seq)
            && asked::is_of_sender(&self.history, index, row.sender)
            && asked::answered(&self.history, index) == asked::operation(row)
    }

    // Whether the past of a row is that of the plain program, and whether its heads are.
    fn past_agrees(&self, index: u32, row: &PlainMessage) -> Result<bool, Memory> {
        let Some(view) = asked::row(&self.history, index) else {
            return Ok(false);
        };
        let Some(marks) = asked::past_of(&self.history, &view) else {
            return Ok(false);
        };
        let past = asked::plain_past(self.alloc, &self.plain, &row.predecessors)?;
        let heads = asked::plain_heads(self.alloc, &past)?;
        let marked = asked::heads_of(&self.history, &marks);
        let follows = heads.as_slice() == row.predecessors.as_slice();
        Ok(
            self.marks_are(&marks, &asked::plain_ids(self.alloc, &past)?)
                && self.marks_are(&marked, &heads)
                && asked::follows(&self.history, &marks, &view) == follows,
        )
    }

    // Whether all that the history says of a row is what the plain program says.
    fn row_agrees(&self, index: u32) -> Result<bool, Memory> {
        let Some(view) = asked::row(&self.history, index) else {
            return Ok(false);
        };
        let row = plain_message(self.alloc, &view)?;
        Ok(self.link_agrees(index, &row) && self.past_agrees(index, &row)?)
    }

    // Whether the heads of the whole history are those of the plain program.
    fn heads_agree(&self) -> Result<bool, Memory> {
        let found = asked::all_heads(self.alloc, &self.history)?;
        let wanted = asked::plain_heads(self.alloc, &self.plain)?;
        Ok(found.as_slice() == wanted.as_slice())
    }

    // Whether each place has its member and the card of its id, and what is no member has none.
    fn places_agree(&self) -> bool {
        for place in 0..asked::places(&self.history) {
            if !asked::place_agrees(&self.history, place) {
                return false;
            }
        }
        !asked::has_place(&self.history, [0; 32])
    }
}

// The first row of a drawn history that differs from the plain program's, or how many rows there are.
fn first_difference(world: &mut World, until: u8) -> Result<u32, Memory> {
    if !world.create(3)? {
        return Ok(0);
    }
    for number in 3..until {
        let _pushed = world.push_drawn(number)?;
    }
    let count = asked::count(&world.history);
    for index in 0..count {
        if !world.row_agrees(index)? {
            return Ok(index);
        }
    }
    if !world.heads_agree()? || !world.places_agree() {
        return Ok(0);
    }
    Ok(count)
}

fn drawn(alloc: Global, seed: u64, until: u8) -> Result<u32, Memory> {
    let mut world = World::new(alloc, seed);
    first_difference(&mut world, until)
}

// How many rows the drawn histories have, so that none is left out.
const ROWS_DRAWN: u32 = 84;

#[test]
fn drawn_histories(rt: HostRuntime) -> Result<(), Fail> {
    let mut all = 0;
    for seed in 0..4 {
        let count = drawn(rt.alloc(), seed, 23)?;
        assert!(rt; count > 12, "seed {seed}: {count}");
        all = u32::saturating_add(all, count);
    }
    assert_eq!(rt; all, ROWS_DRAWN);
    Ok(())
}

// A text behind rows.
fn text(alloc: Global, seq: u32, predecessors: &[Digest]) -> Result<Bytes, Memory> {
    let sender = MemberId(Digest([1; 32]));
    let predecessors = predecessors.to_vec(alloc)?;
    header(
        alloc,
        sender,
        seq,
        Kind::Text,
        Target::Nothing,
        predecessors,
    )
}

// The add of the member with the number behind a row.
fn add(alloc: Global, sender: Digest, root: Digest, number: u8) -> Result<Bytes, Memory> {
    let target = Target::Member(MemberId(card_id(alloc, number)?));
    let predecessors = [root].to_vec(alloc)?;
    header(alloc, MemberId(sender), 2, Kind::Add, target, predecessors)
}

// Which are pushed of a create without its cards, with them, and the same once more.
fn pushed_creates(world: &mut World, numbers: &[u8]) -> Result<[bool; 3], Memory> {
    world.members = card_ids(world.alloc, numbers)?;
    let bytes = create(world.alloc, &world.members)?;
    let without = world.push(&bytes, &[])?;
    let with = world.push(&bytes, numbers)?;
    let again = world.push(&bytes, numbers)?;
    Ok([without, with, again])
}

// Which are pushed of a text with cards, one behind a row that isn't there, and one behind the create.
fn pushed_texts(world: &mut World, numbers: &[u8]) -> Result<[bool; 3], Memory> {
    let behind = text(world.alloc, 2, &[world.root()])?;
    let behind_none = text(world.alloc, 2, &[Digest([5; 32])])?;
    let with_cards = world.push(&behind, numbers)?;
    let without_row = world.push(&behind_none, &[])?;
    let text = world.push(&behind, &[])?;
    Ok([with_cards, without_row, text])
}

// Which are pushed of an add without a card, with another's card, and with its own.
fn pushed_adds(world: &mut World) -> Result<[bool; 3], Memory> {
    let bytes = add(world.alloc, first_of(&world.members), world.root(), 40)?;
    let without = world.push(&bytes, &[])?;
    let with_other = world.push(&bytes, &[41])?;
    let with_own = world.push(&bytes, &[40])?;
    Ok([without, with_other, with_own])
}

// Which are pushed of creates of three members, of texts and of adds, in turn.
fn pushed_in(world: &mut World) -> Result<[[bool; 3]; 3], Memory> {
    let numbers = in_order(world.alloc, 3)?;
    let creates = pushed_creates(world, &numbers)?;
    let texts = pushed_texts(world, &numbers)?;
    let adds = pushed_adds(world)?;
    Ok([creates, texts, adds])
}

fn pushed(alloc: Global) -> Result<[[bool; 3]; 3], Memory> {
    let mut world = World::new(alloc, 1);
    pushed_in(&mut world)
}

// A header with three predecessors, of which the second stands.
fn text_behind_three(world: &World) -> Result<Bytes, Memory> {
    let mut ids = [Digest([255; 32]), world.root(), Digest([3; 32])].to_vec(world.alloc)?;
    ids.sort()?;
    text(world.alloc, 2, &ids)
}

// The least of these that is missing.
fn least_missing_in(world: &mut World) -> Result<[u8; 32], Memory> {
    let _opened = world.create(2)?;
    let bytes = text_behind_three(world)?;
    Ok(asked::missing(&world.history, &bytes))
}

fn least_missing(alloc: Global) -> Result<[u8; 32], Memory> {
    let mut world = World::new(alloc, 1);
    least_missing_in(&mut world)
}

#[test]
fn what_may_be_pushed(rt: HostRuntime) -> Result<(), Fail> {
    let [creates, texts, adds] = pushed(rt.alloc())?;
    assert_eq!(rt; creates, [false, true, false]);
    assert_eq!(rt; texts, [false, false, true]);
    assert_eq!(rt; adds, [false, false, true]);
    assert_eq!(rt; least_missing(rt.alloc())?, [3; 32]);
    Ok(())
}

// Pushes a row without cards, and answers its id where it was pushed.
fn push_text(history: &mut History, bytes: &Bytes, none: &Cards) -> Result<Option<Digest>, Memory> {
    let Some(view) = asked::view(bytes) else {
        return Ok(None);
    };
    if !asked::push(history, &view, none)? {
        return Ok(None);
    }
    Ok(Some(asked::message_id(bytes)))
}

// Texts behind one row, as many as a header has predecessors: their ids in ascending order.
fn push_many(history: &mut History, alloc: Global, root: Digest) -> Result<Vec<Digest>, Memory> {
    let none = cards(alloc, &[])?;
    let mut ids = Vec::new(alloc);
    for seq in 2..34 {
        let bytes = text(alloc, seq, &[root])?;
        if let Some(id) = push_text(history, &bytes, &none)? {
            ids.push(id)?;
        }
    }
    ids.sort()?;
    Ok(ids)
}

// Texts one behind the other, as many as may be pushed; the first is behind these rows.
fn push_all(history: &mut History, alloc: Global, first: &[Digest]) -> Result<(), Memory> {
    let none = cards(alloc, &[])?;
    let mut bytes = text(alloc, 34, first)?;
    for seq in 35..5000 {
        match push_text(history, &bytes, &none)? {
            Some(id) => bytes = text(alloc, seq, &[id])?,
            None => return Ok(()),
        }
    }
    Ok(())
}

fn count_of_marks(marks: &Marks) -> u32 {
    let mut count: u32 = 0;
    for index in 0..4096 {
        count = count.saturating_add(u32::from(asked::has_mark(marks, index)));
    }
    count
}

// Opens a group of 32 members, and answers whether one member more was named.
fn crowd(world: &mut World) -> Result<bool, Memory> {
    let _opened = world.create(32)?;
    let root = world.root();
    let bytes = add(world.alloc, root, root, 40)?;
    world.push(&bytes, &[40])
}

// Pushes as many rows as fit, of which one has 32 predecessors.
fn push_until_full(history: &mut History, alloc: Global) -> Result<(), Memory> {
    let root = Digest(asked::id(history, 0));
    let ids = push_many(history, alloc, root)?;
    push_all(history, alloc, &ids)
}

// Of a history with as many members and rows as fit: how many rows and places there are, how many rows the last has in
// its past, how many heads there are, and whether one member more was named.
fn limits_in(world: &mut World) -> Result<[u32; 5], Memory> {
    let named = crowd(world)?;
    push_until_full(&mut world.history, world.alloc)?;
    Ok([
        asked::count(&world.history),
        u32::from(asked::places(&world.history)),
        count_of_marks(&asked::past_of_last(&world.history)),
        asked::count_of_heads(&world.history)?,
        u32::from(named),
    ])
}

fn limits(alloc: Global) -> Result<[u32; 5], Memory> {
    let mut world = World::new(alloc, 1);
    limits_in(&mut world)
}

#[test]
fn as_much_as_fits(rt: HostRuntime) -> Result<(), Fail> {
    assert_eq!(rt; limits(rt.alloc())?, [4096, 32, 4095, 1, 0]);
    Ok(())
}

// Two places; which of three is none of these two; and whether it is none of the three.
fn crowds() -> [Crowd; 3] {
    let few = Crowd::new().with(3).with(40);
    let more = few.union(Crowd(1));
    [few, more.without(few), Crowd(1).without(more)]
}

fn has(crowd: Crowd, place: u8) -> bool {
    place < 64 && crowd.has(place)
}

fn is_empty(crowd: Crowd) -> bool {
    crowd.is_empty()
}

// A list of one text without bytes.
fn one_text(alloc: Global) -> Result<Texts, Memory> {
    let mut texts = Texts::new(alloc);
    texts.push(TextRow {
        id: MessageId(Digest([1; 32])),
        sender: MemberId(Digest([2; 32])),
        text: None,
    })?;
    Ok(texts)
}

// How many texts there are, whether there is none, and, by way of a vector, how many have no bytes.
fn counts(texts: Texts) -> (usize, bool, usize) {
    let (count, is_empty) = (texts.len(), texts.is_empty());
    let texts = Texts::from(texts.into_vec());
    let mut without: usize = 0;
    for row in texts.as_slice() {
        without = without.saturating_add(usize::from(row.text.is_none()));
    }
    (count, is_empty, without)
}

#[test]
fn crowds_and_texts(rt: HostRuntime) -> Result<(), Fail> {
    let [few, new, nobody] = crowds();
    assert_eq!(rt; (few.0, new.0, nobody.0), (1 << 3 | 1 << 40, 1, 0));
    assert_eq!(rt;
        (has(few, 40), has(few, 0), is_empty(few), is_empty(nobody)),
        (true, false, false, true)
    );
    assert_eq!(rt; counts(one_text(rt.alloc())?), (1, false, 1));
    Ok(())
}
