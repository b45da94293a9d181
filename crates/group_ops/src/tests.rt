//! What a member takes of the messages of a group of three: the update secrets that it learns, and the ratchets that it
//! knows then, against the definition of a ratchet's step.

mod making;
mod spoiling;

ghost use Rattle.std.specs.Prelude.{◌≡◌, ◌<◌, ◌∷◌, ◌↔◌, ℕ, IsTrue, IsSome, true, length};
ghost use Rattle.causal_history.specs.Rows.{history_of};
ghost use Rattle.group_fields.specs.declared.header.Target.{Target as TargetWords};
ghost use Rattle.group_messages.specs.Messages.{kind_by, message_of};
ghost use Rattle.group_model.specs.Marks.{IsPlace};
ghost use Rattle.group_model.specs.Membership.{IsSeeded, ids_named};
ghost use Rattle.group_model.specs.Messages.{Stands};
ghost use Rattle.group_model.specs.Sets.{Id, In};
ghost use Rattle.member_view.specs.Crowds.{StandsWell};
ghost use Rattle.secret_book.specs.HeldBooks.{held};
ghost use Rattle.group_ops.specs.Taking.{IsAck};

use crate::{take_ack, take_seeded};
use causal_history::{History, rows_are_messages};
use group_fields::{
    Bytes, Card, Cards, Digest, GroupId, Header, HeaderView, Ids, Kind, MemberId, MessageId,
    Target, read_card, read_header, write_card, write_header,
};
use group_messages::named_ids_are_few;
use hkdf_seal::{expand, extract, kdf};
use kem_trait::{Kem, SeedWords};
use member_view::{Act, RemoveWins, act_of, place_with};
use ntru_prime::Drill37;
use opened_parts::{Taken, sender_place};
use secret_book::Book;
use std::alloc::Global;
use std::test::Fail;
use two_party::{PartDraw, draw_parts};

type Drill = Book<Drill37>;

const ADDRESSEE: MemberId = MemberId(Digest([9; 32]));

/// The ratchet before a first step.
const EMPTY: [u8; 32] = [0; 32];

// ---- keys

/// 32 bytes for each number.
fn seed(number: u8) -> [u8; 32] {
    kdf(&[7; 32], b"seed", &[number])
}

/// The first 32 bytes and the others.
fn halves(bytes: &[u8; 64]) -> ([u8; 32], [u8; 32]) {
    let (front, back) = bytes.split_at(32);
    let mut first = [0; 32];
    let mut last = [0; 32];
    first.copy_from_slice(front);
    last.copy_from_slice(back);
    (first, last)
}

/// The update secret of a ratchet's step by an input, and the ratchet after it: 64 bytes of HKDF, by their definition.
fn stepped(ratchet: &[u8; 32], input: &[u8; 32]) -> ([u8; 32], [u8; 32]) {
    let mut output = [0; 64];
    expand(&extract(ratchet, input), b"ratchet", &mut output);
    halves(&output)
}

/// The first step of a member by its secret under a seed.
fn first_step(seed: &[u8; 32], id: &[u8; 32]) -> ([u8; 32], [u8; 32]) {
    stepped(&EMPTY, &kdf(seed, b"member", id))
}

fn pair(alloc: Global, number: u8) -> Result<<Drill37 as Kem>::Pair, Fail> {
    Ok(Drill37::make(alloc, &mut SeedWords::new(&seed(number)))?)
}

fn draw(alloc: Global, number: u8) -> Result<PartDraw<Drill37>, Fail> {
    let mut draws = draw_parts::<Drill37>(alloc, &seed(number), &[ADDRESSEE])?;
    match draws.take(&ADDRESSEE) {
        Some(draw) => Ok(draw),
        None => Err(Fail::new("nothing was drawn for a member of the list")),
    }
}

// ---- books

/// Whether each place that was met has a pairing, as where the own one wasn't met yet.
fn all_paired(book: &Drill) -> bool
    ensures { IsTrue result → (q : ℕ) → q < length book.now.places → IsSome ((held book.now).pairing q) }
{
    for place in 0..book.met() {
        if place > 255 {
            return false;
        }
        match book.sends(place as u8) {
            Some(_) => {}
            None => return false,
        }
    }
    true
}

/// Meets the own place.
fn meet_own(alloc: Global, book: &mut Drill) -> Result<(), Fail> {
    let place = book.met();
    if place > 255 || !all_paired(book) {
        return Err(Fail::new("no place, or a second own one"));
    }
    Ok(book.meet(alloc, place as u8, None)?)
}

/// Meets the member whose pair is made by the seed of a number.
fn meet(alloc: Global, book: &mut Drill, number: u8) -> Result<(), Fail> {
    let place = book.met();
    let theirs = pair(alloc, number)?;
    let mut public = vec![in alloc; 0; Drill37::PUBLIC_LEN]?;
    Drill37::public(&theirs, public.as_mut_slice());
    if place > 255 || !Drill37::public_ok(public.as_slice()) {
        return Err(Fail::new("no place, or the public key of a pair is none"));
    }
    Ok(book.meet(alloc, place as u8, Some(public.as_slice()))?)
}

fn was_met(book: &Drill, place: u8) -> bool
    ensures { result ≡ true → place < length book.now.places }
{
    (place as usize) < book.met()
}

fn ratchet(book: &Drill, place: u8) -> Option<[u8; 32]> {
    if was_met(book, place) {
        book.ratchet(place)
    } else {
        None
    }
}

/// The part of a member to the first one, with a payload.
fn sealed(alloc: Global, book: &mut Drill, payload: &[u8; 32], number: u8) -> Result<Bytes, Fail> {
    meet_own(alloc, book)?;
    meet(alloc, book, 0)?;
    if !was_met(book, 1) {
        return Err(Fail::new("a place that was not met"));
    }
    match book.sends(1) {
        Some(sends) if sends < u32::MAX => {}
        _ => return Err(Fail::new("the own place, or too many parts")),
    }
    let draw = draw(alloc, number)?;
    Ok(book.seal_to(alloc, 1, payload, draw)?)
}

/// The first part of a member to the first one, whose pair is made by the seed 0.
fn part_of(alloc: Global, number: u8, payload: &[u8; 32]) -> Result<Bytes, Fail> {
    let mut book = Book::start(alloc, pair(alloc, number)?);
    let part = sealed(alloc, &mut book, payload, number);
    book.close();
    part
}

// ---- messages

fn card_bytes(alloc: Global, number: u8) -> Result<Bytes, Fail> {
    let mut lms_public = [number; 56];
    lms_public[..8].copy_from_slice(&[0, 0, 0, 5, 0, 0, 0, 3]);
    let card = Card {
        set: 2,
        lms_public,
        inviter: MemberId(Digest([0; 32])),
        kem_public: Bytes::copy_of(alloc, &[number; 33])?,
    };
    if !card.has_spelling() {
        return Err(Fail::new("a card that has no spelling"));
    }
    Ok(write_card(alloc, &card)?)
}

/// The ids of so many members, in their order.
fn all_ids(alloc: Global, count: u8) -> Result<Vec<[u8; 32]>, Fail> {
    let mut ids = Vec::new(alloc);
    for number in 0..count {
        let bytes = card_bytes(alloc, number)?;
        match read_card(bytes.as_slice()) {
            Ok(card) => ids.push(card.id().0.0)?,
            Err(_) => return Err(Fail::new("a card that can't be read")),
        }
    }
    ids.sort()?;
    Ok(ids)
}

fn push_card(alloc: Global, cards: &mut Cards, id: &[u8; 32]) -> Result<(), Fail> {
    for number in 0..3 {
        let bytes = card_bytes(alloc, number)?;
        if let Ok(card) = read_card(bytes.as_slice()) {
            if card.id().0.0 == *id {
                cards.push(&card)?;
            }
        }
    }
    Ok(())
}

fn id_at(ids: &[[u8; 32]], place: u8) -> [u8; 32] {
    ids.get(place as usize).copied().unwrap_or([0; 32])
}

/// A message of the member at a place, with one predecessor or none.
fn message(
    alloc: Global,
    sender: [u8; 32],
    kind: Kind,
    target: Target,
    before: Option<MessageId>,
) -> Result<Bytes, Fail> {
    let mut predecessors = Ids::new(alloc);
    if let Some(id) = before {
        predecessors.push(id.0)?;
    }
    let header = Header {
        set: 2,
        group: GroupId(Digest([9; 32])),
        sender: MemberId(Digest(sender)),
        seq: 1,
        kind,
        target,
        predecessors,
        body: Digest([7; 32]),
    };
    if !header.has_spelling() {
        return Err(Fail::new("a header that has no spelling"));
    }
    Ok(write_header(alloc, &header)?)
}

fn create(alloc: Global, sender: [u8; 32], ids: &[[u8; 32]]) -> Result<Bytes, Fail> {
    let mut list = Ids::new(alloc);
    for id in ids {
        list.push(Digest(*id))?;
    }
    message(alloc, sender, Kind::Create, Target::Members(list), None)
}

fn message_id(bytes: &[u8]) -> Result<MessageId, Fail> {
    match read_header(bytes) {
        Ok(header) => Ok(header.id()),
        Err(_) => Err(Fail::new("a header that can't be read")),
    }
}

fn push(history: &mut History, bytes: &[u8], cards: &Cards) -> Result<(), Fail> {
    let Ok(header) = read_header(bytes) else {
        return Err(Fail::new("a header that can't be read"));
    };
    if !history.may_push(&header, cards)? {
        return Err(Fail::new("a row that may not be pushed"));
    }
    Ok(history.push(&header, cards)?)
}

// ---- what the calls ask

fn is_seeded(kind: Kind) -> bool
    ensures { (target : TargetWords) → IsTrue result ↔ IsSeeded (kind_by kind target) }
{
    match kind {
        Kind::Create | Kind::Update | Kind::Remove => true,
        Kind::Add | Kind::Ack | Kind::AddAck | Kind::Text => false,
    }
}

fn stands_well(history: &History, header: &HeaderView<'_>) -> bool
    ensures { IsTrue result → StandsWell (history_of history.now) (message_of header.now) (message_of header.now).kind }
{
    rows_are_messages();
    match act_of(header) {
        Act::Create(_) => history.count() == 0,
        _ => true,
    }
}

fn is_new(history: &History, header: &HeaderView<'_>) -> bool
    ensures { IsTrue result → Stands (history_of history.now) (message_of header.now).id → ⊥ }
{
    history.find(&header.id()).is_none()
}

/// Whether the book has met exactly the members that the history and the message name.
fn all_met(history: &History, header: &HeaderView<'_>, book: &Drill) -> bool
    ensures { IsTrue result
        → length (ids_named (message_of header.now ∷ history_of history.now)) ≡ length book.now.places }
{
    rows_are_messages();
    named_ids_are_few();
    let _bytes = header.bytes();
    match act_of(header) {
        Act::Create(ids) => history.count() == 0 && ids.count() as usize == book.met(),
        Act::Add(_) => false,
        _ => history.places() as usize == book.met(),
    }
}

fn is_placed(history: &History, header: &HeaderView<'_>) -> bool
    ensures { IsTrue result
        → In (message_of header.now).sender (ids_named (message_of header.now ∷ history_of history.now)) }
{
    match place_with(history, Some(header), &header.sender()) {
        Some(_) => true,
        None => false,
    }
}

/// Whether the sender's place has a pairing.
fn is_paired(history: &History, header: &HeaderView<'_>, book: &Drill) -> bool
    requires { In (message_of header.now).sender (ids_named (message_of header.now ∷ history_of history.now)) }
    ensures { IsTrue result → (p : ℕ)
        → IsPlace (ids_named (message_of header.now ∷ history_of history.now)) p (message_of header.now).sender
        → IsSome ((held book.now).pairing p) }
{
    let place = sender_place(history, header);
    if !was_met(book, place) {
        return false;
    }
    match book.sends(place) {
        Some(_) => true,
        None => false,
    }
}

fn refused() -> Fail {
    Fail::new("a message that may not be taken")
}

fn take(
    alloc: Global,
    book: &mut Drill,
    history: &History,
    bytes: &[u8],
    part: Option<&[u8]>,
    own_seed: Option<&[u8; 32]>,
) -> Result<Taken, Fail> {
    let Ok(header) = read_header(bytes) else {
        return Err(refused());
    };
    if history.missing(&header).is_some() || !is_seeded(header.kind()) {
        return Err(refused());
    }
    if !stands_well(history, &header) || !is_new(history, &header) {
        return Err(refused());
    }
    if !all_met(history, &header, book) || !is_placed(history, &header) {
        return Err(refused());
    }
    if part.is_some() && !is_paired(history, &header, book) {
        return Err(refused());
    }
    Ok(take_seeded::<Drill37, RemoveWins>(alloc, book, history, &header, part, own_seed)?)
}

fn is_ack(kind: Kind) -> bool
    ensures { (target : TargetWords) → IsTrue result → IsAck (kind_by kind target) }
{
    match kind {
        Kind::Ack => true,
        _ => false,
    }
}

fn answer(
    alloc: Global,
    book: &mut Drill,
    history: &History,
    bytes: &[u8],
    part: Option<&[u8]>,
) -> Result<Option<[u8; 32]>, Fail> {
    let Ok(header) = read_header(bytes) else {
        return Err(refused());
    };
    if !is_ack(header.kind()) || !all_met(history, &header, book) {
        return Err(refused());
    }
    if !is_placed(history, &header) {
        return Err(refused());
    }
    if part.is_some() && !is_paired(history, &header, book) {
        return Err(refused());
    }
    Ok(take_ack(alloc, book, history, &header, part)?)
}

// ---- stories: members 0, 1 and 2 in the order of their ids, of whom the first takes

/// A group, made by the member at a place, before and behind its create.
#[derive(Drop)]
struct Group {
    ids: Vec<[u8; 32]>,
    cards: Cards,
    create: Bytes,
    before: History,
    behind: History,
}

/// A group of up to three.
fn new_group(alloc: Global, count: u8, maker: u8) -> Result<Group, Fail> {
    let ids = all_ids(alloc, count)?;
    let mut cards = Cards::new(alloc);
    for id in ids.as_slice() {
        push_card(alloc, &mut cards, id)?;
    }
    let create = create(alloc, id_at(ids.as_slice(), maker), ids.as_slice())?;
    let mut behind = History::new(alloc);
    push(&mut behind, create.as_slice(), &cards)?;
    Ok(Group {
        ids,
        cards,
        create,
        before: History::new(alloc),
        behind,
    })
}

fn member(group: &Group, place: u8) -> [u8; 32] {
    id_at(group.ids.as_slice(), place)
}

/// What is to be learned of a member, and its ratchet then.
#[derive(Clone, Copy, Drop)]
struct Known {
    secret: Option<[u8; 32]>,
    ratchet: Option<[u8; 32]>,
}

const NOTHING: Known = Known {
    secret: None,
    ratchet: None,
};

fn after_step(step: ([u8; 32], [u8; 32])) -> Known {
    Known {
        secret: Some(step.0),
        ratchet: Some(step.1),
    }
}

/// The first step of the member at a place by its secret under the seed of a number.
fn first_of(group: &Group, place: u8, number: u8) -> Known {
    after_step(first_step(&seed(number), &member(group, place)))
}

/// Whether taking the create of the member at a place says so much.
fn create_says(
    alloc: Global,
    book: &mut Drill,
    group: &Group,
    maker: u8,
    part: Option<&[u8]>,
    own_seed: Option<&[u8; 32]>,
    is: Known,
) -> Result<bool, Fail> {
    let bytes = group.create.as_slice();
    let taken = take(alloc, book, &group.before, bytes, part, own_seed)?;
    Ok(
        taken.learned == is.secret
            && ratchet(book, maker) == is.ratchet
            && taken.took == part.is_some(),
    )
}

/// Whether taking the ack of the create by the member at a place says so much.
fn ack_says(
    alloc: Global,
    book: &mut Drill,
    group: &Group,
    place: u8,
    took: bool,
    part: Option<&[u8]>,
    is: Known,
) -> Result<bool, Fail> {
    answer_says(
        alloc,
        book,
        group,
        group.create.as_slice(),
        place,
        took,
        part,
        is,
    )
}

/// The same of the ack of another operation.
fn answer_says(
    alloc: Global,
    book: &mut Drill,
    group: &Group,
    operation: &[u8],
    place: u8,
    took: bool,
    part: Option<&[u8]>,
    is: Known,
) -> Result<bool, Fail> {
    let of = message_id(operation)?;
    let target = Target::Answer(of, took);
    let bytes = message(alloc, member(group, place), Kind::Ack, target, Some(of))?;
    let told = answer(alloc, book, &group.behind, bytes.as_slice(), part)?;
    Ok(told == is.secret && ratchet(book, place) == is.ratchet)
}

/// The book of the first member, which met all three.
fn met_all(alloc: Global, book: &mut Drill) -> Result<(), Fail> {
    meet_own(alloc, book)?;
    meet(alloc, book, 1)?;
    meet(alloc, book, 2)
}

/// A create whose part opens: each answer gives the secret of its member, once, and one without `took` gives none.
fn knows(alloc: Global, book: &mut Drill, group: &Group, part: &[u8]) -> Result<bool, Fail> {
    let maker = first_of(group, 1, 20);
    let own = first_of(group, 0, 20);
    let refused = Known {
        secret: None,
        ratchet: Some(EMPTY),
    };
    let mut right = create_says(alloc, book, group, 1, Some(part), None, maker)?;
    for (place, took, is) in [(0, true, own), (2, false, refused), (2, true, NOTHING)] {
        right = ack_says(alloc, book, group, place, took, None, is)? && right;
    }
    Ok(right)
}

fn hears_the_seed(alloc: Global, book: &mut Drill, group: &Group) -> Result<bool, Fail> {
    let part = part_of(alloc, 1, &seed(20))?;
    knows(alloc, book, group, part.as_slice())
}

/// A create without a part that opens: its maker's ratchet is forgotten, and an answer's secret is known only where it
/// was forwarded.
fn lacks(alloc: Global, book: &mut Drill, group: &Group, forward: &[u8]) -> Result<bool, Fail> {
    let theirs = after_step(stepped(&EMPTY, &seed(21)));
    let created = create_says(alloc, book, group, 1, None, None, NOTHING)?;
    let told = ack_says(alloc, book, group, 2, true, Some(forward), theirs)?;
    let unknown = ack_says(alloc, book, group, 0, true, None, NOTHING)?;
    Ok(created && told && unknown)
}

fn hears_a_forward(alloc: Global, book: &mut Drill, group: &Group) -> Result<bool, Fail> {
    let forward = part_of(alloc, 2, &seed(21))?;
    lacks(alloc, book, group, forward.as_slice())
}

/// The same where the part opens to nothing.
fn hears_nothing(alloc: Global, book: &mut Drill, group: &Group) -> Result<bool, Fail> {
    let bytes = group.create.as_slice();
    let taken = take(alloc, book, &group.before, bytes, Some(b"no part"), None)?;
    let forgotten = ratchet(book, 1).is_none();
    let unknown = ack_says(alloc, book, group, 0, true, None, NOTHING)?;
    Ok(!taken.took && taken.learned.is_none() && forgotten && unknown)
}

/// The remove of the third member by the second.
fn remove_bytes(alloc: Global, group: &Group) -> Result<Bytes, Fail> {
    let before = message_id(group.create.as_slice())?;
    let target = Target::Member(MemberId(Digest(member(group, 2))));
    message(alloc, member(group, 1), Kind::Remove, target, Some(before))
}

/// A remove of the third member, which is no recipient of it, behind an own create after which the ratchet is this one.
fn hears(
    alloc: Global,
    book: &mut Drill,
    group: &Group,
    remove: &[u8],
    part: &[u8],
    own: [u8; 32],
) -> Result<bool, Fail> {
    let next = after_step(stepped(&own, &kdf(&seed(23), b"member", &member(group, 0))));
    let taken = take(alloc, book, &group.behind, remove, Some(part), None)?;
    let mine = answer_says(alloc, book, group, remove, 0, true, None, next)?;
    let theirs = answer_says(alloc, book, group, remove, 2, true, None, NOTHING)?;
    let secret = first_of(group, 1, 23).secret;
    Ok(taken.took && taken.learned == secret && mine && theirs)
}

fn hears_a_remove(
    alloc: Global,
    book: &mut Drill,
    group: &Group,
    remove: &[u8],
    own: [u8; 32],
) -> Result<bool, Fail> {
    let part = part_of(alloc, 1, &seed(23))?;
    hears(alloc, book, group, remove, part.as_slice(), own)
}

/// An own create, and the remove behind it.
fn makes(alloc: Global, book: &mut Drill, group: &Group, remove: &[u8]) -> Result<bool, Fail> {
    let (secret, next) = first_step(&seed(22), &member(group, 0));
    let own = after_step((secret, next));
    let created = create_says(alloc, book, group, 0, None, Some(&seed(22)), own)?;
    let heard = hears_a_remove(alloc, book, group, remove, next)?;
    Ok(created && heard)
}

fn makes_in(alloc: Global, book: &mut Drill, group: &Group) -> Result<bool, Fail> {
    let remove = remove_bytes(alloc, group)?;
    makes(alloc, book, group, remove.as_slice())
}

/// What the member makes and hears of a group.
#[derive(Clone, Copy, Drop)]
enum Story {
    HearsTheSeed,
    HearsAForward,
    HearsNothing,
    MakesTheGroup,
}

fn is_told(alloc: Global, book: &mut Drill, maker: u8, story: Story) -> Result<bool, Fail> {
    met_all(alloc, book)?;
    let group = new_group(alloc, 3, maker)?;
    match story {
        Story::HearsTheSeed => hears_the_seed(alloc, book, &group),
        Story::HearsAForward => hears_a_forward(alloc, book, &group),
        Story::HearsNothing => hears_nothing(alloc, book, &group),
        Story::MakesTheGroup => makes_in(alloc, book, &group),
    }
}

#[test]
fn takes_of_the_first_of_three(rt: HostRuntime) -> Result<(), Fail> {
    for (maker, story) in [
        (1, Story::HearsTheSeed),
        (1, Story::HearsAForward),
        (1, Story::HearsNothing),
        (0, Story::MakesTheGroup),
    ] {
        let mut book = Book::start(rt.alloc(), pair(rt.alloc(), 0)?);
        let right = is_told(rt.alloc(), &mut book, maker, story);
        book.close();
        assert!(rt; right?);
    }
    Ok(())
}
