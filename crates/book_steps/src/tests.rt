//! What a member of a small group holds and learns: it takes a create and answers it, updates and takes the answer,
//! and, as another, joins by an add. Secrets are those of the definition of a ratchet's step.

ghost use Rattle.std.specs.Prelude.{◌≡◌, ◌<◌, ◌∷◌, ◌≢◌, ℕ, IsTrue, IsSome, IfSome, true, length};
ghost use Rattle.causal_history.specs.Rows.{history_of};
ghost use Rattle.group_messages.specs.Messages.{message_of};
ghost use Rattle.group_model.specs.Marks.{IsPlace};
ghost use Rattle.group_model.specs.Membership.{ids_named};
ghost use Rattle.group_model.specs.Messages.{Add, Message, Stands, Text, Update};
ghost use Rattle.group_model.specs.Sets.{Id, In};
ghost use Rattle.member_view.specs.Crowds.{StandsWell};
ghost use Rattle.secret_book.specs.HeldBooks.{held};

use crate::{
    join_by, own_acks_are_entries, own_secret, step_own_ack, take_own, take_packet,
    texts_are_entries,
};
use causal_history::{History, rows_are_messages};
use group_fields::{
    Bytes, Card, Cards, Digest, GroupId, Header, HeaderView, Ids, Kind, MemberId, MessageId,
    Target, read_card, read_header, write_card, write_header,
};
use group_messages::named_ids_are_few;
use hkdf_seal::{expand, extract, kdf};
use kem_trait::{Kem, SeedWords};
use member_view::{Act, RemoveWins, act_of, place_with};
use ntru_prime::Drill37;
use opened_parts::{Taken, sender_place};
use secret_book::Book;
use std::alloc::Global;
use std::test::Fail;
use two_party::{PartDraw, draw_parts};

type Drill = Book<Drill37>;

const ADDRESSEE: MemberId = MemberId(Digest([9; 32]));

/// The ratchet before a first step.
const EMPTY: [u8; 32] = [0; 32];

// ---- keys

/// 32 bytes for each number.
fn seed(number: u8) -> [u8; 32] {
    kdf(&[7; 32], b"seed", &[number])
}

/// The first 32 bytes and the others.
fn halves(bytes: &[u8; 64]) -> ([u8; 32], [u8; 32]) {
    let (front, back) = bytes.split_at(32);
    let mut first = [0; 32];
    let mut last = [0; 32];
    first.copy_from_slice(front);
    last.copy_from_slice(back);
    (first, last)
}

/// The update secret of a ratchet's step by an input, and the ratchet after it: 64 bytes of HKDF, by their definition.
fn stepped(ratchet: &[u8; 32], input: &[u8]) -> ([u8; 32], [u8; 32]) {
    let mut output = [0; 64];
    expand(&extract(ratchet, input), b"ratchet", &mut output);
    halves(&output)
}

/// The secret of a member under the seed of a number.
fn secret_of(number: u8, id: &[u8; 32]) -> [u8; 32] {
    kdf(&seed(number), b"member", id)
}

fn pair(alloc: Global, number: u8) -> Result<<Drill37 as Kem>::Pair, Fail> {
    Ok(Drill37::make(alloc, &mut SeedWords::new(&seed(number)))?)
}

fn draw(alloc: Global, number: u8) -> Result<PartDraw<Drill37>, Fail> {
    let mut draws = draw_parts::<Drill37>(alloc, &seed(number), &[ADDRESSEE])?;
    match draws.take(&ADDRESSEE) {
        Some(draw) => Ok(draw),
        None => Err(Fail::new("nothing was drawn for a member of the list")),
    }
}

// ---- books

/// Meets the own place first.
fn meet_own(alloc: Global, book: &mut Drill) -> Result<(), Fail> {
    if book.met() != 0 {
        return Err(Fail::new("the own place is the first here"));
    }
    Ok(book.meet(alloc, 0, None)?)
}

/// Meets the member whose pair is made by the seed of a number.
fn meet(alloc: Global, book: &mut Drill, number: u8) -> Result<(), Fail> {
    let place = book.met();
    let theirs = pair(alloc, number)?;
    let mut public = vec![in alloc; 0; Drill37::PUBLIC_LEN]?;
    Drill37::public(&theirs, public.as_mut_slice());
    if place > 255 || !Drill37::public_ok(public.as_slice()) {
        return Err(Fail::new("no place, or the public key of a pair is none"));
    }
    Ok(book.meet(alloc, place as u8, Some(public.as_slice()))?)
}

fn was_met(book: &Drill, place: u8) -> bool
    ensures { result ≡ true → place < length book.now.places }
{
    (place as usize) < book.met()
}

/// Meets the own place behind that of another.
fn meet_own_last(alloc: Global, book: &mut Drill) -> Result<(), Fail> {
    if book.met() != 1 || book.sends(0).is_none() {
        return Err(Fail::new("the own place is the second here"));
    }
    Ok(book.meet(alloc, 1, None)?)
}

/// The part of a member to the first one, with a payload.
fn sealed(alloc: Global, book: &mut Drill, payload: &[u8; 32], number: u8) -> Result<Bytes, Fail> {
    meet_own(alloc, book)?;
    meet(alloc, book, 0)?;
    if !was_met(book, 1) {
        return Err(Fail::new("a place that was not met"));
    }
    match book.sends(1) {
        Some(sends) if sends < u32::MAX => {}
        _ => return Err(Fail::new("the own place, or too many parts")),
    }
    let draw = draw(alloc, number)?;
    Ok(book.seal_to(alloc, 1, payload, draw)?)
}

/// The first part of a member to the first one, whose pair is made by the seed 0.
fn part_of(alloc: Global, number: u8, payload: &[u8; 32]) -> Result<Bytes, Fail> {
    let mut book = Book::start(alloc, pair(alloc, number)?);
    let part = sealed(alloc, &mut book, payload, number);
    book.close();
    part
}

// ---- messages

fn card_bytes(alloc: Global, number: u8) -> Result<Bytes, Fail> {
    let mut lms_public = [number; 56];
    lms_public[..8].copy_from_slice(&[0, 0, 0, 5, 0, 0, 0, 3]);
    let card = Card {
        set: 2,
        lms_public,
        inviter: MemberId(Digest([0; 32])),
        kem_public: Bytes::copy_of(alloc, &[number; 33])?,
    };
    if !card.has_spelling() {
        return Err(Fail::new("a card that has no spelling"));
    }
    Ok(write_card(alloc, &card)?)
}

/// The ids of two members, in their order.
fn all_ids(alloc: Global) -> Result<Vec<[u8; 32]>, Fail> {
    let mut ids = Vec::new(alloc);
    for number in 0..2 {
        let bytes = card_bytes(alloc, number)?;
        match read_card(bytes.as_slice()) {
            Ok(card) => ids.push(card.id().0.0)?,
            Err(_) => return Err(Fail::new("a card that can't be read")),
        }
    }
    ids.sort()?;
    Ok(ids)
}

fn push_card(alloc: Global, cards: &mut Cards, id: &[u8; 32]) -> Result<(), Fail> {
    for number in 0..2 {
        let bytes = card_bytes(alloc, number)?;
        if let Ok(card) = read_card(bytes.as_slice()) {
            if card.id().0.0 == *id {
                cards.push(&card)?;
            }
        }
    }
    Ok(())
}

fn id_at(ids: &[[u8; 32]], place: u8) -> [u8; 32] {
    ids.get(place as usize).copied().unwrap_or([0; 32])
}

/// A message of the member at a place, with one predecessor or none.
fn message(
    alloc: Global,
    sender: [u8; 32],
    kind: Kind,
    target: Target,
    before: Option<MessageId>,
) -> Result<Bytes, Fail> {
    let mut predecessors = Ids::new(alloc);
    if let Some(id) = before {
        predecessors.push(id.0)?;
    }
    let header = Header {
        set: 2,
        group: GroupId(Digest([9; 32])),
        sender: MemberId(Digest(sender)),
        seq: 1,
        kind,
        target,
        predecessors,
        body: Digest([7; 32]),
    };
    if !header.has_spelling() {
        return Err(Fail::new("a header that has no spelling"));
    }
    Ok(write_header(alloc, &header)?)
}

fn create(alloc: Global, sender: [u8; 32], ids: &[[u8; 32]]) -> Result<Bytes, Fail> {
    let mut list = Ids::new(alloc);
    for id in ids {
        list.push(Digest(*id))?;
    }
    message(alloc, sender, Kind::Create, Target::Members(list), None)
}

fn message_id(bytes: &[u8]) -> Result<MessageId, Fail> {
    match read_header(bytes) {
        Ok(header) => Ok(header.id()),
        Err(_) => Err(Fail::new("a header that can't be read")),
    }
}

fn push(history: &mut History, bytes: &[u8], cards: &Cards) -> Result<(), Fail> {
    let Ok(header) = read_header(bytes) else {
        return Err(Fail::new("a header that can't be read"));
    };
    if !history.may_push(&header, cards)? {
        return Err(Fail::new("a row that may not be pushed"));
    }
    Ok(history.push(&header, cards)?)
}

// ---- what the calls ask

fn stands_well(history: &History, header: &HeaderView<'_>) -> bool
    ensures { IsTrue result → StandsWell (history_of history.now) (message_of header.now) (message_of header.now).kind }
{
    rows_are_messages();
    match act_of(header) {
        Act::Create(_) => history.count() == 0,
        _ => true,
    }
}

fn is_new(history: &History, header: &HeaderView<'_>) -> bool
    ensures { IsTrue result → Stands (history_of history.now) (message_of header.now).id → ⊥ }
{
    history.find(&header.id()).is_none()
}

/// Whether the book has met exactly the members that the history and the message name.
fn all_met(history: &History, header: &HeaderView<'_>, book: &Drill) -> bool
    ensures { IsTrue result
        → length (ids_named (message_of header.now ∷ history_of history.now)) ≡ length book.now.places }
{
    rows_are_messages();
    named_ids_are_few();
    let _bytes = header.bytes();
    match act_of(header) {
        Act::Create(ids) => history.count() == 0 && ids.count() as usize == book.met(),
        Act::Add(target) => {
            history.place(&target).is_none() && history.places() as usize + 1 == book.met()
        }
        _ => history.places() as usize == book.met(),
    }
}

fn is_placed(history: &History, header: &HeaderView<'_>) -> bool
    ensures { IsTrue result
        → In (message_of header.now).sender (ids_named (message_of header.now ∷ history_of history.now)) }
{
    match place_with(history, Some(header), &header.sender()) {
        Some(_) => true,
        None => false,
    }
}

/// Whether the sender's place has a pairing.
fn is_paired(history: &History, header: &HeaderView<'_>, book: &Drill) -> bool
    requires { In (message_of header.now).sender (ids_named (message_of header.now ∷ history_of history.now)) }
    ensures { IsTrue result → (p : ℕ)
        → IsPlace (ids_named (message_of header.now ∷ history_of history.now)) p (message_of header.now).sender
        → IsSome ((held book.now).pairing p) }
{
    let place = sender_place(history, header);
    if !was_met(book, place) {
        return false;
    }
    match book.sends(place) {
        Some(_) => true,
        None => false,
    }
}

fn refused() -> Fail {
    Fail::new("a message that may not be taken")
}

/// Whether the history is one row, whose sender it names.
fn is_of_one(history: &History) -> bool
    ensures { IsTrue result → (m : Message) → In m (history_of history.now)
        → In m.sender (ids_named (history_of history.now)) }
{
    rows_are_messages();
    if history.count() != 1 {
        return false;
    }
    match history.place(&history.row(0).sender()) {
        Some(_) => true,
        None => false,
    }
}

/// Whether the message is a create or an ack.
fn is_plain(header: &HeaderView<'_>) -> bool
    ensures text { IsTrue result → (message_of header.now).kind ≢ Text }
    ensures add { IsTrue result → (y : Id) → (message_of header.now).kind ≢ Add y }
{
    match act_of(header) {
        Act::Create(_) => true,
        Act::Ack(_, _) => true,
        _ => false,
    }
}

fn is_update(header: &HeaderView<'_>) -> bool
    ensures { IsTrue result → (message_of header.now).kind ≡ Update }
{
    match act_of(header) {
        Act::Update => true,
        _ => false,
    }
}

fn is_add(header: &HeaderView<'_>) -> bool
    ensures { IsTrue result → (y : Id) × ((message_of header.now).kind ≡ Add y) }
{
    match act_of(header) {
        Act::Add(_) => true,
        _ => false,
    }
}

/// Whether each call may be asked about the message of this book, with the part.
fn is_met(history: &History, header: &HeaderView<'_>, book: &Drill, part: Option<&[u8]>) -> bool
    ensures met { IsTrue result
        → length (ids_named (message_of header.now ∷ history_of history.now)) ≡ length book.now.places }
    ensures sender { IsTrue result
        → In (message_of header.now).sender (ids_named (message_of header.now ∷ history_of history.now)) }
    ensures other { IsTrue result → IfSome part.entry (λ _. (p : ℕ)
        → IsPlace (ids_named (message_of header.now ∷ history_of history.now)) p (message_of header.now).sender
        → IsSome ((held book.now).pairing p)) }
{
    if !all_met(history, header, book) || !is_placed(history, header) {
        return false;
    }
    match part {
        Some(_) => is_paired(history, header, book),
        None => true,
    }
}

// ---- the calls

/// What the first member takes of a create or an ack.
fn taken(
    alloc: Global,
    book: &mut Drill,
    history: &History,
    bytes: &[u8],
    part: Option<&[u8]>,
) -> Result<Taken, Fail> {
    let Ok(header) = read_header(bytes) else {
        return Err(refused());
    };
    if history.missing(&header).is_some() || !is_plain(&header) {
        return Err(refused());
    }
    if !stands_well(history, &header) || !is_new(history, &header) {
        return Err(refused());
    }
    if !is_met(history, &header, book, part) || !was_met(book, 0) {
        return Err(refused());
    }
    let taken = take_packet::<Drill37, RemoveWins>(alloc, book, history, 0, &header, part)?;
    Ok(taken)
}

/// What the second member learns of the add that brings it in.
fn joined(
    alloc: Global,
    book: &mut Drill,
    history: &History,
    bytes: &[u8],
    part: &[u8],
) -> Result<Taken, Fail> {
    let Ok(header) = read_header(bytes) else {
        return Err(refused());
    };
    if !is_add(&header) || !is_of_one(history) {
        return Err(refused());
    }
    if !is_met(history, &header, book, Some(part)) || !was_met(book, 1) {
        return Err(refused());
    }
    let taken = join_by::<Drill37>(alloc, book, history, 1, &header, Some(part))?;
    Ok(taken)
}

/// What the first member learns of its own update, which sends nobody a part here.
fn updated(
    alloc: Global,
    book: &mut Drill,
    history: &History,
    bytes: &[u8],
    seed: &[u8; 32],
) -> Result<Option<[u8; 32]>, Fail> {
    let Ok(header) = read_header(bytes) else {
        return Err(refused());
    };
    if history.missing(&header).is_some() || !is_update(&header) {
        return Err(refused());
    }
    if !is_new(history, &header) || !is_met(history, &header, book, None) || !was_met(book, 0) {
        return Err(refused());
    }
    let learned = take_own::<Drill37, RemoveWins>(alloc, book, history, 0, &header, seed)?;
    Ok(learned)
}

/// The secret that the first member's ack takes, and the update secret of the ack.
fn acked(book: &mut Drill, operation: &MessageId) -> (Option<[u8; 32]>, Option<[u8; 32]>) {
    if !was_met(book, 0) {
        return (None, None);
    }
    let secret = own_secret(book, 0, operation);
    if !was_met(book, 0) {
        return (None, None);
    }
    let learned = step_own_ack(book, 0, secret.as_ref());
    (secret, learned)
}

// ---- stories

/// A group that the member at a place makes, of the first so many: its create, and the history before and behind it.
#[derive(Drop)]
struct Group {
    ids: Vec<[u8; 32]>,
    create: Bytes,
    before: History,
    behind: History,
}

fn new_group(alloc: Global, maker: u8, count: usize) -> Result<Group, Fail> {
    let ids = all_ids(alloc)?;
    let members = ids.as_slice().get(..count).unwrap_or(&[]);
    let mut cards = Cards::new(alloc);
    for id in members {
        push_card(alloc, &mut cards, id)?;
    }
    let create = create(alloc, id_at(ids.as_slice(), maker), members)?;
    let mut behind = History::new(alloc);
    push(&mut behind, create.as_slice(), &cards)?;
    Ok(Group {
        ids,
        create,
        before: History::new(alloc),
        behind,
    })
}

fn member(group: &Group, place: u8) -> [u8; 32] {
    id_at(group.ids.as_slice(), place)
}

/// A message of the member at a place behind the create.
fn said(
    alloc: Global,
    group: &Group,
    place: u8,
    kind: Kind,
    target: Target,
) -> Result<Bytes, Fail> {
    let before = message_id(group.create.as_slice())?;
    message(alloc, member(group, place), kind, target, Some(before))
}

/// Whether a message was taken with this flag, and told this secret.
fn says(taken: Taken, took: bool, secret: [u8; 32]) -> bool {
    taken.took == took && taken.learned == Some(secret)
}

/// The first member takes a create by the second, with this part, and answers it.
fn answers(alloc: Global, book: &mut Drill, group: &Group, part: &[u8]) -> Result<bool, Fail> {
    let theirs = stepped(&EMPTY, &secret_of(20, &member(group, 1)));
    let own = secret_of(20, &member(group, 0));
    let create = group.create.as_slice();
    let heard = taken(alloc, book, &group.before, create, Some(part))?;
    let answer = acked(book, &message_id(create)?);
    let right = says(heard, true, theirs.0);
    Ok(right && answer.0 == Some(own) && answer.1 == Some(stepped(&EMPTY, &own).0))
}

/// Then it updates, and takes the answer of the second, whose ratchet has stepped once.
fn updates(alloc: Global, book: &mut Drill, group: &Group, update: &[u8]) -> Result<bool, Fail> {
    let own = stepped(&EMPTY, &secret_of(20, &member(group, 0))).1;
    let theirs = stepped(&EMPTY, &secret_of(20, &member(group, 1))).1;
    let learned = updated(alloc, book, &group.behind, update, &seed(22))?;
    let target = Target::Answer(message_id(update)?, true);
    let ack = said(alloc, group, 1, Kind::Ack, target)?;
    let heard = taken(alloc, book, &group.behind, ack.as_slice(), None)?;
    let made = learned == Some(stepped(&own, &secret_of(22, &member(group, 0))).0);
    let next = stepped(&theirs, &secret_of(22, &member(group, 1)));
    Ok(made && says(heard, false, next.0))
}

/// The first member meets itself and the second, who makes the group.
fn first_story(alloc: Global, book: &mut Drill) -> Result<bool, Fail> {
    meet_own(alloc, book)?;
    meet(alloc, book, 1)?;
    let group = new_group(alloc, 1, 2)?;
    let part = part_of(alloc, 1, &seed(20))?;
    let update = said(alloc, &group, 0, Kind::Update, Target::Nothing)?;
    let answered = answers(alloc, book, &group, part.as_slice())?;
    let updates = updates(alloc, book, &group, update.as_slice())?;
    Ok(answered && updates)
}

/// The second member joins by an add of the first, who is alone.
fn second_story(alloc: Global, book: &mut Drill) -> Result<bool, Fail> {
    meet(alloc, book, 1)?;
    meet_own_last(alloc, book)?;
    let group = new_group(alloc, 0, 1)?;
    let ratchet = seed(30);
    let part = part_of(alloc, 1, &ratchet)?;
    let target = Target::Member(MemberId(Digest(member(&group, 1))));
    let add = said(alloc, &group, 0, Kind::Add, target)?;
    let heard = joined(alloc, book, &group.behind, add.as_slice(), part.as_slice())?;
    let welcome = stepped(&ratchet, b"welcome").1;
    Ok(says(heard, true, stepped(&welcome, b"add").0))
}

#[test]
fn a_member_takes_what_it_hears_and_makes(rt: HostRuntime) -> Result<(), Fail> {
    own_acks_are_entries::<Drill37>();
    texts_are_entries::<Drill37>();
    for first in [true, false] {
        let mut book = Book::start(rt.alloc(), pair(rt.alloc(), 0)?);
        let right = if first {
            first_story(rt.alloc(), &mut book)
        } else {
            second_story(rt.alloc(), &mut book)
        };
        book.close();
        assert!(rt; right?);
    }
    Ok(())
}
