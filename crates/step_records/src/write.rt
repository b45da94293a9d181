ghost use Rattle.std.specs.Prelude.{◌≡◌, ◌++◌, ◌∷◌, ◌≤◌, ℕ, List, length, IfOk, OnOk};
ghost use Rattle.group_fields.specs.Cards.{spelling};
ghost use Rattle.group_model.specs.Sets.{In};
ghost use Rattle.group_fields.specs.declared.card.Card.{Card};
ghost use Rattle.member_identity.specs.Identity.{HasCards};
ghost use Rattle.reference_member.specs.Inputs.{input_of};
ghost use Rattle.reference_member.specs.Steps.{FitsRecord, HasBytes, record_of, record_with, spellings};

use crate::cards::{append_cards, cards_size};
use crate::kinds::{ADD, CREATE, INIT, PACKET, REMOVE, SEND, UPDATE};
use group_fields::{Bytes, Card, CardView, MemberId, Memory, append_bytes};
use kem_trait::Kem;
use reference_member::Input;
use std::alloc::Global;

/// The bytes of the kind and of the random bytes, with which each record but that of an `init` begins.
const HEAD_SIZE: usize = 33;

const INIT_SIZE: usize = 67;

/// The record of a step: of what the member is given for it, and its 32 random bytes. What is given has to fit into a
/// record: a height that cards of the set have, and cards that have spellings, of which a create has at most 31.
/// `Memory` where the memory of the record is refused.
pub fn write_record<K: Kem>(
    alloc: Global,
    input: &Input<'_>,
    random: &[u8; 32],
) -> Result<Bytes, Memory>
    requires { FitsRecord ⟦<K as Kem>⟧ (input_of input.now) }
    ensures { IfOk result (λ bytes.
        bytes ≡ record_of K.SET (record { input = input_of input.now; random = random.now })) }
{
    let mut bytes = Vec::with_capacity(alloc, record_size::<K>(input))?;
    append_record::<K>(&mut bytes, input, random)?;
    Ok(Bytes::from(bytes))
}

// How many bytes the record of a step has.
fn record_size<K: Kem>(input: &Input<'_>) -> usize
    requires { FitsRecord ⟦<K as Kem>⟧ (input_of input.now) }
    ensures { (random : List ℕ) → length random ≡ 32
        → result ≡ length (record_with K.SET random (input_of input.now)) }
{
    match input {
        Input::Init(_, _) => INIT_SIZE,
        Input::Create(cards) => HEAD_SIZE + 1 + cards_size(cards.as_slice()),
        Input::Add(card) => HEAD_SIZE + card.bytes().len(),
        Input::Remove(_) => HEAD_SIZE + 32,
        Input::Update => HEAD_SIZE,
        Input::Send(text) => HEAD_SIZE + text.len(),
        Input::Packet(packet) => HEAD_SIZE + packet.len(),
    }
}

// Appends the kind of a record and the random bytes.
fn append_head(bytes: &mut Vec<u8>, kind: u8, random: &[u8; 32]) -> Result<(), Memory>
    ensures { OnOk result (bytes.new.items ≡ bytes.old.items ++ kind ∷ random.now) }
{
    append_bytes(bytes, &[kind])?;
    append_bytes(bytes, random)
}

// Appends the record of an `init`.
fn append_init<K: Kem>(
    bytes: &mut Vec<u8>,
    inviter: &MemberId,
    height: u32,
    random: &[u8; 32],
) -> Result<(), Memory>
    requires { HasCards ⟦<K as Kem>⟧ height }
    ensures { OnOk result (bytes.new.items
        ≡ bytes.old.items ++ 1 ∷ K.SET ∷ height ∷ (inviter.now.0.0 ++ random.now)) }
{
    append_bytes(bytes, &[INIT, K::SET, height as u8])?;
    append_bytes(bytes, &inviter.0.0)?;
    append_bytes(bytes, random)
}

// Appends the record of a create.
fn append_create(bytes: &mut Vec<u8>, cards: &[Card], random: &[u8; 32]) -> Result<(), Memory>
    requires spelled { (card : Card) → In card cards.now → HasBytes card }
    requires few { length cards.now ≤ 31 }
    ensures { OnOk result (bytes.new.items
        ≡ bytes.old.items ++ 2 ∷ (random.now ++ length cards.now ∷ spellings cards.now)) }
{
    append_head(bytes, CREATE, random)?;
    append_bytes(bytes, &[cards.len() as u8])?;
    append_cards(bytes, cards)
}

// Appends a record whose random bytes have these bytes behind them.
fn append_part(bytes: &mut Vec<u8>, kind: u8, random: &[u8; 32], part: &[u8]) -> Result<(), Memory>
    ensures { OnOk result (bytes.new.items ≡ bytes.old.items ++ kind ∷ (random.now ++ part.now)) }
{
    append_head(bytes, kind, random)?;
    append_bytes(bytes, part)
}

// Appends the record of an add.
fn append_add(bytes: &mut Vec<u8>, card: &CardView<'_>, random: &[u8; 32]) -> Result<(), Memory>
    ensures { OnOk result (bytes.new.items ≡ bytes.old.items ++ 3 ∷ (random.now ++ spelling card.now)) }
{
    append_part(bytes, ADD, random, card.bytes())
}

// Appends the record of a step.
fn append_record<K: Kem>(
    bytes: &mut Vec<u8>,
    input: &Input<'_>,
    random: &[u8; 32],
) -> Result<(), Memory>
    requires { FitsRecord ⟦<K as Kem>⟧ (input_of input.now) }
    ensures { OnOk result (bytes.new.items
        ≡ bytes.old.items ++ record_with K.SET random.now (input_of input.now)) }
{
    match input {
        Input::Init(inviter, height) => append_init::<K>(bytes, inviter, *height, random),
        Input::Create(cards) => append_create(bytes, cards.as_slice(), random),
        Input::Add(card) => append_add(bytes, card, random),
        Input::Remove(target) => append_part(bytes, REMOVE, random, &target.0.0),
        Input::Update => append_head(bytes, UPDATE, random),
        Input::Send(text) => append_part(bytes, SEND, random, text),
        Input::Packet(packet) => append_part(bytes, PACKET, random, packet),
    }
}
