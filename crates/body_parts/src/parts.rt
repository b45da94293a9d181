//! Parts, as a member makes them from its book.

ghost use Rattle.std.specs.Prelude.{◌≡◌, ◌≢◌, ◌↔◌, ◌<◌, ◌≤◌, ◌^◌, ℕ, true, List, [], ◌∷◌, length, IfOk, OnOk, Option};
ghost use Rattle.std.specs.Prelude.{IsTrue};
ghost use Rattle.group_fields.specs.LayoutWrites.{Appends, ascends};
ghost use Rattle.group_fields.specs.declared.ids.Digest.{Digest};
ghost use Rattle.wire_codec.specs.Packets.{AddressedPart, part, parts, parts_above};
ghost use Rattle.group_model.specs.Marks.{IsPlace};
ghost use Rattle.group_model.specs.Membership.{ids_named};
ghost use Rattle.group_model.specs.Sets.{Bytes, Id, IsAscending};
ghost use Rattle.causal_history.specs.Bits.{bit};
ghost use Rattle.causal_history.specs.Rows.{history_of};
ghost use Rattle.two_party.specs.Drawn.{after_take};
ghost use Rattle.secret_book.specs.HeldBooks.{held};
ghost use Rattle.body_parts.specs.Receivers.{ArePlaced, digests_to, id_to, ids_to};
ghost use Rattle.body_parts.specs.Sending.{AreMadeFor, CanReach, CanSend, CanSendAll, IsPartsBody, IsSealedFor};

use crate::addressing::{Receiver, receivers};
use crate::laws::parts_are_the_models;
use causal_history::{Crowd, History};
use group_fields::{Bytes, Memory, append_bytes, append_digest, append_u8};
use group_keys::made_parts_have_sizes;
use kem_trait::Kem;
use secret_book::Book;
use std::alloc::Global;
use two_party::PartDraws;

/// Whether parts can be sent to a place: it was met, it is not the own one, and fewer than 2^32 - 1 were sent to it.
pub fn can_reach<K: Kem>(book: &Book<K>, place: u8) -> bool
    ensures { IsTrue result ↔ CanReach (held book.now) place }
{
    if place as usize >= book.met() {
        return false;
    }
    match book.sends(place) {
        Some(sends) => sends < u32::MAX,
        None => false,
    }
}

// Seals a payload for a receiver, with what was drawn for it.
fn seal_for<K: Kem>(
    alloc: Global,
    book: &mut Book<K>,
    to: &Receiver,
    payload: &[u8; 32],
    draws: &mut PartDraws<K>,
) -> Result<Bytes, Memory>
    requires { CanSend (held book.old) draws.old to.now.place (id_to to.now) }
    ensures sealed { IfOk result
        (IsSealedFor ⟦<K as Kem>⟧ to.now payload.now draws.old (held book.old) (held book.new)) }
    ensures left { draws.new ≡ after_take draws.old (id_to to.now) }
{
    made_parts_have_sizes::<K>();
    let draw = draws.take(&to.member).unwrap();
    book.seal_to(alloc, to.place, payload, draw)
}

/// Writes a part with a payload for a receiver behind the bytes, without the receiver's id before it. What was drawn
/// for the receiver is taken.
///
/// `Memory` where an allocation was refused; then the book may have moved, and is only to be closed.
pub fn append_part<K: Kem>(
    alloc: Global,
    book: &mut Book<K>,
    to: &Receiver,
    payload: &[u8; 32],
    draws: &mut PartDraws<K>,
    into: &mut Vec<u8>,
) -> Result<(), Memory>
    requires { CanSend (held book.old) draws.old to.now.place (id_to to.now) }
    ensures part { OnOk result ((bytes : Bytes) × Appends (part K.SET) bytes into.old.items into.new.items
        × AreMadeFor ⟦<K as Kem>⟧ (to.now ∷ []) payload.now draws.old (held book.old) (held book.new)
        (record { to = to.now.member; bytes = bytes } ∷ [])) }

    // What is held of other places stays, and so does what was drawn for others.
    ensures others { OnOk result ((p : ℕ) → p ≢ to.now.place
        → (held book.new).pairing p ≡ (held book.old).pairing p) }
    ensures left { OnOk result (draws.new ≡ after_take draws.old (id_to to.now)) }
{
    parts_are_the_models::<K>();
    let bytes = seal_for::<K>(alloc, book, to, payload, draws)?;
    append_bytes(into, bytes.as_slice())
}

// Writes for each of the receivers its id and its part.
fn append_each<K: Kem>(
    alloc: Global,
    book: &mut Book<K>,
    to: &[Receiver],
    payload: &[u8; 32],
    draws: &mut PartDraws<K>,
    into: &mut Vec<u8>,
) -> Result<(), Memory>
    requires placed { (ids : List Id) × ArePlaced ids to.now }
    requires ascend { IsAscending (ids_to to.now) }
    requires can { CanSendAll (held book.old) draws.old to.now }
    ensures { OnOk result ((made : List AddressedPart)
        × ((last : Option Digest) → ascends last (digests_to to.now) ≡ true
        → Appends (parts_above K.SET (length to.now) last) made into.old.items into.new.items)
        × AreMadeFor ⟦<K as Kem>⟧ to.now payload.now draws.old (held book.old) (held book.new) made) }
{
    let [first, others @ ..] = to else {
        return Ok(());
    };
    append_digest(into, first.member.0)?;
    append_part::<K>(alloc, book, first, payload, draws, into)?;
    append_each::<K>(alloc, book, others, payload, draws, into)
}

/// Writes behind the bytes the parts of a body, each with the payload: the count of the receivers, and for each its id
/// and its part. What was drawn for the receivers is taken.
///
/// `Memory` where an allocation was refused; then the book may have moved, and is only to be closed.
pub fn append_parts<K: Kem>(
    alloc: Global,
    book: &mut Book<K>,
    to: &[Receiver],
    payload: &[u8; 32],
    draws: &mut PartDraws<K>,
    into: &mut Vec<u8>,
) -> Result<(), Memory>
    requires placed { (ids : List Id) × ArePlaced ids to.now }
    requires ascend { IsAscending (ids_to to.now) }
    requires few { length to.now < 2 ^ 8 }
    requires can { CanSendAll (held book.old) draws.old to.now }
    ensures { OnOk result ((made : List AddressedPart)
        × ((greatest : ℕ) → length to.now ≤ greatest
        → Appends (parts K.SET greatest) made into.old.items into.new.items)
        × AreMadeFor ⟦<K as Kem>⟧ to.now payload.now draws.old (held book.old) (held book.new) made) }
{
    append_u8(into, to.len() as u8)?;
    append_each::<K>(alloc, book, to, payload, draws, into)
}

/// Makes the body of a message that carries parts with a payload alone: one for each member of the crowd of the
/// history, ascending by their ids.
///
/// `Memory` where an allocation was refused; then the book may have moved, and is only to be closed.
pub fn parts_body<K: Kem>(
    alloc: Global,
    book: &mut Book<K>,
    history: &History,
    to: Crowd,
    payload: &[u8; 32],
    draws: PartDraws<K>,
) -> Result<Bytes, Memory>
    requires { (p : ℕ) (id : Id) → IsPlace (ids_named (history_of history.now)) p id → bit to.0 p ≡ true
        → CanSend (held book.old) draws p id }
    ensures { IfOk result (IsPartsBody ⟦<K as Kem>⟧ (ids_named (history_of history.now)) (bit to.0) payload.now draws
        (held book.old) (held book.new)) }
{
    let receivers = receivers(alloc, history, to)?;
    let mut draws = draws;
    let mut body = Vec::new(alloc);
    append_parts::<K>(
        alloc,
        book,
        receivers.as_slice(),
        payload,
        &mut draws,
        &mut body,
    )?;
    Ok(Bytes::from(body))
}
