//! The book.

ghost use Rattle.std.specs.Prelude.{◌≡◌, ◌<◌, ◌-◌, ◌^◌, ℕ, true, length, Some, IsSome, IfSome, IfNone, IfOk, OnOk};
ghost use Rattle.std.specs.Prelude.{OnErr, option_map};
ghost use Rattle.std.specs.Option.{option_and_then};
ghost use Rattle.group_keys.specs.Primitives.{primitives_of};
ghost use Rattle.member_book.specs.PairStates.{at_start};
ghost use Rattle.secret_book.specs.HeldBooks.{held, started, met_with, handed, stepped, secret_by, chained};
ghost use Rattle.secret_book.specs.HeldBooks.{text_key_of, NothingHeld};
ghost use Rattle.secret_book.specs.HeldBooks.{with_kept, sealed_at, part_from, opened_at, payload_from};

use crate::kept_secrets::KeptSecrets;
use crate::place_row::PlaceRow;
use group_fields::{Bytes, Memory, MessageId};
use kem_trait::Kem;
use sender_ratchet::MessageKey;
use std::alloc::Global;
use std::marker::Model;
use two_party::{Pairing, PartDraw};

/// What one member holds of the members of its group, by their places: of each place its ratchet and its text chain,
/// where they are known, and its pairing; and the inputs of answers, by operation and place. Contracts see the lists
/// of these, and `held` of them. Nothing is kept for a place that was not met.
///
/// A book can't be dropped: `close` takes it.
pub struct Book<K: Kem> {
    pair: K::Pair,
    places: Vec<PlaceRow<K>>,
    kept: KeptSecrets,
}

impl<K: Kem> Model for Book<K> {
    ghost use Rattle.std.specs.Prelude.{length};
    ghost use Rattle.secret_book.specs.HeldBooks.{BookTable, NothingKept, kept_by};

    ghost Value = { BookTable };

    ghost view = { λ book. record {
      secret = K.secret_key book.pair;
      places = book.places.items;
      kept = book.kept;
    } };

    ghost invariant = { λ book. NothingKept (length book.places.items) (kept_by book.kept) };
}

/// Gives up the keys of each place.
fn retire_places<K: Kem>(mut places: Vec<PlaceRow<K>>) {
    let count = places.len();
    for i in 0..count {
        if let Some(place) = places.pop() {
            place.retire();
        }
    }
    places.destroy_empty();
}

impl<K: Kem> Book<K> {
    /// The book before a place is met, of the member with this pair on its card.
    pub fn start(alloc: Global, pair: K::Pair) -> Book<K>
        ensures { held result ≡ started (K.secret_key pair) }
    {
        Book {
            pair,
            places: Vec::new(alloc),
            kept: KeptSecrets::new(alloc),
        }
    }

    /// How many places were met. Of any other nothing is held.
    pub fn met(&self) -> usize
        ensures count { result ≡ length self.now.places }
        ensures unmet { NothingHeld result (held self.now) }
    {
        self.places.len()
    }

    /// How many parts were sent to a place. None exactly at the own one.
    pub fn sends(&self, place: u8) -> Option<u32>
        requires { place < length self.now.places }
        ensures { result ≡ option_map (λ k. k.sends) ((held self.now).pairing place) }
    {
        self.places[place as usize].sends()
    }

    /// The pairing with the holder of a public key; none without one.
    fn pairing(&self, alloc: Global, public: Option<&[u8]>) -> Result<Option<Pairing<K>>, Memory>
        requires { IfSome public (λ p. K.is_public p.now ≡ true) }
        ensures { IfOk result (λ pairing. pairing
            ≡ option_map (λ p. at_start self.now.secret p.now) public.entry) }
    {
        match public {
            Some(public) => Ok(Some(Pairing::start(alloc, &self.pair, public)?)),
            None => Ok(None),
        }
    }

    /// Meets the next place: a member with this public key on its card, or, without one, the own place. Nothing was held
    /// of it: its ratchet is the empty one from now on.
    ///
    /// `Memory` where an allocation was refused; then the book is as before.
    pub fn meet(&mut self, alloc: Global, place: u8, public: Option<&[u8]>) -> Result<(), Memory>
        requires next { place ≡ length self.old.places }
        requires public { IfSome public (λ p. K.is_public p.now ≡ true) }
        requires own { IfNone public ((q : ℕ) → q < place → IsSome ((held self.old).pairing q)) }
        ensures met { OnOk result (held self.new ≡ met_with (option_map (λ p. p.now) public.entry) (held self.old)) }
        ensures unmet { NothingHeld place (held self.old) }
        ensures unchanged { OnErr result (self.new ≡ self.old) }
    {
        self.places.reserve(1)?;
        let pairing = self.pairing(alloc, public)?;
        self.places.push_reserved(PlaceRow::new(pairing));
        Ok(())
    }

    /// Writes the next part to a place, with a payload.
    ///
    /// `Memory` where an allocation was refused; then the book is as before.
    pub fn seal_to(
        &mut self,
        alloc: Global,
        place: u8,
        payload: &[u8; 32],
        draw: PartDraw<K>,
    ) -> Result<Bytes, Memory>
        requires met { place < length self.old.places }
        requires other { IsSome ((held self.old).pairing place) }
        requires few { IfSome ((held self.old).pairing place) (λ k. k.sends < 2 ^ 32 - 1) }
        ensures part { IfOk result (λ bytes. option_and_then (part_from ⟦<K as Kem>⟧ draw payload.now)
            ((held self.old).pairing place) ≡ Some bytes) }
        ensures sent { OnOk result (held self.new ≡ sealed_at place draw (held self.old)) }

        // The number of the key that the part is sealed to is written whole.
        ensures number { IfOk result (λ bytes.
            IfSome ((held self.old).pairing place) (λ k. k.target.number < 2 ^ 32)) }
        ensures unchanged { OnErr result (self.new ≡ self.old) }
    {
        self.places[place as usize].seal(alloc, payload, draw)
    }

    /// Takes a part of a place, and answers its payload. `None` exactly where it doesn't open by the place's pairing;
    /// then the book is as before.
    ///
    /// `Memory` where an allocation was refused; then the book is as before.
    pub fn open_from(
        &mut self,
        alloc: Global,
        place: u8,
        part: &[u8],
    ) -> Result<Option<[u8; 32]>, Memory>
        requires met { place < length self.old.places }
        requires other { IsSome ((held self.old).pairing place) }
        ensures payload { IfOk result (λ answer. answer
            ≡ option_and_then (payload_from ⟦<K as Kem>⟧ part.now) ((held self.old).pairing place)) }
        ensures opened { OnOk result (held self.new ≡ opened_at ⟦<K as Kem>⟧ place part.now (held self.old)) }
        ensures unchanged { OnErr result (self.new ≡ self.old) }
    {
        self.places[place as usize].open(alloc, part)
    }

    /// The ratchet of a place. None exactly where it isn't known.
    pub fn ratchet(&self, place: u8) -> Option<[u8; 32]>
        requires { place < length self.now.places }
        ensures { result ≡ (held self.now).ratchet place }
    {
        self.places[place as usize].ratchet()
    }

    /// Takes the ratchet of a place as it was handed.
    pub fn hand(&mut self, place: u8, ratchet: [u8; 32])
        requires { place < length self.old.places }
        ensures { held self.new ≡ handed place ratchet (held self.old) }
    {
        self.places[place as usize].hand(ratchet);
    }

    /// Steps the ratchet of a place by an input, and starts its text chain anew; without an input both are forgotten.
    /// Answers the update secret. None exactly where there is no input or the ratchet isn't known, and then both are
    /// forgotten.
    pub fn step(&mut self, place: u8, input: Option<&[u8]>) -> Option<[u8; 32]>
        requires { place < length self.old.places }
        ensures secret { result ≡ secret_by (primitives_of ⟦<K as Kem>⟧) (option_map (λ i. i.now) input.entry)
            ((held self.old).ratchet place) }
        ensures book { held self.new
            ≡ stepped (primitives_of ⟦<K as Kem>⟧) place (option_map (λ i. i.now) input.entry) (held self.old) }
    {
        self.places[place as usize].step(input)
    }

    /// Keeps the input of the answer of a place to an operation.
    ///
    /// `Memory` where an allocation was refused; then the book is as before.
    pub fn keep(&mut self, of: MessageId, place: u8, secret: [u8; 32]) -> Result<(), Memory>
        requires { place < length self.old.places }
        ensures kept { OnOk result (held self.new ≡ with_kept of.0.0 place (Some secret) (held self.old)) }
        ensures unchanged { OnErr result (self.new ≡ self.old) }
    {
        self.kept.keep(of, place, secret)
    }

    /// Takes the input that is kept for the answer of a place to an operation. None exactly where none is kept.
    pub fn spend(&mut self, of: &MessageId, place: u8) -> Option<[u8; 32]>
        requires { place < length self.old.places }
        ensures secret { result ≡ (held self.old).kept of.now.0.0 place }
        ensures spent { held self.new ≡ with_kept of.now.0.0 place None (held self.old) }
    {
        self.kept.spend(of, place)
    }

    /// The key of the next text of a place, whose text chain moves on. None exactly where the text chain isn't known.
    pub fn text_key(&mut self, place: u8) -> Option<MessageKey>
        requires { place < length self.old.places }
        ensures key { result ≡ text_key_of (primitives_of ⟦<K as Kem>⟧) ((held self.old).chain place) }
        ensures book { held self.new ≡ chained (primitives_of ⟦<K as Kem>⟧) place (held self.old) }
    {
        self.places[place as usize].text_key()
    }

    /// Gives up all that the book holds.
    pub fn close(self) {
        let Book {
            pair: _,
            places,
            kept: _,
        } = self;
        retire_places::<K>(places);
    }
}
