//! What a book holds of one place.

ghost use Rattle.std.specs.Prelude.{◌≡◌, ◌<◌, ◌-◌, ◌^◌, Some, None, IsSome, IfSome, IfOk, OnErr, option_map};
ghost use Rattle.std.specs.Option.{option_and_then};
ghost use Rattle.group_model.specs.KeyTerms.{first_chain, next_chain};
ghost use Rattle.group_keys.specs.Primitives.{primitives_of};
ghost use Rattle.member_book.specs.PairStates.{after_send};
ghost use Rattle.two_party.specs.Received.{after_part};
ghost use Rattle.secret_book.specs.HeldBooks.{PlaceState, fresh_place, secret_by, ratchet_by, text_key_of};
ghost use Rattle.secret_book.specs.HeldBooks.{part_from, payload_from};

use group_fields::{Bytes, Memory};
use kem_trait::Kem;
use sender_ratchet::{ChainKey, MessageKey, TextChain};
use std::alloc::Global;
use std::marker::Model;
use std::mem::replace;
use two_party::{Pairing, PartDraw};

/// The ratchet and the text chain of a place, where they are known, and its pairing, which the own place lacks. The
/// keys can't be dropped, and so the row can't: `retire` takes it.
pub(crate) struct PlaceRow<K: Kem> {
    ratchet: Option<ChainKey>,
    chain: Option<TextChain>,
    pairing: Option<Pairing<K>>,
}

impl<K: Kem> Model for PlaceRow<K> {
    ghost use Rattle.secret_book.specs.HeldBooks.{PlaceState};

    ghost Value = { PlaceState };

    ghost view = { λ row. record { ratchet = row.ratchet; chain = row.chain; pairing = row.pairing } };
}

impl<K: Kem> PlaceRow<K> {
    /// A place that is met: its ratchet is the empty one.
    #[tactic(auto, unfolding(group_model::specs::KeyTerms::empty_ratchet))]
    pub(crate) fn new(pairing: Option<Pairing<K>>) -> PlaceRow<K>
        ensures { result ≡ fresh_place pairing }
    {
        PlaceRow {
            ratchet: Some(ChainKey::from_bytes([0; 32])),
            chain: None,
            pairing,
        }
    }

    /// The bytes of the ratchet, where it is known.
    pub(crate) fn ratchet(&self) -> Option<[u8; 32]>
        ensures { result ≡ self.now.ratchet }
    {
        match &self.ratchet {
            Some(ratchet) => Some(ratchet.bytes()),
            None => None,
        }
    }

    /// How many parts were sent to the place; none is the answer at the own one.
    pub(crate) fn sends(&self) -> Option<u32>
        ensures { result ≡ option_map (λ k. k.sends) self.now.pairing }
    {
        match &self.pairing {
            Some(pairing) => Some(pairing.sends()),
            None => None,
        }
    }

    fn set_ratchet(&mut self, ratchet: Option<ChainKey>)
        ensures { self.new ≡ record {
          ratchet = ratchet;
          chain = self.old.chain;
          pairing = self.old.pairing;
        } }
    {
        if let Some(old) = replace(&mut self.ratchet, ratchet) {
            old.retire();
        }
    }

    fn set_chain(&mut self, chain: Option<TextChain>)
        ensures { self.new ≡ record {
          ratchet = self.old.ratchet;
          chain = chain;
          pairing = self.old.pairing;
        } }
    {
        if let Some(old) = replace(&mut self.chain, chain) {
            old.retire();
        }
    }

    /// Takes the ratchet that was handed.
    pub(crate) fn hand(&mut self, ratchet: [u8; 32])
        ensures { self.new ≡ record {
          ratchet = Some ratchet;
          chain = self.old.chain;
          pairing = self.old.pairing;
        } }
    {
        self.set_ratchet(Some(ChainKey::from_bytes(ratchet)));
    }

    /// Steps the ratchet by an input, and starts the text chain anew; without an input both are forgotten. Answers the
    /// update secret, where input and ratchet are known.
    #[tactic(auto, unfolding(group_keys::specs::Primitives::primitives_of, group_model::specs::KeyTerms::first_chain))]
    pub(crate) fn step(&mut self, input: Option<&[u8]>) -> Option<[u8; 32]>
        ensures secret { result
            ≡ secret_by (primitives_of ⟦<K as Kem>⟧) (option_map (λ i. i.now) input.entry) self.old.ratchet }
        ensures row { self.new ≡ record {
          ratchet = ratchet_by (primitives_of ⟦<K as Kem>⟧) (option_map (λ i. i.now) input.entry) self.old.ratchet;
          chain = option_map (first_chain (primitives_of ⟦<K as Kem>⟧))
              (secret_by (primitives_of ⟦<K as Kem>⟧) (option_map (λ i. i.now) input.entry) self.old.ratchet);
          pairing = self.old.pairing;
        } }
    {
        let Some(input) = input else {
            self.set_ratchet(None);
            self.set_chain(None);
            return None;
        };
        let Some(ratchet) = self.ratchet.take() else {
            self.set_chain(None);
            return None;
        };
        let (secret, next) = ratchet.step(input);
        self.set_ratchet(Some(next));
        self.set_chain(Some(TextChain::start(&secret)));
        Some(secret)
    }

    /// The key of the next text, where the text chain is known.
    #[tactic(auto, unfolding(group_keys::specs::Primitives::primitives_of, group_model::specs::KeyTerms::next_chain, group_model::specs::KeyTerms::message_key))]
    pub(crate) fn text_key(&mut self) -> Option<MessageKey>
        ensures key { result ≡ text_key_of (primitives_of ⟦<K as Kem>⟧) self.old.chain }
        ensures row { self.new ≡ record {
          ratchet = self.old.ratchet;
          chain = option_map (next_chain (primitives_of ⟦<K as Kem>⟧)) self.old.chain;
          pairing = self.old.pairing;
        } }
    {
        let chain = self.chain.take()?;
        let (key, next) = chain.next();
        self.set_chain(Some(next));
        Some(key)
    }

    /// The next part to the place.
    pub(crate) fn seal(
        &mut self,
        alloc: Global,
        payload: &[u8; 32],
        draw: PartDraw<K>,
    ) -> Result<Bytes, Memory>
        requires pairing { IsSome self.old.pairing }
        requires few { IfSome self.old.pairing (λ k. k.sends < 2 ^ 32 - 1) }
        ensures part { IfOk result (λ bytes. option_and_then (part_from ⟦<K as Kem>⟧ draw payload.now) self.old.pairing
            ≡ Some bytes) }
        ensures row { IfOk result (λ bytes. self.new ≡ record {
          ratchet = self.old.ratchet;
          chain = self.old.chain;
          pairing = option_map (λ k. after_send k draw) self.old.pairing;
        }) }
        ensures number { IfOk result (λ bytes. IfSome self.old.pairing (λ k. k.target.number < 2 ^ 32)) }
        ensures unchanged { OnErr result (self.new ≡ self.old) }
    {
        match &mut self.pairing {
            Some(pairing) => pairing.send(alloc, payload, draw),
            None => unreachable!(),
        }
    }

    /// Takes a part of the place.
    pub(crate) fn open(&mut self, alloc: Global, part: &[u8]) -> Result<Option<[u8; 32]>, Memory>
        requires { IsSome self.old.pairing }
        ensures answer { IfOk result (λ answer. answer
            ≡ option_and_then (payload_from ⟦<K as Kem>⟧ part.now) self.old.pairing) }
        ensures row { IfOk result (λ answer. self.new ≡ record {
          ratchet = self.old.ratchet;
          chain = self.old.chain;
          pairing = option_map (λ k. after_part ⟦<K as Kem>⟧ k part.now) self.old.pairing;
        }) }
        ensures unchanged { OnErr result (self.new ≡ self.old) }
    {
        match &mut self.pairing {
            Some(pairing) => pairing.receive(alloc, part),
            None => unreachable!(),
        }
    }

    /// Gives the keys up.
    pub(crate) fn retire(self) {
        let PlaceRow {
            ratchet,
            chain,
            pairing: _,
        } = self;
        if let Some(ratchet) = ratchet {
            ratchet.retire();
        }
        if let Some(chain) = chain {
            chain.retire();
        }
    }
}
