//! One side of a pair of members.

ghost use Rattle.std.specs.Prelude.{◌≡◌, ◌<◌, ◌≤◌, ◌+◌, ◌-◌, ◌^◌, drop, length, true, Some, IfOk, IsErr, option_map};
ghost use Rattle.group_parts.specs.Parts.{part_bytes, part_len};
ghost use Rattle.group_keys.specs.Primitives.{primitives_of};
ghost use Rattle.member_book.specs.PairStates.{PairState, at_start, after_send, next_part, own_at, brought_if};
ghost use Rattle.member_book.specs.PairStates.{opens_to, drops, after_open};
ghost use Rattle.two_party.specs.Received.{received, after_part, payload_of};

use crate::draws::PartDraw;
use crate::own_key::OwnKey;
use crate::reading::{Opened, four_at, is_part, open_by, tail};
use crate::writing::{encapsulate, part_len, write_sealed, write_target};
use group_fields::{Bytes, Memory};
use kem_trait::Kem;
use std::alloc::Global;
use std::marker::Model;

/// A pair that an opened part brought, and that part's number.
#[derive(Drop)]
struct BroughtPair<K: Kem> {
    number: u32,
    pair: K::Pair,
}

/// One side of a pair of members: which key the next part is sealed to, the own keys that are not dropped, the pair
/// that the last opened part brought, and how many parts were sent. Contracts see the state of a pairing, with the
/// secret key in place of that pair.
#[derive(Drop)]
pub struct Pairing<K: Kem> {
    made_by_sender: bool,
    number: u32,
    public: Vec<u8>,
    pub(crate) own: Vec<OwnKey<K>>,
    last: Option<BroughtPair<K>>,
    sends: u32,
}

impl<K: Kem> Model for Pairing<K> {
    ghost use Rattle.std.specs.Prelude.{◌≡◌, ◌≤◌, ◌+◌, ◌-◌, length, true, option_map};
    ghost use Rattle.member_book.specs.PairStates.{PairState};

    ghost Value = { PairState };

    ghost view = { λ p. record {
      target = record { made_by_sender = p.made_by_sender; number = p.number; public = p.public.items };
      below = p.sends + 1 - length p.own.items;
      own = p.own.items;
      last = option_map (λ b. record { number = b.number; secret = K.secret_key b.pair }) p.last;
      sends = p.sends;
    } };

    ghost invariant = { λ p. (K.is_public p.public.items ≡ true) × (length p.own.items ≤ p.sends + 1) };
}

impl<K: Kem> Pairing<K> {
    /// Before anything is sent or opened: this side's pair, number 0 of its own, and the public key on the other's
    /// card.
    ///
    /// `Memory` where an allocation was refused.
    #[tactic(auto, unfolding(member_book::specs::PairStates::at_start))]
    pub fn start(alloc: Global, mine: &K::Pair, public: &[u8]) -> Result<Pairing<K>, Memory>
        requires { K.is_public public.now ≡ true }
        ensures { IfOk result (λ pairing. pairing ≡ at_start (K.secret_key mine.now) public.now) }
    {
        let mut own = Vec::new(alloc);
        own.push(OwnKey::new(alloc, mine)?)?;
        let mut kept = Vec::new(alloc);
        kept.extend_from_slice(public)?;
        Ok(Pairing {
            made_by_sender: false,
            number: 0,
            public: kept,
            own,
            last: None,
            sends: 0,
        })
    }

    /// How many parts were sent.
    pub fn sends(&self) -> u32
        ensures { result ≡ self.now.sends }
    {
        self.sends
    }

    /// Writes the next part.
    fn write_next(&self, payload: &[u8; 32], draw: &PartDraw<K>, into: &mut [u8])
        requires few { self.now.sends < 2 ^ 32 - 1 }
        requires room { length into.old ≡ part_len ⟦<K as Kem>⟧ }
        ensures { option_map (part_bytes ⟦<K as Kem>⟧)
            (next_part (primitives_of ⟦<K as Kem>⟧) self.now draw.now payload.now) ≡ Some into.new }
    {
        let (target, rest) = into.split_at_mut(5);
        let (ciphertext, sealed) = rest.split_at_mut(K::CIPHER_LEN);
        write_target(self.made_by_sender, self.number, target);
        let key = encapsulate::<K>(self.public.as_slice(), &draw.encapsulation, ciphertext);
        write_sealed::<K>(
            &key,
            payload,
            &draw.other,
            self.sends + 1,
            &draw.own,
            sealed,
        );
    }

    /// The own key of a number, where it is kept.
    fn own_key(&self, number: u32) -> Option<&OwnKey<K>>
        ensures { option_map (λ key. key.now) result ≡ own_at self.now.below self.now.own number }
    {
        let below = self.sends as u64 + 1 - self.own.len() as u64;
        if (number as u64) < below {
            return None;
        }
        self.own.get((number as u64 - below) as usize)
    }

    /// The key that the last opened part brought, where that part has the number.
    fn last_key(&self, number: u32) -> Option<&K::Pair>
        ensures { option_map (λ pair. K.secret_key pair.now) result ≡ brought_if self.now.last number }
    {
        match &self.last {
            Some(brought) if brought.number == number => Some(&brought.pair),
            _ => None,
        }
    }

    /// The next part, with a payload: sealed to the newest key that is known of the other side. From then on the key
    /// that it makes for the other side is the newest, and the own key that it makes is kept.
    ///
    /// `Memory` where an allocation was refused; then the pairing is as before.
    pub fn send(
        &mut self,
        alloc: Global,
        payload: &[u8; 32],
        draw: PartDraw<K>,
    ) -> Result<Bytes, Memory>
        requires { self.old.sends < 2 ^ 32 - 1 }
        ensures part { IfOk result (λ bytes. option_map (part_bytes ⟦<K as Kem>⟧)
            (next_part (primitives_of ⟦<K as Kem>⟧) self.old draw payload.now) ≡ Some bytes) }
        ensures kept { IfOk result (λ bytes. self.new ≡ after_send self.old draw) }
        // The number of the key that it is sealed to is written whole.
        ensures number { IfOk result (λ bytes. self.old.target.number < 2 ^ 32) }
        ensures unchanged { IsErr result → self.new ≡ self.old }
    {
        let own = OwnKey::new(alloc, &draw.own)?;
        let mut part = vec![in alloc; 0; part_len::<K>()]?;
        self.write_next(payload, &draw, part.as_mut_slice());
        self.own.push(own)?;
        self.made_by_sender = true;
        self.number = self.sends + 1;
        K::public(&draw.other, self.public.as_mut_slice());
        self.sends += 1;
        Ok(Bytes::from(part))
    }

    /// What the part with these fields opens to.
    fn open_fields(
        &self,
        alloc: Global,
        made_by_sender: bool,
        number: u32,
        ciphertext: &[u8],
        sealed: &[u8],
    ) -> Result<Option<Opened<K>>, Memory>
        requires ciphertext { length ciphertext.now ≡ K.CIPHER_LEN }
        requires sealed { 32 ≤ length sealed.now }
        ensures { IfOk result (λ answer. answer ≡ opens_to (primitives_of ⟦<K as Kem>⟧) self.now (record {
          made_by_sender = made_by_sender;
          number = number;
          ciphertext = ciphertext.now;
          sealed = sealed.now;
        })) }
    {
        if made_by_sender {
            let Some(pair) = self.last_key(number) else {
                return Ok(None);
            };
            return open_by::<K>(alloc, pair, ciphertext, sealed);
        }
        let Some(key) = self.own_key(number) else {
            return Ok(None);
        };
        open_by::<K>(alloc, &key.pair(alloc)?, ciphertext, sealed)
    }

    /// Drops the first own keys.
    fn drop_own(&mut self, count: usize)
        requires { count ≤ length self.old.own }
        ensures { self.new ≡ record {
          target = self.old.target;
          below = self.old.below + count;
          own = drop count self.old.own;
          last = self.old.last;
          sends = self.old.sends;
        } }
    {
        self.own.drain(..count);
    }

    /// Keeps what an opened part brought, and answers its payload.
    fn keep_opened(&mut self, made_by_sender: bool, number: u32, opened: Opened<K>) -> [u8; 32]
        requires { drops made_by_sender number self.old.below ≤ length self.old.own }
        ensures kept { self.new ≡ after_open self.old made_by_sender number opened }
        ensures payload { result ≡ opened.payload }
    {
        let below = self.sends as u64 + 1 - self.own.len() as u64;
        if !made_by_sender && below <= number as u64 {
            self.drop_own((number as u64 + 1 - below) as usize);
        }
        let Opened {
            payload,
            pair,
            number,
            public,
        } = opened;
        self.made_by_sender = false;
        self.number = number;
        self.public = public;
        self.last = Some(BroughtPair { number, pair });
        payload
    }

    /// Takes a part that the other side sent, and answers its payload. From then on the public key in it is the newest
    /// of the other side, the pair in it opens parts that are sealed to it, and own keys up to the one that it was
    /// sealed to are dropped.
    ///
    /// `None` exactly where the bytes are no part, or the part opens to nothing: by a key that is not kept, with
    /// another tag, with a secret key of no tested pair, a number of 0 or a public key that is none. `Memory` where an
    /// allocation was refused. After both the pairing is as before.
    pub fn receive(&mut self, alloc: Global, part: &[u8]) -> Result<Option<[u8; 32]>, Memory>
        ensures answer { IfOk result (λ answer. answer
            ≡ option_map payload_of (received ⟦<K as Kem>⟧ self.old part.now)) }
        ensures kept { IfOk result (λ answer. self.new ≡ after_part ⟦<K as Kem>⟧ self.old part.now) }
        ensures unchanged { IsErr result → self.new ≡ self.old }
    {
        if !is_part::<K>(part) {
            return Ok(None);
        }
        let made_by_sender = part[0] == 1;
        let number = u32::from_be_bytes(four_at(part, 1));
        let ciphertext = &part[5..5 + K::CIPHER_LEN];
        let sealed = tail(part, 5 + K::CIPHER_LEN);
        let Some(opened) = self.open_fields(alloc, made_by_sender, number, ciphertext, sealed)?
        else {
            return Ok(None);
        };
        Ok(Some(self.keep_opened(made_by_sender, number, opened)))
    }
}
