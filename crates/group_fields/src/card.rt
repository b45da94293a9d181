ghost use Rattle.std.specs.Prelude.{◌≡◌, ◌↔◌, List, ℕ, IsTrue, IfOk};
ghost use Rattle.group_fields.specs.Cards.{HasSpelling, Spells, key_size, least_lms_type, spelling};
ghost use Rattle.group_fields.specs.declared.card.Card.{Card};

use crate::Memory;
use crate::bytes::Bytes;
use crate::ids::MemberId;
use crate::writers::{append_bytes, append_digest, append_known, append_u8};
use std::alloc::Global;

pub(crate) const TAG: u8 = 0x43;

pub(crate) const VERSION: u8 = 1;

// The one-time type of each LMS public key, and the greatest LMS type.
pub(crate) const ONE_TIME_TYPE: [u8; 4] = [0, 0, 0, 3];

pub(crate) const GREATEST_LMS_TYPE: u32 = 6;

/// What a member hands out about itself, by which others take it into a group.
#[derive(Debug, Drop)]
pub struct Card {
    /// The parameters that the member's keys are of: 1 or 2.
    pub set: u8,
    /// An LMS public key (RFC 8554, section 5.3).
    pub lms_public: [u8; 56],
    /// The only member that may take this one into a group. 32 zero bytes stand for nobody.
    pub inviter: MemberId,
    /// A public key of the key encapsulation: 1,158 bytes with set 1, 33 with set 2.
    pub kem_public: Bytes,
}

impl Card {
    /// Whether the card has a spelling, which `write_card` asks for.
    pub fn has_spelling(&self) -> bool
        ensures { IsTrue result ↔ HasSpelling self.now }
    {
        let [a, b, c, d, e, f, g, h, ..] = self.lms_public;
        let lms_type = u32::from_be_bytes([a, b, c, d]);
        (self.set == 1 || self.set == 2)
            && least_lms_type(self.set) <= lms_type
            && lms_type <= GREATEST_LMS_TYPE
            && u32::from_be_bytes([e, f, g, h]) == u32::from_be_bytes(ONE_TIME_TYPE)
            && self.kem_public.len() == key_size(self.set)
    }
}

// The least of the types that the LMS public key of a set may have.
pub(crate) fn least_lms_type(set: u8) -> u32
    ensures { result ≡ least_lms_type set }
{
    if set == 1 { 6 } else { 5 }
}

// The bytes of a public key of a set.
pub(crate) fn key_size(set: u8) -> usize
    ensures { result ≡ key_size set }
{
    if set == 1 { 1158 } else { 33 }
}

/// The one spelling of a card.
pub fn write_card(alloc: Global, card: &Card) -> Result<Bytes, Memory>
    requires { HasSpelling card.now }
    ensures spells { IfOk result (λ bytes. Spells card.now bytes) }
    ensures whole { IfOk result (λ bytes. bytes ≡ spelling card.now) }
{
    let mut bytes = Vec::new(alloc);
    append_known(&mut bytes, &[TAG])?;
    append_known(&mut bytes, &[VERSION])?;
    append_u8(&mut bytes, card.set)?;
    append_bytes(&mut bytes, &card.lms_public)?;
    append_digest(&mut bytes, card.inviter.0)?;
    append_bytes(&mut bytes, card.kem_public.as_slice())?;
    Ok(Bytes::from(bytes))
}

/// The law of spellings: bytes spell one card at most, a card has one spelling, and what bytes spell has one.
#[tactic(auto, using(crate::proofs::CardBytes::one_card, crate::proofs::CardBytes::one_card_spelling, crate::proofs::CardBytes::spelled_has))]
pub fn cards_are_spelled_once()
    ensures one_card { (bytes : List ℕ) (a b : Card) → Spells a bytes → Spells b bytes → a ≡ b }
    ensures one_spelling { (card : Card) (a b : List ℕ) → Spells card a → Spells card b → a ≡ b }
    ensures has_spelling { (card : Card) (bytes : List ℕ) → Spells card bytes → HasSpelling card }
{}
