ghost use Rattle.std.specs.Prelude.{◌≡◌, ◌<◌, ◌≤◌, ◌+◌, ◌^◌, IfOk, IfErr, OnOk};
ghost use Rattle.group_fields.specs.CardViews.{card_of};
ghost use Rattle.group_fields.specs.Cards.{IsCardFault, Spells, card, card_id, card_of_sets, lms_public};
ghost use Rattle.group_fields.specs.LayoutReads.{Takes, read_whole, whole_seen};
ghost use Rattle.group_fields.specs.declared.card.Card.{Card};
ghost use Rattle.group_fields.specs.declared.fault.FieldFault.{FieldFault};

use crate::Memory;
use crate::bytes::Bytes;
use crate::card::{Card, GREATEST_LMS_TYPE, ONE_TIME_TYPE, TAG, VERSION, key_size, least_lms_type};
use crate::cursor::Cursor;
use crate::fault::FieldFault;
use crate::fields::{end, take_bytes, take_digest, take_known, take_u8, take_u32};
use crate::ids::{Digest, MemberId};
use sha2::{Digest as Hasher, Sha256};
use std::alloc::Global;
use std::marker::Model;

// The values of a card's fields.
#[derive(Debug, Drop)]
pub struct CardParts<'a> {
    set: u8,
    lms_public: &'a [u8; 56],
    inviter: MemberId,
    kem_public: &'a [u8],
}

/// A card that is lent out of the bytes that spell it. Contracts see the card.
#[derive(Debug, Drop)]
pub struct CardView<'a> {
    bytes: &'a [u8],
    parts: CardParts<'a>,
}

impl<'a> Model for CardView<'a> {
    ghost use Rattle.group_fields.specs.declared.card.Card.{Card};

    ghost Value = { Card };

    ghost use Rattle.group_fields.specs.CardViews.{card_of};
    ghost use Rattle.group_fields.specs.Cards.{Spells};

    ghost view = { λ card. card_of card.parts };

    ghost invariant = { λ card. Spells (card_of card.parts) card.bytes.now };
}

impl<'a> CardView<'a> {
    /// The bytes that were read.
    pub fn bytes(&self) -> &'a [u8]
        ensures { Spells self.now result.now }
    {
        self.bytes
    }

    /// The member that the card is of: SHA-256 of its bytes.
    #[tactic(auto, using(crate::proofs::CardBytes::id_is))]
    pub fn id(&self) -> MemberId
        ensures { result.0.0 ≡ card_id self.now }
    {
        MemberId(Digest(Sha256::digest(self.bytes)))
    }

    /// Which parameters the member's keys are of: 1 or 2.
    pub fn set(&self) -> u8
        ensures { result ≡ self.now.set }
    {
        self.parts.set
    }

    /// The LMS public key.
    pub fn lms_public(&self) -> &'a [u8; 56]
        ensures { result.now ≡ self.now.lms_public }
    {
        self.parts.lms_public
    }

    /// The only member that may take this one into a group. 32 zero bytes stand for nobody.
    pub fn inviter(&self) -> MemberId
        ensures { result ≡ self.now.inviter }
    {
        self.parts.inviter
    }

    /// The public key of the key encapsulation.
    pub fn kem_public(&self) -> &'a [u8]
        ensures { result.now ≡ self.now.kem_public }
    {
        self.parts.kem_public
    }

    // The card as a value of its own.
    pub(crate) fn to_card(&self, alloc: Global) -> Result<Card, Memory>
        ensures { IfOk result (λ card. card ≡ self.now) }
    {
        let kem_public = Bytes::copy_of(alloc, self.kem_public())?;
        Ok(Card {
            set: self.set(),
            lms_public: *self.lms_public(),
            inviter: self.inviter(),
            kem_public,
        })
    }
}

// The LMS public key of a set.
#[tactic(auto, using(crate::proofs::ReadSteps::since_is), unfolding(crate::specs::Cards::lms_public, crate::specs::LayoutReads::read))]
fn take_lms_public<'a>(cursor: &mut Cursor<'a>, set: u8) -> Result<&'a [u8; 56], FieldFault>
    requires { cursor.old.place < 2 ^ 31 }
    ensures takes { Takes (λ key. key.now) (lms_public set) cursor.old cursor.new result }
    ensures moved { OnOk result (cursor.new.place ≡ cursor.old.place + 56) }
{
    let from = cursor.place();
    take_u32(cursor, least_lms_type(set), GREATEST_LMS_TYPE)?;
    take_known(cursor, &ONE_TIME_TYPE)?;
    take_bytes(cursor, 16)?;
    take_bytes(cursor, 32)?;
    let _end = cursor.place();
    Ok(cursor.since(from).as_array().unwrap())
}

// The fields of a card of one of the sets from the least to the greatest.
#[tactic(auto, unfolding(crate::specs::Cards::card_of_sets, crate::specs::LayoutReads::read))]
fn take_parts<'a>(
    cursor: &mut Cursor<'a>,
    least: u8,
    greatest: u8,
) -> Result<CardParts<'a>, FieldFault>
    requires { cursor.old.place < 2 ^ 30 }
    ensures takes { Takes card_of (card_of_sets least greatest) cursor.old cursor.new result }
    ensures moved { OnOk result (cursor.new.place ≤ cursor.old.place + 1249) }
{
    take_known(cursor, &[TAG])?;
    take_known(cursor, &[VERSION])?;
    let set = take_u8(cursor, least, greatest)?;
    let lms_public = take_lms_public(cursor, set)?;
    let inviter = take_digest(cursor)?;
    let kem_public = take_bytes(cursor, key_size(set))?;
    Ok(CardParts {
        set,
        lms_public,
        inviter: MemberId(inviter),
        kem_public,
    })
}

/// Takes a card of one of the sets from the least to the greatest, which are 1 or 2. It lends its fields out of its bytes.
pub fn take_card<'a>(
    cursor: &mut Cursor<'a>,
    least: u8,
    greatest: u8,
) -> Result<CardView<'a>, FieldFault>
    requires place { cursor.old.place < 2 ^ 30 }
    requires least { 1 ≤ least }
    requires greatest { greatest ≤ 2 }
    ensures takes { Takes (λ card. card) (card_of_sets least greatest) cursor.old cursor.new result }
    ensures moved { OnOk result (cursor.new.place ≤ cursor.old.place + 1249) }
{
    let from = cursor.place();
    let parts = take_parts(cursor, least, greatest)?;
    let _end = cursor.place();
    Ok(CardView {
        bytes: cursor.since(from),
        parts,
    })
}

// A card, and nothing may be left over.
#[tactic(auto, using(crate::proofs::WholeReads::whole_end, crate::proofs::WholeReads::whole_stop))]
fn read_whole_card(bytes: &[u8]) -> Result<CardView<'_>, FieldFault>
    ensures { read_whole card 0 bytes.now ≡ whole_seen (λ card. card) result }
{
    let mut cursor = Cursor::new(bytes);
    let card = take_card(&mut cursor, 1, 2)?;
    end(&mut cursor)?;
    Ok(card)
}

/// The card that the bytes spell, all of them. It lends its fields out of them.
///
/// A fault is the one with the least place: `Short` the first field that does not fit, `Range` the first with a value
/// that is not allowed, `Excess` the first byte that is left over.
pub fn read_card(bytes: &[u8]) -> Result<CardView<'_>, FieldFault>
    // What is read is what the bytes spell.
    ensures found { IfOk result (λ card. Spells card bytes.now) }

    // Each card that they spell is read.
    ensures only { (card : Card) → Spells card bytes.now → result ≡ Ok card }

    // Bytes that spell no card have a least fault, which is the one that is answered.
    ensures refused { IfErr result (λ fault. IsCardFault bytes.now fault) }
    ensures least { (fault : FieldFault) → IsCardFault bytes.now fault → result ≡ Err fault }
{
    read_whole_card(bytes)
}
