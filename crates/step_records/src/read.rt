ghost use Rattle.std.specs.Prelude.{◌≡◌, ◌≢◌, ◌++◌, ◌∷◌, length, IfOk, IfSome, MatchOption};
ghost use Rattle.step_records.specs.Records.{IsNoRecord, IsRecordOf, Tells, step_of};

use crate::cards::read_cards;
use crate::fits::has_cards;
use crate::kinds::{ADD, CREATE, INIT, MOST_CARDS, PACKET, REMOVE, SEND, UPDATE};
use crate::recorded::{Recorded, StepRecord};
use group_fields::{Digest, MemberId, Memory, read_card};
use kem_trait::Kem;
use std::alloc::Global;

/// The step that bytes are the record of, for a member of the set of the key encapsulation, or `None` where they are no
/// step's. The card of an add, a text and a packet are lent out of the bytes; the cards of a create take memory, and
/// `Memory` says that it was refused.
pub fn read_record<K: Kem>(alloc: Global, bytes: &[u8]) -> Result<Option<StepRecord<'_>>, Memory>
    ensures { IfOk result (λ read. MatchOption read (IsNoRecord ⟦<K as Kem>⟧ bytes.now)
        (λ step. IsRecordOf ⟦<K as Kem>⟧ bytes.now (step_of step))) }
{
    let Some((kind, rest)) = bytes.split_first() else {
        return Ok(None);
    };
    if *kind == INIT {
        return Ok(read_init::<K>(rest));
    }
    let Some((random, rest)) = rest.split_first_chunk::<32>() else {
        return Ok(None);
    };
    read_kind::<K>(alloc, *kind, random, rest)
}

// Two strings of 32 bytes, where the bytes are as many.
fn split_ids(bytes: &[u8]) -> Option<(&[u8; 32], &[u8; 32])>
    ensures parts { MatchOption result (length bytes.now ≢ 64) (λ both. both.0.now ++ both.1.now ≡ bytes.now) }
    ensures sizes { IfSome result (λ both. (length both.0.now ≡ 32) × (length both.1.now ≡ 32)) }
{
    let (first, rest) = bytes.split_first_chunk::<32>()?;
    let second = rest.as_array::<32>()?;
    Some((first, second))
}

// The step of an `init`, from the bytes behind its kind.
fn read_init<K: Kem>(bytes: &[u8]) -> Option<StepRecord<'_>>
    ensures { Tells ⟦<K as Kem>⟧ (1 ∷ bytes.now) result }
{
    let (set, rest) = bytes.split_first()?;
    let (height, ids) = rest.split_first()?;
    let height = u32::from(*height);
    if *set != K::SET || !has_cards::<K>(height) {
        return None;
    }
    let (inviter, random) = split_ids(ids)?;
    Some(StepRecord {
        random: *random,
        input: Recorded::Init(MemberId(Digest(*inviter)), height),
    })
}

// The step of a create, from the bytes behind its random ones.
fn read_create<'a, K: Kem>(
    alloc: Global,
    random: &[u8; 32],
    bytes: &'a [u8],
) -> Result<Option<StepRecord<'a>>, Memory>
    ensures { IfOk result (λ read. Tells ⟦<K as Kem>⟧ (2 ∷ (random.now ++ bytes.now)) read) }
{
    let Some((count, rest)) = bytes.split_first() else {
        return Ok(None);
    };
    if *count > MOST_CARDS {
        return Ok(None);
    }
    let Some(cards) = read_cards(alloc, *count, rest)? else {
        return Ok(None);
    };
    Ok(Some(StepRecord {
        random: *random,
        input: Recorded::Create(cards),
    }))
}

// The step of an add.
fn read_add<'a, K: Kem>(random: &[u8; 32], bytes: &'a [u8]) -> Option<StepRecord<'a>>
    ensures { Tells ⟦<K as Kem>⟧ (3 ∷ (random.now ++ bytes.now)) result }
{
    let Ok(card) = read_card(bytes) else {
        return None;
    };
    Some(StepRecord {
        random: *random,
        input: Recorded::Add(card),
    })
}

// The step of a remove.
fn read_remove<'a, K: Kem>(random: &[u8; 32], bytes: &'a [u8]) -> Option<StepRecord<'a>>
    ensures { Tells ⟦<K as Kem>⟧ (4 ∷ (random.now ++ bytes.now)) result }
{
    let target = bytes.as_array::<32>()?;
    Some(StepRecord {
        random: *random,
        input: Recorded::Remove(MemberId(Digest(*target))),
    })
}

// The step of an update.
fn read_update<'a, K: Kem>(random: &[u8; 32], bytes: &'a [u8]) -> Option<StepRecord<'a>>
    ensures { Tells ⟦<K as Kem>⟧ (5 ∷ (random.now ++ bytes.now)) result }
{
    if !bytes.is_empty() {
        return None;
    }
    Some(StepRecord {
        random: *random,
        input: Recorded::Update,
    })
}

// The step of a text.
fn read_send<'a, K: Kem>(random: &[u8; 32], bytes: &'a [u8]) -> Option<StepRecord<'a>>
    ensures { Tells ⟦<K as Kem>⟧ (6 ∷ (random.now ++ bytes.now)) result }
{
    Some(StepRecord {
        random: *random,
        input: Recorded::Send(bytes),
    })
}

// The step of a packet.
fn read_packet<'a, K: Kem>(random: &[u8; 32], bytes: &'a [u8]) -> Option<StepRecord<'a>>
    ensures { Tells ⟦<K as Kem>⟧ (7 ∷ (random.now ++ bytes.now)) result }
{
    Some(StepRecord {
        random: *random,
        input: Recorded::Packet(bytes),
    })
}

// The step of another kind than an `init`, from the bytes behind its random ones.
fn read_kind<'a, K: Kem>(
    alloc: Global,
    kind: u8,
    random: &[u8; 32],
    bytes: &'a [u8],
) -> Result<Option<StepRecord<'a>>, Memory>
    requires { kind ≢ 1 }
    ensures { IfOk result (λ read. Tells ⟦<K as Kem>⟧ (kind ∷ (random.now ++ bytes.now)) read) }
{
    match kind {
        CREATE => read_create::<K>(alloc, random, bytes),
        ADD => Ok(read_add::<K>(random, bytes)),
        REMOVE => Ok(read_remove::<K>(random, bytes)),
        UPDATE => Ok(read_update::<K>(random, bytes)),
        SEND => Ok(read_send::<K>(random, bytes)),
        PACKET => Ok(read_packet::<K>(random, bytes)),
        _ => Ok(None),
    }
}
