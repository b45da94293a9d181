//! Values of another program, which has the definitions by plain loops and inverses by Euclid's algorithm.
use crate::Identity;
use group_fields::{Digest as Id, MemberId, MessageId, read_card};
use lms_sign::verify;
use ntru_prime::{Drill37, Sntrup761};
use sha2::{Digest, Sha256};
use std::alloc::Global;
use std::test::Fail;

const RANDOM: [u8; 32] = [7; 32];

/// A card of the smaller set at height 5: its front, the LMS public key, the inviter and the public key.
const CARD: &str = concat!(
    "430102",
    "0000000500000003484829a7d2d074a491a7d1fe254a4206e7bf9a9d978f324e9b2013bc21641c95a0f70241de803060dcb1a11f5bc1b3c2",
    "1f1f1f1f1f1f1f1f1f1f1f1f1f1f1f1f1f1f1f1f1f1f1f1f1f1f1f1f1f1f1f1f",
    "81e5ddc1303a3a2414e94adfdf071dad89a88eca6bc27f2d29027f65a3c09dd703",
);

/// The LMS public key of the same random bytes at height 10.
const HIGHER_KEY: &str =
    "0000000600000003484829a7d2d074a491a7d1fe254a4206e41a10cf4f666debf245d3924e87606a88c9876128657d4eda4580f2860a7474";

/// The digits of the smaller set's card at height 5, whose inviter has the id of 32 bytes of 1f.
fn small_card(alloc: Global) -> Result<String, Fail> {
    let member = Identity::<Drill37>::make(alloc, MemberId(Id([0x1f; 32])), &RANDOM)?;
    let card = member.card(alloc, 5)?;
    Ok(hex::encode(alloc, card.as_slice())?)
}

/// The digits of the LMS public key in the smaller set's card at height 10.
fn higher_key(alloc: Global) -> Result<String, Fail> {
    let member = Identity::<Drill37>::make(alloc, MemberId(Id([0; 32])), &RANDOM)?;
    let bytes = member.card(alloc, 10)?;
    let card = read_card(bytes.as_slice())?;
    Ok(hex::encode(alloc, card.lms_public().as_slice())?)
}

/// The digits of the larger set's id, that of a member without inviter.
fn large_id(alloc: Global) -> Result<String, Fail> {
    let member = Identity::<Sntrup761>::make(alloc, MemberId(Id([0; 32])), &RANDOM)?;
    let card = member.card(alloc, 10)?;
    Ok(hex::encode(alloc, Sha256::digest(card.as_slice()).as_slice())?)
}

/// The digits of the id of the smaller set's member at height 5 by its keys, and whether a signature with its last leaf is
/// good under the key in its card.
fn shown(alloc: Global) -> Result<(String, bool), Fail> {
    let member = Identity::<Drill37>::make(alloc, MemberId(Id([0x1f; 32])), &RANDOM)?;
    let keys = member.keys(alloc, 5)?;
    let mut signature = vec![in alloc; 0; 2348]?;
    keys.sign(
        keys.leaf(32, MessageId(Id([5; 32]))),
        signature.as_mut_slice(),
    );
    let good = verify(keys.card().lms_public(), &[5; 32], signature.as_slice());
    Ok((hex::encode(alloc, keys.id().0.0.as_slice())?, good))
}

/// The digits of SHA-256 of the bytes with these digits.
fn digest_of(alloc: Global, digits: &str) -> Result<String, Fail> {
    let bytes = hex::decode(alloc, digits)?;
    Ok(hex::encode(alloc, Sha256::digest(bytes.as_slice()).as_slice())?)
}

#[test]
fn keys_are_made_once(rt: HostRuntime) -> Result<(), Fail> {
    let (id, good) = shown(rt.alloc())?;
    let wanted = digest_of(rt.alloc(), CARD)?;
    assert_eq!(rt; id.as_str(), wanted.as_str());
    assert!(rt; good);
    Ok(())
}

#[test]
fn cards_are_those_of_another_program(rt: HostRuntime) -> Result<(), Fail> {
    let rows = [
        (small_card(rt.alloc())?, CARD),
        (higher_key(rt.alloc())?, HIGHER_KEY),
        (
            large_id(rt.alloc())?,
            "77195ebece4c8a96eb0a442fc7a7fab0d3fa5e9b3724fbed34f572c5662d0eb9",
        ),
    ];
    for (card, wanted) in rows.iter() {
        assert_eq!(rt; card.as_str(), *wanted);
    }
    Ok(())
}
