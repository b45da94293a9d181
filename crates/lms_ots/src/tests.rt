use super::*;
use sha2::{Digest, Sha256};
use std::test::Fail;

const SEED: [u8; 32] = [9; 32];

const IDENTIFIER_BYTES: [u8; 16] = [0, 1, 2, 3, 4, 5, 6, 7, 8, 9, 10, 11, 12, 13, 14, 15];

// The key of leaf 5, and the digest of its signature, by an independent computation.
#[test]
fn signs_and_leads_back(rt: HostRuntime) -> Result<(), Fail> {
    let key = public_value(&IDENTIFIER_BYTES, 5, &SEED);
    assert_eq!(rt;
        key,
        [
            11, 246, 193, 93, 144, 105, 27, 163, 116, 101, 22, 215, 236, 27, 62, 95, 162, 170, 67,
            196, 218, 30, 95, 117, 59, 180, 31, 184, 34, 225, 140, 124,
        ]
    );
    let mut signature = [0; SIGNATURE];
    sign_once(&IDENTIFIER_BYTES, 5, &SEED, b"a message", &mut signature);
    assert_eq!(rt;
        Sha256::digest(signature.as_slice()),
        [
            157, 115, 94, 12, 148, 86, 246, 241, 235, 48, 81, 93, 151, 139, 204, 170, 164, 72, 223,
            95, 57, 59, 199, 37, 215, 8, 217, 203, 3, 62, 140, 125,
        ]
    );
    assert_eq!(rt;
        candidate(&IDENTIFIER_BYTES, 5, b"a message", &signature),
        Some(key)
    );
    assert!(rt; candidate(&IDENTIFIER_BYTES, 5, b"a massage", &signature) != Some(key));
    assert!(rt; candidate(&IDENTIFIER_BYTES, 6, b"a message", &signature) != Some(key));
    assert_eq!(rt;
        candidate(&IDENTIFIER_BYTES, 5, b"a message", &signature[1..]),
        None
    );
    signature[3] = 4;
    assert_eq!(rt;
        candidate(&IDENTIFIER_BYTES, 5, b"a message", &signature),
        None
    );
    Ok(())
}
