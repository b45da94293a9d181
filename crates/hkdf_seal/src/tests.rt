use super::*;
use std::test::Fail;

// RFC 4231, case 2, and RFC 5869, case A.1: the two published vectors.
#[test]
fn published_vectors(rt: HostRuntime) -> Result<(), Fail> {
    let tag = hmac(b"Jefe", b"what do ya want for nothing?");
    assert_eq!(rt;
        tag,
        [
            0x5b, 0xdc, 0xc1, 0x46, 0xbf, 0x60, 0x75, 0x4e, 0x6a, 0x04, 0x24, 0x26, 0x08, 0x95,
            0x75, 0xc7, 0x5a, 0x00, 0x3f, 0x08, 0x9d, 0x27, 0x39, 0x83, 0x9d, 0xec, 0x58, 0xb9,
            0x64, 0xec, 0x38, 0x43,
        ]
    );
    let salt = [0, 1, 2, 3, 4, 5, 6, 7, 8, 9, 10, 11, 12];
    let info = [0xf0, 0xf1, 0xf2, 0xf3, 0xf4, 0xf5, 0xf6, 0xf7, 0xf8, 0xf9];
    let prk = extract(&salt, &[0x0b; 22]);
    let mut okm = [0; 42];
    expand(&prk, &info, &mut okm);
    assert_eq!(rt;
        okm,
        [
            0x3c, 0xb2, 0x5f, 0x25, 0xfa, 0xac, 0xd5, 0x7a, 0x90, 0x43, 0x4f, 0x64, 0xd0, 0x36,
            0x2f, 0x2a, 0x2d, 0x2d, 0x0a, 0x90, 0xcf, 0x1a, 0x5a, 0x4c, 0x5d, 0xb0, 0x2d, 0x56,
            0xec, 0xc4, 0xc5, 0xbf, 0x34, 0x00, 0x72, 0x08, 0xd5, 0xb8, 0x87, 0x18, 0x58, 0x65,
        ]
    );
    Ok(())
}

// A text of eleven bytes, whose last word is cut, against an independent computation.
#[test]
fn seals_and_opens(rt: HostRuntime) -> Result<(), Fail> {
    let key = [7; 32];
    let mut text = *b"good mornin";
    let tag = seal(&key, &mut text);
    let body = [116, 29, 142, 21, 54, 139, 153, 255, 255, 45, 13];
    assert_eq!(rt; text, body);
    assert_eq!(rt;
        tag,
        [
            110, 199, 17, 59, 57, 196, 222, 83, 14, 64, 239, 35, 32, 50, 57, 194, 255, 140, 137,
            35, 50, 155, 225, 230, 192, 88, 107, 122, 241, 87, 53, 70,
        ]
    );
    assert_eq!(rt; open(&key, &mut text, &[0; 32]), None);
    assert_eq!(rt; text, body);
    assert_eq!(rt; open(&key, &mut text, &tag), Some(()));
    assert_eq!(rt; text, *b"good mornin");
    assert_eq!(rt;
        kdf(&key, b"member", &[9; 32]),
        [
            161, 238, 48, 98, 74, 94, 187, 163, 46, 27, 235, 137, 36, 204, 22, 64, 142, 222, 13,
            29, 240, 42, 112, 174, 247, 98, 189, 226, 183, 99, 253, 151,
        ]
    );
    Ok(())
}
