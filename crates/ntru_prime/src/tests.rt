//! Values of another program, which has the definitions by plain loops and inverses by elimination. The calls stand in
//! small functions without clauses, and the values in tables.
use crate::{Drill37, Sntrup761, TestedPair};
use kem_trait::{Kem, KemRefusal, ListWords, SeedWords, Words};
use sha2::{Digest, Sha256};
use std::alloc::Global;
use std::test::Fail;

/// The secret key that 32 zero bytes give as `SeedWords`: f, the inverse of g, the public key, rho and its hash.
const SECRET: &str = concat!(
    "59515155445555651501",
    "10610429818242458201",
    "057e131693b3d4036098682857eb7d96e9b6dac0cc92070b0f7f32981f3d084f04",
    "16442b4783a0e984860c",
    "100c453effd392e6c8e0568ae442e8723153d163a6525acbd8176d1a66535d92",
);

/// A ciphertext of the words behind it.
const CIPHER: &str = concat!(
    "27be8bf550d16addbc9172d43a444bb9304edef9b5df40603301",
    "8c78af67d966f0f76b1340f072db19f4c77f81815ec718c88c12793ebed7a577",
);

/// The secret key that 32 bytes of 1 give.
const SECOND: &str = concat!(
    "19559555655595965501",
    "5109185008585a99aa02",
    "e603978bb94736712051456423837c3b894942efb1415bb487570f0d2234dbb005",
    "3b412128d7418d4e4e6e",
    "a1e2463ed7c6ba8e3cd849d8934f8678748127aa93788ec3d2dce2956f855502",
);

/// The secret key of g = -1, f = x^30 + .. + x^36 and a rho of zeros.
const LISTED: &str = concat!(
    "55555555555555a5aa02",
    "54555555555555555501",
    "91e77a283720fa71c20558f3f599a2e77a28d7ba5b365edb277d41a70c4f42db05",
    "00000000000000000000",
    "05df836a656df509c88ec8d2ebe454d464dcc6052978ab3f29718f97cc7a1ccd",
);

/// A word of coefficient 0.
const ZERO: u32 = 0x2000_0000;

/// A word of the draws of `draws`: that at a place of a draw.
fn word_of(draw: u32, place: u32, bad_g: u32, bad_f: u32) -> u32 {
    if draw < bad_g {
        // g = 0
        return ZERO;
    }
    if draw == bad_g {
        // g = -1
        return if place == 0 { 0 } else { ZERO };
    }
    if draw - bad_g <= bad_f {
        // f = 1 - x + x^2 - x^3 - x^4 - x^5 - x^6, which has the zero 41 modulo 127, as x^37 - x - 1 has
        let plus = if place == 0 || place == 2 { 2 } else { 0 };
        return place.wrapping_mul(4).wrapping_add(plus);
    }
    if draw - bad_g - 1 == bad_f && place < 7 {
        // f = x^30 + .. + x^36
        return 2;
    }
    0
}

/// The words of so many draws of g without an inverse and one with an inverse, of so many draws of f without and one
/// with an inverse, and zeros.
fn draws(bad_g: u32, bad_f: u32) -> [u32; 1300] {
    let mut words = [0; 1300];
    for i in 0..1300 {
        let at = i as u32;
        words[i] = word_of(at / 37, at % 37, bad_g, bad_f);
    }
    words
}

/// The digits of the secret key of a pair. The error is a public key that isn't the one in it.
fn secret_of(alloc: Global, pair: &TestedPair<37>) -> Result<String, Fail> {
    let mut secret = [0; 95];
    Drill37::secret(pair, &mut secret);
    let mut public = [0; 33];
    Drill37::public(pair, &mut public);
    if public.as_slice() != &secret[20..53] {
        return Err("another public key".into());
    }
    Ok(hex::encode(alloc, &secret)?)
}

/// The digits of the secret key of the pair that words give. Empty where they give none.
fn made<W: Words>(alloc: Global, words: &mut W) -> Result<String, Fail> {
    match Drill37::make(alloc, words) {
        Ok(pair) => secret_of(alloc, &pair),
        Err(KemRefusal::NoUsableKey) => Ok(String::new(alloc)),
        Err(KemRefusal::Memory) => Err("memory was wanting".into()),
    }
}

fn made_of_draws(alloc: Global, row: &DrawnPair) -> Result<String, Fail> {
    let words = draws(row.bad_g, row.bad_f);
    let mut source = ListWords::new(&words);
    made(alloc, &mut source)
}

/// How many draws of g and of f have no inverse, and the secret key, if there is one.
struct DrawnPair {
    bad_g: u32,
    bad_f: u32,
    secret: &'static str,
}

const DRAWN: [DrawnPair; 5] = [
    DrawnPair {
        bad_g: 1,
        bad_f: 0,
        secret: LISTED,
    },
    DrawnPair {
        bad_g: 15,
        bad_f: 15,
        secret: LISTED,
    },
    DrawnPair {
        bad_g: 16,
        bad_f: 0,
        secret: "",
    },
    DrawnPair {
        bad_g: 0,
        bad_f: 16,
        secret: "",
    },
    DrawnPair {
        bad_g: 15,
        bad_f: 16,
        secret: "",
    },
];

#[test]
fn pairs_of_words(rt: HostRuntime) -> Result<(), Fail> {
    for row in &DRAWN {
        let secret = made_of_draws(rt.alloc(), row)?;
        assert_eq!(rt;
            secret.as_str(),
            row.secret,
            "{} and {}",
            row.bad_g,
            row.bad_f
        );
    }
    Ok(())
}

/// The digits of the secret keys of the pairs of many sources. None where some words give none.
fn made_many<W: Words>(alloc: Global, sources: &mut [W]) -> Result<Option<Vec<String>>, Fail> {
    let pairs = match Drill37::make_many(alloc, sources) {
        Ok(pairs) => pairs.into_vec(),
        Err(KemRefusal::NoUsableKey) => return Ok(None),
        Err(KemRefusal::Memory) => return Err("memory was wanting".into()),
    };
    let mut secrets = Vec::new(alloc);
    for pair in pairs.iter() {
        secrets.push(secret_of(alloc, pair)?)?;
    }
    Ok(Some(secrets))
}

fn made_of_seeds(alloc: Global) -> Result<Option<Vec<String>>, Fail> {
    let mut seeds = [
        SeedWords::new(&[0; 32]),
        SeedWords::new(&[1; 32]),
        SeedWords::new(&[0; 32]),
    ];
    made_many(alloc, &mut seeds)
}

/// Where the second of three sources gives no pair.
fn made_of_lists(alloc: Global) -> Result<Option<Vec<String>>, Fail> {
    let usable = draws(0, 0);
    let none = draws(0, 16);
    let mut lists = [
        ListWords::new(&usable),
        ListWords::new(&none),
        ListWords::new(&usable),
    ];
    made_many(alloc, &mut lists)
}

#[test]
fn pairs_of_many_sources(rt: HostRuntime) -> Result<(), Fail> {
    let secrets = made_of_seeds(rt.alloc())?.ok_or("each gives a pair")?;
    assert_eq!(rt; secrets.len(), 3);
    for (secret, want) in secrets.iter().zip([SECRET, SECOND, SECRET].iter()) {
        assert_eq!(rt; secret.as_str(), *want);
    }
    assert!(rt; made_of_lists(rt.alloc())?.is_none());
    Ok(())
}

/// The pair of 32 zero bytes, a ciphertext of the words behind it, and its key.
fn sent(alloc: Global) -> Result<(TestedPair<37>, [u8; 58], [u8; 32]), Fail> {
    let mut words = SeedWords::new(&[0; 32]);
    let pair = Drill37::make(alloc, &mut words)?;
    let mut public = [0; 33];
    Drill37::public(&pair, &mut public);
    if !Drill37::public_ok(&public) {
        return Err("a public key".into());
    }
    let mut cipher = [0; 58];
    let key = Drill37::encap(&public, &mut words, &mut cipher);
    Ok((pair, cipher, key))
}

/// The digits of the ciphertext, and those of its key.
fn sent_digits(alloc: Global) -> Result<(String, String), Fail> {
    let (_, cipher, key) = sent(alloc)?;
    Ok((hex::encode(alloc, &cipher)?, hex::encode(alloc, &key)?))
}

fn found(pair: &TestedPair<37>, cipher: &[u8; 58]) -> Option<[u8; 32]> {
    Drill37::decap(pair, cipher)
}

/// The digits of the key that the owner finds in the ciphertext with these bits changed in the byte at a place. The
/// error is that it is none, or another one the second time.
fn found_in(alloc: Global, place: usize, bits: u8) -> Result<String, Fail> {
    let (pair, mut cipher, _) = sent(alloc)?;
    if let Some(byte) = cipher.get_mut(place) {
        *byte ^= bits;
    }
    let key = found(&pair, &cipher).ok_or("it is spelled")?;
    if found(&pair, &cipher) != Some(key) {
        return Err("another key".into());
    }
    Ok(hex::encode(alloc, &key)?)
}

/// A byte of the ciphertext, the bits that are changed in it, and the key that the owner finds.
struct Changed {
    place: usize,
    bits: u8,
    key: &'static str,
}

const KEY: &str = "d10b507dd52cb5c94368c37fc45913861153e0ca3fcdb432bcc6ab4167f761d2";

/// Unchanged, and with a changed bit in the polynomial and in the hash.
const CHANGED: [Changed; 7] = [
    Changed {
        place: 0,
        bits: 0,
        key: KEY,
    },
    Changed {
        place: 0,
        bits: 1,
        key: "63786a07702c2f8b4629d5385b72071920150b3bea5f2541ac9eee9e8fe6ff43",
    },
    Changed {
        place: 13,
        bits: 1,
        key: "728ec6e8051cbd4b8ee69049c9ae9d70fb4417c4e1b0e0c22bd7c77032088743",
    },
    Changed {
        place: 25,
        bits: 1,
        key: "e8325fd181f81bdccb2b5aa0a582daabc0c39dbb4ec72c2d874b8062879dda3a",
    },
    Changed {
        place: 26,
        bits: 1,
        key: "374830120299237cf4a37488ecaa8766d2cbb5efe7754f2e14fdfa7a60725e47",
    },
    Changed {
        place: 41,
        bits: 1,
        key: "51143050df29d3ad957231ceebcb2653ea9c8fa85557faa5f12f26789065977b",
    },
    Changed {
        place: 57,
        bits: 1,
        key: "fcef3d5145c89bf3eea2af405f78c1c0fdc5b69d369a84ad53b005c1d74bdcf2",
    },
];

#[test]
fn the_owner_finds_the_key(rt: HostRuntime) -> Result<(), Fail> {
    let (cipher, key) = sent_digits(rt.alloc())?;
    assert_eq!(rt; cipher.as_str(), CIPHER);
    assert_eq!(rt; key.as_str(), KEY);
    for row in &CHANGED {
        let key = found_in(rt.alloc(), row.place, row.bits)?;
        assert_eq!(rt; key.as_str(), row.key, "at {}", row.place);
    }
    Ok(())
}

/// Whether these digits are those of a public key.
fn is_public(digits: &str) -> Result<bool, Fail> {
    let mut public = [0; 33];
    hex::decode_to_slice(digits, &mut public)?;
    Ok(Drill37::public_ok(&public))
}

/// Whether these digits and a hash of zeros are a ciphertext.
fn is_cipher(alloc: Global, digits: &str) -> Result<bool, Fail> {
    let (pair, _, _) = sent(alloc)?;
    let mut cipher = [0; 58];
    hex::decode_to_slice(digits, &mut cipher[..26])?;
    Ok(found(&pair, &cipher).is_some())
}

#[test]
fn the_greatest_digits(rt: HostRuntime) -> Result<(), Fail> {
    // Each digit at its greatest, and one more in the last byte.
    assert!(rt; is_public("007e007e007e007e007e007e007e007e007e037e037e037e037e7de0e048731206")?);
    assert!(rt; !is_public("007e007e007e007e007e007e007e007e007e037e037e037e037e7de0e048731207")?);
    assert!(rt;
        is_cipher(
            rt.alloc(),
            "b0b0b0b0b0b0b0b0b0387f387f387f387f38830e830e0ffebc01"
        )?
    );
    assert!(rt;
        !is_cipher(
            rt.alloc(),
            "b0b0b0b0b0b0b0b0b0387f387f387f387f38830e830e0ffebc02"
        )?
    );
    Ok(())
}

/// Whether these digits are those of the secret key of a tested pair. The error is that its pair has another one.
fn is_read(alloc: Global, digits: &str) -> Result<bool, Fail> {
    let mut secret = [0; 95];
    hex::decode_to_slice(digits, &mut secret)?;
    match Drill37::pair_from_secret(alloc, &secret)? {
        None => Ok(false),
        Some(pair) => {
            let again = secret_of(alloc, &pair)?;
            if again.as_str() != digits {
                return Err("another secret key".into());
            }
            Ok(true)
        }
    }
}

/// A secret key, and whether it is that of a tested pair.
struct Secret {
    digits: &'static str,
    tested: bool,
}

const SECRETS: [Secret; 10] = [
    Secret {
        digits: SECRET,
        tested: true,
    },
    // Another f of the same weight, and another inverse.
    Secret {
        digits: concat!(
            "56515155445555651501",
            "10610429818242458201",
            "057e131693b3d4036098682857eb7d96e9b6dac0cc92070b0f7f32981f3d084f04",
            "16442b4783a0e984860c",
            "100c453effd392e6c8e0568ae442e8723153d163a6525acbd8176d1a66535d92",
        ),
        tested: false,
    },
    Secret {
        digits: concat!(
            "59515155445555651501",
            "11610429818242458201",
            "057e131693b3d4036098682857eb7d96e9b6dac0cc92070b0f7f32981f3d084f04",
            "16442b4783a0e984860c",
            "100c453effd392e6c8e0568ae442e8723153d163a6525acbd8176d1a66535d92",
        ),
        tested: false,
    },
    // An f of weight 6, and one of weight 8: all else is as it should be.
    Secret {
        digits: concat!(
            "aa5a5555555555555501",
            "54555555555555555501",
            "54002a002abf54002a002abf54002a002abf0bbdd6e120320bbdbe202023920803",
            "00000000000000000000",
            "f7179588aa85abeecdf1ec130f4a19b32b93eb28eaf0f86feba3daeca41cc043",
        ),
        tested: false,
    },
    Secret {
        digits: concat!(
            "aaaa5555555555555501",
            "54555555555555555501",
            "f468c4531269c4531269c4531269c453126975e475e475e475e41df6f6e80a7704",
            "00000000000000000000",
            "11fa9281c675812a73c2e2a77287f5593b178f5f9bc03ece4c5970180d45f1c8",
        ),
        tested: false,
    },
    // A byte that is no coefficients in f and in the inverse, and a public key that is none.
    Secret {
        digits: concat!(
            "ff515155445555651501",
            "10610429818242458201",
            "057e131693b3d4036098682857eb7d96e9b6dac0cc92070b0f7f32981f3d084f04",
            "16442b4783a0e984860c",
            "100c453effd392e6c8e0568ae442e8723153d163a6525acbd8176d1a66535d92",
        ),
        tested: false,
    },
    Secret {
        digits: concat!(
            "59515155445555651501",
            "ff610429818242458201",
            "057e131693b3d4036098682857eb7d96e9b6dac0cc92070b0f7f32981f3d084f04",
            "16442b4783a0e984860c",
            "100c453effd392e6c8e0568ae442e8723153d163a6525acbd8176d1a66535d92",
        ),
        tested: false,
    },
    Secret {
        digits: concat!(
            "59515155445555651501",
            "10610429818242458201",
            "007e007e007e007e007e007e007e007e007e037e037e037e037e7de0e048731207",
            "16442b4783a0e984860c",
            "100c453effd392e6c8e0568ae442e8723153d163a6525acbd8176d1a66535d92",
        ),
        tested: false,
    },
    // Another rho, and another hash of the public key.
    Secret {
        digits: concat!(
            "59515155445555651501",
            "10610429818242458201",
            "057e131693b3d4036098682857eb7d96e9b6dac0cc92070b0f7f32981f3d084f04",
            "17442b4783a0e984860c",
            "100c453effd392e6c8e0568ae442e8723153d163a6525acbd8176d1a66535d92",
        ),
        tested: true,
    },
    Secret {
        digits: concat!(
            "59515155445555651501",
            "10610429818242458201",
            "057e131693b3d4036098682857eb7d96e9b6dac0cc92070b0f7f32981f3d084f04",
            "16442b4783a0e984860c",
            "100c453effd392e6c8e0568ae442e8723153d163a6525acbd8176d1a66535d93",
        ),
        tested: false,
    },
];

#[test]
fn only_tested_pairs_are_read(rt: HostRuntime) -> Result<(), Fail> {
    for row in &SECRETS {
        assert_eq!(rt;
            is_read(rt.alloc(), row.digits)?,
            row.tested,
            "{}",
            row.digits
        );
    }
    Ok(())
}

/// What the larger set makes of 32 zero bytes: the secret key, a ciphertext of the words behind it, and its key.
fn large_sent(alloc: Global) -> Result<([u8; 1763], [u8; 1039], [u8; 32]), Fail> {
    let mut words = SeedWords::new(&[0; 32]);
    let pair = Sntrup761::make(alloc, &mut words)?;
    let mut secret = [0; 1763];
    Sntrup761::secret(&pair, &mut secret);
    let mut public = [0; 1158];
    Sntrup761::public(&pair, &mut public);
    if !Sntrup761::public_ok(&public) {
        return Err("a public key".into());
    }
    let mut cipher = [0; 1039];
    let key = Sntrup761::encap(&public, &mut words, &mut cipher);
    Ok((secret, cipher, key))
}

/// The digits of the key that the owner of a secret key finds.
fn large_found(alloc: Global, secret: &[u8; 1763], cipher: &[u8; 1039]) -> Result<String, Fail> {
    let pair = Sntrup761::pair_from_secret(alloc, secret)?.ok_or("it is tested")?;
    let key = Sntrup761::decap(&pair, cipher).ok_or("it is spelled")?;
    Ok(hex::encode(alloc, &key)?)
}

fn digest(alloc: Global, bytes: &[u8]) -> Result<String, Fail> {
    Ok(hex::encode(alloc, &Sha256::digest(bytes))?)
}

/// The digests of the secret key and of the ciphertext, its key, and the keys that its owner finds in it and where a bit
/// of its hash is changed.
fn large_values(alloc: Global) -> Result<[String; 5], Fail> {
    let (secret, mut cipher, key) = large_sent(alloc)?;
    let sent = digest(alloc, &cipher)?;
    let found = large_found(alloc, &secret, &cipher)?;
    cipher[1038] ^= 1;
    Ok([
        digest(alloc, &secret)?,
        sent,
        hex::encode(alloc, &key)?,
        found,
        large_found(alloc, &secret, &cipher)?,
    ])
}

const LARGE: [&str; 5] = [
    "0624f159ae7e906ebc8d827e97e4f554a97dfe262f4c9cbb38343377eea7de01",
    "2111f7b461dd32a9dda955b4de24e601416b5ac9b47d3086e1bf8122202c9014",
    "44b3f19020fbac473b1cfdb0c41fbc47d9d64d579ef3de013103ea6c8b2c3b79",
    "44b3f19020fbac473b1cfdb0c41fbc47d9d64d579ef3de013103ea6c8b2c3b79",
    "c87d96e5d95d9515fbf5aa4219185ec9b13cfb819df8fe5fd0516e31b8fcc430",
];

#[test]
fn the_larger_set(rt: HostRuntime) -> Result<(), Fail> {
    let values = large_values(rt.alloc())?;
    for (value, want) in values.iter().zip(LARGE.iter()) {
        assert_eq!(rt; value.as_str(), *want);
    }
    Ok(())
}
