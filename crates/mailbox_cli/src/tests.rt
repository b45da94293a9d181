ghost use Rattle.std.specs.Prelude.{◌≡◌, Bool, true, if◌then◌else◌, Option, Some, None, is_some, List, ℕ, length};
ghost use Rattle.std.specs.Prelude.{replicate, refl, bytes_eq};
ghost use Rattle.std.specs.Option.{option_map, option_map_or};
ghost use Rattle.std.proofs.Common.{ap, sym, inr};
ghost use Rattle.std.proofs.lemmas.Slice.Eq.{bytes_eq-Decides};
ghost use Rattle.kem_trait.specs.Encapsulated.{Encapsulated};

use crate::run::run_with;
use crate::{Command, Ended, Refusal, read_command, run};
use disk_trait::{Disk, MemDisk};
use group_fields::{Bytes, Digest, MemberId, Memory, Text};
use kem_trait::{Kem, KemRefusal, Words};
use mail_trait::{MemEntropy, MemPost, MemSink, Post};
use member_identity::Identity;
use std::alloc::Global;
use std::test::Fail;

/// The words that spaces part.
fn words_of(alloc: Global, line: &str) -> Result<Vec<Text>, Fail> {
    let mut words = Vec::new(alloc);
    for word in line.split_whitespace() {
        words.push(Text::copy_of(alloc, word)?)?;
    }
    Ok(words)
}

/// A settled disk with this content, whose calls of these numbers fail.
fn disk_with(alloc: Global, bytes: &[u8], failing: &[u32]) -> Result<MemDisk, Fail> {
    let mut disk = MemDisk::new(alloc, failing)?;
    if bytes.len() > 0 {
        disk.write_at(0, bytes)?;
        disk.sync()?;
    }
    Ok(disk)
}

/// The numbers of the calls of each device that fail.
#[derive(Clone, Copy)]
struct Failing {
    disk: &'static [u32],
    post: &'static [u32],
    entropy: &'static [u32],
    output: &'static [u32],
}

const HONEST: Failing = Failing {
    disk: &[],
    post: &[],
    entropy: &[],
    output: &[],
};

/// How a run ended, what it wrote, and the devices after it.
#[derive(Drop)]
struct Seen {
    status: u8,
    line: Bytes,
    disk: MemDisk,
    post: MemPost,
    asked: u64,
}

/// A run of the words over a disk. The source has one seed, 32 times 7.
fn run_over(alloc: Global, line: &str, disk: MemDisk, failing: Failing) -> Result<Seen, Fail> {
    let words = words_of(alloc, line)?;
    let mut entropy = MemEntropy::new(alloc, &[[7; 32]], failing.entropy)?;
    let mut out = MemSink::new(alloc, failing.output)?;
    let mut post = MemPost::new(alloc, failing.post)?;
    let (disk, ended) = run(
        alloc,
        words.as_slice(),
        disk,
        &mut post,
        &mut entropy,
        &mut out,
    );
    let line = Bytes::copy_of(alloc, out.bytes())?;
    Ok(Seen {
        status: ended.status,
        line,
        disk,
        post,
        asked: entropy.asked(),
    })
}

const INIT_ID: &str = "init 1f1f1f1f1f1f1f1f1f1f1f1f1f1f1f1f1f1f1f1f1f1f1f1f1f1f1f1f1f1f1f1f";

#[test]
fn reads_the_words(rt: HostRuntime) -> Result<(), Fail> {
    let id = Some(Command::Init(Some(MemberId(Digest([0x1f; 32])))));
    let nobody = Some(Command::Init(None));
    let cases = [
        ("", None),
        ("init", nobody),
        ("Init", None),
        ("init --", nobody),
        ("init -- --", None),
        ("init -x", None),
        ("init 00", None),
        (INIT_ID, id),
        (
            "init -- 1f1f1f1f1f1f1f1f1f1f1f1f1f1f1f1f1f1f1f1f1f1f1f1f1f1f1f1f1f1f1f1f",
            id,
        ),
        (
            "init 1F1f1f1f1f1f1f1f1f1f1f1f1f1f1f1f1f1f1f1f1f1f1f1f1f1f1f1f1f1f1f1f",
            None,
        ),
        (
            "init 1f1f1f1f1f1f1f1f1f1f1f1f1f1f1f1f1f1f1f1f1f1f1f1f1f1f1f1f1f1f1f1f 00",
            None,
        ),
        ("card", Some(Command::Card)),
        ("card --", Some(Command::Card)),
        ("card -- x", None),
        ("card -x", None),
        ("show", None),
    ];
    for (line, want) in cases {
        let words = words_of(rt.alloc(), line)?;
        assert_eq!(rt; read_command(words.as_slice()), want, "{line}");
    }
    Ok(())
}

/// The id of the card of a member without inviter whose random bytes are 32 times 7.
const CARD_ID: &str = "77195ebece4c8a96eb0a442fc7a7fab0d3fa5e9b3724fbed34f572c5662d0eb9";

const CARD_LINE: &str = "card 77195ebece4c8a96eb0a442fc7a7fab0d3fa5e9b3724fbed34f572c5662d0eb9\n";

/// A run: its words, the calls that fail, and the bytes before. Then the status, the output, the bytes after, and how
/// often the source was asked.
#[derive(Clone, Copy)]
struct Case {
    words: &'static str,
    failing: Failing,
    bytes: &'static [u8],
    status: u8,
    output: &'static str,
    left: &'static [u8],
    asked: u64,
}

const NO_POST: Failing = Failing {
    disk: &[],
    post: &[1],
    entropy: &[],
    output: &[],
};

const NO_ENTROPY: Failing = Failing {
    disk: &[],
    post: &[],
    entropy: &[1],
    output: &[],
};

const NO_OUTPUT: Failing = Failing {
    disk: &[],
    post: &[],
    entropy: &[],
    output: &[1],
};

const EMPTY: &[u8] = b"";

/// At most nine bytes are an empty journal, whatever they are.
const SHORT: &[u8] = b"\xff\xff\xff\xff\xff\xff\xff\xff\xff";

const SHUT: &[u8] = b"DCGKAJ1\n\0";

const OTHER: &[u8] = b"\xff\xff\xff\xff\xff\xff\xff\xff\xff\xff\xff\xff";

const WRONG: &[u8] = b"DCGKAJ1\n\x01\0\0\0\x01c\0";

/// A member without inviter.
const MADE: &[u8] =
    b"DCGKAJ1\n\x01\0\0\0\x43\x01\x01\x0a\0\0\0\0\0\0\0\0\0\0\0\0\0\0\0\0\0\0\0\0\0\0\0\0\0\0\0\0\0\0\0\0\x07\x07\x07\x07\x07\x07\x07\x07\x07\x07\x07\x07\x07\x07\x07\x07\x07\x07\x07\x07\x07\x07\x07\x07\x07\x07\x07\x07\x07\x07\x07\x07\0";

/// A member with an inviter.
const INVITED: &[u8] =
    b"DCGKAJ1\n\x01\0\0\0\x43\x01\x01\x0a\x1f\x1f\x1f\x1f\x1f\x1f\x1f\x1f\x1f\x1f\x1f\x1f\x1f\x1f\x1f\x1f\x1f\x1f\x1f\x1f\x1f\x1f\x1f\x1f\x1f\x1f\x1f\x1f\x1f\x1f\x1f\x1f\x07\x07\x07\x07\x07\x07\x07\x07\x07\x07\x07\x07\x07\x07\x07\x07\x07\x07\x07\x07\x07\x07\x07\x07\x07\x07\x07\x07\x07\x07\x07\x07\0";

/// A member, and a second record.
const SECOND: &[u8] =
    b"DCGKAJ1\n\x01\0\0\0\x43\x01\x01\x0a\0\0\0\0\0\0\0\0\0\0\0\0\0\0\0\0\0\0\0\0\0\0\0\0\0\0\0\0\0\0\0\0\x07\x07\x07\x07\x07\x07\x07\x07\x07\x07\x07\x07\x07\x07\x07\x07\x07\x07\x07\x07\x07\x07\x07\x07\x07\x07\x07\x07\x07\x07\x07\x07\x01\0\0\0\x01c\0";

const CASES: [Case; 17] = [
    Case {
        words: "init",
        failing: HONEST,
        bytes: EMPTY,
        status: 0,
        output: "made\n",
        left: MADE,
        asked: 1,
    },
    Case {
        words: "init",
        failing: HONEST,
        bytes: SHORT,
        status: 0,
        output: "made\n",
        left: MADE,
        asked: 1,
    },
    Case {
        words: "init",
        failing: HONEST,
        bytes: SHUT,
        status: 0,
        output: "made\n",
        left: MADE,
        asked: 1,
    },
    Case {
        words: INIT_ID,
        failing: HONEST,
        bytes: EMPTY,
        status: 0,
        output: "made\n",
        left: INVITED,
        asked: 1,
    },
    Case {
        words: "init",
        failing: HONEST,
        bytes: MADE,
        status: 3,
        output: "refused already-made\n",
        left: MADE,
        asked: 0,
    },
    Case {
        words: "init",
        failing: HONEST,
        bytes: OTHER,
        status: 8,
        output: "not a journal 0\n",
        left: OTHER,
        asked: 0,
    },
    Case {
        words: "init",
        failing: HONEST,
        bytes: WRONG,
        status: 8,
        output: "not a journal 9\n",
        left: WRONG,
        asked: 0,
    },
    Case {
        words: "init",
        failing: HONEST,
        bytes: SECOND,
        status: 8,
        output: "not a journal 81\n",
        left: SECOND,
        asked: 0,
    },
    Case {
        words: "card",
        failing: HONEST,
        bytes: MADE,
        status: 0,
        output: CARD_LINE,
        left: MADE,
        asked: 0,
    },
    Case {
        words: "card",
        failing: HONEST,
        bytes: EMPTY,
        status: 3,
        output: "refused not-made\n",
        left: EMPTY,
        asked: 0,
    },
    Case {
        words: "card",
        failing: HONEST,
        bytes: OTHER,
        status: 8,
        output: "not a journal 0\n",
        left: OTHER,
        asked: 0,
    },
    Case {
        words: "send",
        failing: HONEST,
        bytes: MADE,
        status: 2,
        output: "refused words\n",
        left: MADE,
        asked: 0,
    },
    Case {
        words: "",
        failing: HONEST,
        bytes: EMPTY,
        status: 2,
        output: "refused words\n",
        left: EMPTY,
        asked: 0,
    },
    Case {
        words: "init",
        failing: NO_ENTROPY,
        bytes: EMPTY,
        status: 6,
        output: "",
        left: EMPTY,
        asked: 1,
    },
    Case {
        words: "init",
        failing: NO_OUTPUT,
        bytes: EMPTY,
        status: 7,
        output: "",
        left: MADE,
        asked: 1,
    },
    Case {
        words: "card",
        failing: NO_POST,
        bytes: MADE,
        status: 5,
        output: "",
        left: MADE,
        asked: 0,
    },
    Case {
        words: "card",
        failing: NO_OUTPUT,
        bytes: MADE,
        status: 7,
        output: "",
        left: MADE,
        asked: 0,
    },
];

/// Whether a run ends as its case says.
fn is_as_said(alloc: Global, case: Case) -> Result<bool, Fail> {
    let disk = disk_with(alloc, case.bytes, case.failing.disk)?;
    let seen = run_over(alloc, case.words, disk, case.failing)?;
    Ok(
        seen.status == case.status
            && seen.line.as_slice() == case.output.as_bytes()
            && seen.disk.bytes() == case.left
            && seen.asked == case.asked,
    )
}

#[test]
fn answers_by_words_bytes_and_devices(rt: HostRuntime) -> Result<(), Fail> {
    for (number, case) in CASES.iter().enumerate() {
        assert!(rt; is_as_said(rt.alloc(), *case)?, "case {number}");
    }
    Ok(())
}

/// The statuses of an `init` whose disk fails after so many calls, and of one on what a crash leaves of it, or 255
/// where that one leaves no member.
fn crashed(alloc: Global, honest: usize, image: u8) -> Result<(u8, u8), Fail> {
    let calls: [u32; 10] = [1, 2, 3, 4, 5, 6, 7, 8, 9, 10];
    let failing = calls.get(honest..).unwrap_or(&[]);
    let mut first = run_over(alloc, "init", MemDisk::new(alloc, failing)?, HONEST)?;
    if image <= 2 {
        first.disk.crash(image);
    }
    let left = disk_with(alloc, first.disk.bytes(), &[])?;
    let second = run_over(alloc, "init", left, HONEST)?;
    let status = if second.disk.bytes() == MADE {
        second.status
    } else {
        255
    };
    Ok((first.status, status))
}

#[test]
fn an_init_makes_ten_calls_of_the_disk(rt: HostRuntime) -> Result<(), Fail> {
    // calls that succeed, the image that a crash leaves (no pending write, all, all inverted), and the statuses
    let cases = [
        (0, 1, 4, 0),
        (5, 1, 4, 0),
        (8, 2, 4, 0),
        (9, 0, 4, 0),
        (9, 1, 4, 3),
        (9, 2, 4, 0),
        (10, 0, 0, 3),
    ];
    for (honest, image, status, after) in cases {
        assert_eq!(rt;
            crashed(rt.alloc(), honest, image)?,
            (status, after),
            "image {image} after {honest} calls"
        );
    }
    Ok(())
}

/// The bytes of the file of a name, or none.
fn file_of(alloc: Global, post: &mut MemPost, name: &str) -> Result<Bytes, Fail> {
    match post.read(name, 2000)? {
        Some(bytes) => Ok(bytes),
        None => Ok(Bytes::copy_of(alloc, b"")?),
    }
}

#[test]
fn puts_the_card_alone(rt: HostRuntime) -> Result<(), Fail> {
    let alloc = rt.alloc();
    let name = format!(in alloc; "{CARD_ID}.card")?;
    let disk = disk_with(alloc, MADE, &[])?;
    let mut seen = run_over(alloc, "card", disk, HONEST)?;
    assert_eq!(rt; seen.post.list()?.as_slice().len(), 1);
    assert_eq!(rt; seen.post.puts().len(), 1);
    assert_eq!(rt; file_of(alloc, &mut seen.post, name.as_str())?.len(), 1249);
    Ok(())
}

/// The one pair of the set.
#[derive(Drop)]
struct ZeroPair;

/// A set whose words never give a usable key, though there is a pair: its keys, its ciphertexts and its shared key are
/// zeros. It stands for the rare words of the others that give none.
struct Keyless;

impl Kem for Keyless {
    ghost SET = { 2 };

    ghost PUBLIC_LEN = { 33 };

    ghost SECRET_LEN = { 95 };

    ghost CIPHER_LEN = { 58 };

    const SET: u8 = 2;

    const PUBLIC_LEN: usize = 33;

    const SECRET_LEN: usize = 95;

    const CIPHER_LEN: usize = 58;

    type Pair = ZeroPair;

    ghost made = { λ words. None };

    ghost pair_words = { λ words. 0 };

    ghost is_secret = { λ secret. bytes_eq secret (replicate 95 0) };

    ghost public_in = { λ secret. replicate 33 0 };

    ghost is_public = { λ public. bytes_eq public (replicate 33 0) };

    ghost encapsulated = { λ public words. Some (record { cipher = replicate 58 0; key = replicate 32 0 }) };

    ghost cipher_words = { 0 };

    ghost decapsulated = { λ secret cipher. Some (replicate 32 0) };

    ghost secret_key = { λ pair. replicate 95 0 };

    ghost has_set_lengths = { inr (refl, refl, refl, refl) };

    ghost pairs_are_tested = { λ pair. refl };

    ghost made_is_tested = { λ words secret is.
        ap (λ (o : Option (List ℕ)). if is_some o then true else bytes_eq secret (replicate 95 0)) is };

    ghost public_is_public = { λ secret is. refl };

    ghost decapsulates = { λ secret words e is sealed. ap (option_map (λ (e : Encapsulated). e.key)) sealed };

    ghost secrets_have_length = { λ secret is. ap length ((bytes_eq-Decides secret (replicate 95 0)).0 is) };

    ghost publics_have_length = { λ public is. ap length ((bytes_eq-Decides public (replicate 33 0)).0 is) };

    ghost encapsulates = { λ public words is. refl };

    ghost ciphers_have_length = { λ public words e is. (
      sym (ap (λ (o : Option Encapsulated). option_map_or (λ (e : Encapsulated). length e.cipher) o 58) is),
      sym (ap (λ (o : Option Encapsulated). option_map_or (λ (e : Encapsulated). length e.key) o 32) is),
    ) };

    fn make<W: Words>(_alloc: Global, _words: &mut W) -> Result<ZeroPair, KemRefusal> {
        Err(KemRefusal::NoUsableKey)
    }

    fn pair_from_secret(_alloc: Global, secret: &[u8]) -> Result<Option<ZeroPair>, Memory> {
        if secret == [0; 95].as_slice() {
            return Ok(Some(ZeroPair));
        }
        Ok(None)
    }

    fn secret(_pair: &ZeroPair, into: &mut [u8]) {
        into.copy_from_slice(&[0; 95]);
    }

    fn public(_pair: &ZeroPair, into: &mut [u8]) {
        into.copy_from_slice(&[0; 33]);
    }

    fn public_ok(public: &[u8]) -> bool {
        public == [0; 33].as_slice()
    }

    fn encap<W: Words>(_public: &[u8], _words: &mut W, cipher: &mut [u8]) -> [u8; 32] {
        cipher.copy_from_slice(&[0; 58]);
        [0; 32]
    }

    fn decap(_pair: &ZeroPair, _cipher: &[u8]) -> Option<[u8; 32]> {
        Some([0; 32])
    }
}

/// The record of a member of this set, without inviter.
const KEYLESS: &[u8] =
    b"DCGKAJ1\n\x01\0\0\0\x43\x01\x02\x0a\0\0\0\0\0\0\0\0\0\0\0\0\0\0\0\0\0\0\0\0\0\0\0\0\0\0\0\0\0\0\0\0\x07\x07\x07\x07\x07\x07\x07\x07\x07\x07\x07\x07\x07\x07\x07\x07\x07\x07\x07\x07\x07\x07\x07\x07\x07\x07\x07\x07\x07\x07\x07\x07\0";

/// A run of `init` over a set without keys: how it ended, what it wrote, and the bytes of the disk.
fn run_keyless(alloc: Global, bytes: &[u8]) -> Result<(Ended, Bytes, Bytes), Fail> {
    let words = words_of(alloc, "init")?;
    let mut entropy = MemEntropy::new(alloc, &[[7; 32]], &[])?;
    let mut out = MemSink::honest(alloc);
    let mut post = MemPost::honest(alloc);
    let disk = disk_with(alloc, bytes, &[])?;
    let (disk, ended) = run_with::<Keyless, MemDisk, MemPost, MemEntropy, MemSink>(
        alloc,
        words.as_slice(),
        disk,
        &mut post,
        &mut entropy,
        &mut out,
    );
    Ok((
        ended,
        Bytes::copy_of(alloc, out.bytes())?,
        Bytes::copy_of(alloc, disk.bytes())?,
    ))
}

#[test]
fn says_that_there_is_no_usable_key(rt: HostRuntime) -> Result<(), Fail> {
    let alloc = rt.alloc();
    let member = Identity::<Keyless>::make(alloc, MemberId(Digest([0; 32])), &[7; 32]);
    assert!(rt; matches!(member, Err(KemRefusal::NoUsableKey)));
    let cases: [(&[u8], u8, Refusal, &str); 2] = [
        (EMPTY, 3, Refusal::NoUsableKey, "refused no-usable-key\n"),
        (KEYLESS, 8, Refusal::NotJournal(9), "not a journal 9\n"),
    ];
    for (bytes, status, refusal, want) in cases {
        let (ended, line, left) = run_keyless(alloc, bytes)?;
        assert_eq!(rt; ended.status, status);
        assert_eq!(rt; ended.refusal, Some(refusal));
        assert_eq!(rt; line.as_slice(), want.as_bytes());
        assert_eq!(rt; left.as_slice(), bytes);
    }
    Ok(())
}
