use crate::{
    DeviceEntropy, DirPost, Entropy, Listing, MailError, MemEntropy, MemPost, MemSink, OutSink,
    Post, Sink,
};
use group_fields::{Bytes, Memory, Text};
use std::alloc::{AllocError, Global};
use std::fs;
use std::io::ErrorKind;
use std::test::Fail;
use system_calls::{CallError, MemFiles, MemOutput, MemRandom, RealFiles, RealRandom, StoredFile};

const OTHER: CallError = CallError::Failed(ErrorKind::Other);

/// The rows as text, each as its name and its length.
fn shown(alloc: Global, listing: &Listing) -> Result<String, AllocError> {
    let mut text = String::new(alloc);
    for row in listing.as_slice() {
        let (name, length) = (row.name.as_str(), row.length);
        text.push_str(format!(in alloc; "{name}={length};")?.as_str())?;
    }
    Ok(text)
}

/// What a read found, or `-` where it found nothing.
fn found_or_dash(found: &Option<Bytes>) -> &[u8] {
    match found {
        Some(bytes) => bytes.as_slice(),
        None => b"-",
    }
}

/// Puts two files out of order, one of them twice.
fn fill_post<P: Post>(post: &mut P) -> Result<(), MailError> {
    post.put("b", b"old")?;
    post.put("a", b"first")?;
    post.put("b", b"second one")
}

/// What the folder of `fill_post` lists, and gives up to each limit.
fn told_by<P: Post>(alloc: Global, post: &mut P) -> Result<String, Fail> {
    let mut text = shown(alloc, &post.list()?)?;
    let reads = [
        ("a", 5),
        ("a", 0),
        ("b", 6),
        ("b", u32::MAX),
        ("c", 10),
        ("", 10),
    ];
    for (name, limit) in reads {
        let found = post.read(name, limit)?;
        text.push(' ')?;
        text.push_str(str::from_utf8(found_or_dash(&found))?)?;
    }
    Ok(text)
}

/// The names that were put, each with a `!` where the put failed.
fn puts_of(alloc: Global, post: &MemPost) -> Result<String, AllocError> {
    let mut text = String::new(alloc);
    for put in post.puts() {
        text.push_str(put.name.as_str())?;
        text.push(if put.is_whole { ' ' } else { '!' })?;
    }
    Ok(text)
}

fn mem_post(alloc: Global) -> Result<String, Fail> {
    let mut post = MemPost::honest(alloc);
    fill_post(&mut post)?;
    let told = told_by(alloc, &mut post)?;
    let puts = puts_of(alloc, &post)?;
    Ok(format!(in alloc; "{told}/{puts}")?)
}

/// Which of four calls fail.
fn failed_calls<P: Post>(alloc: Global, post: &mut P) -> Result<String, AllocError> {
    let put = post.put("a", b"x").is_err();
    let list = post.list().is_err();
    let read = post.read("a", 1).is_err();
    let again = post.put("b", b"y").is_err();
    format!(in alloc; "{put} {list} {read} {again} ")
}

fn listed<P: Post>(alloc: Global, post: &mut P) -> Result<String, Fail> {
    Ok(shown(alloc, &post.list()?)?)
}

/// Which calls fail of a folder, what was put then, and what is listed.
fn planned_post(alloc: Global, failing: &[u32]) -> Result<String, Fail> {
    let mut post = MemPost::new(alloc, failing)?;
    let mut text = failed_calls(alloc, &mut post)?;
    text.push_str(puts_of(alloc, &post)?.as_str())?;
    text.push_str(listed(alloc, &mut post)?.as_str())?;
    Ok(text)
}

/// Answers and first bytes of four calls of two seeds, of which the second call is to fail, and the count of calls.
fn seeds(alloc: Global) -> Result<String, Fail> {
    let mut source = MemEntropy::new(alloc, &[[1; 32], [2; 32]], &[2])?;
    let mut text = String::new(alloc);
    let mut seed = [0; 32];
    for _ in 0..4 {
        let answer = source.seed32(&mut seed).is_ok();
        let first = seed[0];
        text.push_str(format!(in alloc; "{answer} {first};")?.as_str())?;
    }
    let asked = source.asked();
    text.push_str(format!(in alloc; "{asked}")?.as_str())?;
    Ok(text)
}

fn sunk(alloc: Global) -> Result<String, Fail> {
    let mut sink = MemSink::new(alloc, &[2])?;
    for part in ["one ", "two ", "three", ""] {
        let _ = sink.write(part.as_bytes());
    }
    Ok(String::from_str(alloc, str::from_utf8(sink.bytes())?)?)
}

/// Puts a file that would survive a loss of power under a path.
fn place(
    files: &mut MemFiles,
    alloc: Global,
    path: &str,
    bytes: &str,
    is_plain: bool,
) -> Result<(), Memory> {
    let file = StoredFile {
        bytes: Bytes::copy_of(alloc, bytes.as_bytes())?,
        is_synced: true,
        is_named: true,
        is_plain,
        is_private: false,
    };
    files.place(path, file)
}

/// The bytes under a path, with a mark for each of bytes and name that would not survive a loss of power.
fn under(alloc: Global, files: &MemFiles, path: &str) -> Result<String, Fail> {
    let mut text = String::new(alloc);
    match files.file(path)? {
        None => text.push('-')?,
        Some(file) => {
            text.push_str(str::from_utf8(file.bytes.as_slice())?)?;
            text.push_str(if file.is_synced { "" } else { " unsynced" })?;
            text.push_str(if file.is_named { "" } else { " unnamed" })?;
        }
    }
    Ok(text)
}

/// The numbers of the calls that are to fail and their error, and how many bytes a call moves at most.
#[derive(Clone, Copy)]
struct Calls {
    failing: &'static [u32],
    error: CallError,
    most: usize,
}

fn folder_of(alloc: Global, calls: Calls) -> Result<DirPost<MemFiles>, Fail> {
    let mut files = MemFiles::new(alloc, calls.failing, calls.error, calls.most)?;
    for (path, bytes) in [
        ("mail/a", "old"),
        ("mail/b", "other"),
        ("mail/.unfinished-7", "half"),
    ] {
        place(&mut files, alloc, path, bytes, true)?;
    }
    place(&mut files, alloc, "mail/pipe", "", false)?;
    Ok(DirPost::new(alloc, files, Text::copy_of(alloc, "mail")?))
}

fn put_new<P: Post>(post: &mut P) -> Result<(), MailError> {
    post.put("a", b"new bytes")
}

/// What a put answers, the kind of its failure, and what its path and the first temporary path have then.
fn put_with(alloc: Global, calls: Calls) -> Result<String, Fail> {
    let mut post = folder_of(alloc, calls)?;
    let answer = put_new(&mut post);
    let reason = post.reason();
    let path = under(alloc, post.calls(), "mail/a")?;
    let left = under(alloc, post.calls(), "mail/.unfinished-0")?;
    Ok(format!(in alloc; "{answer:?} {reason:?} {path}/{left}")?)
}

/// What a listing and reads of a file, of nothing and of a pipe answer, with a mark for each that fails.
fn look<P: Post>(alloc: Global, post: &mut P) -> Result<String, Fail> {
    let mut text = match post.list() {
        Ok(listing) => shown(alloc, &listing)?,
        Err(_) => String::from_str(alloc, "!")?,
    };
    let reads = [
        ("b", 4),
        ("b", 99),
        ("none", 1),
        (".unfinished-7", 1),
        ("pipe", 1),
    ];
    for (name, limit) in reads {
        text.push(' ')?;
        match post.read(name, limit) {
            Ok(found) => text.push_str(str::from_utf8(found_or_dash(&found))?)?,
            Err(_) => text.push('!')?,
        }
    }
    Ok(text)
}

fn look_with(alloc: Global, calls: Calls) -> Result<String, Fail> {
    let mut post = folder_of(alloc, calls)?;
    look(alloc, &mut post)
}

fn draw<E: Entropy>(source: &mut E, seed: &mut [u8; 32]) -> Result<(), MailError> {
    source.seed32(seed)
}

/// What a draw of a seed answers, the kind of its failure, how often the device was opened, and whether the seed is the
/// device's first 32 bytes.
fn draw_with(alloc: Global, length: u8, calls: Calls) -> Result<String, Fail> {
    let bytes: Vec<u8> = (0..length).collect(alloc)?;
    let random = MemRandom::new(alloc, &bytes, calls.failing, calls.error, calls.most)?;
    let mut source = DeviceEntropy::new(random);
    let mut seed = [0; 32];
    let answer = draw(&mut source, &mut seed);
    let reason = source.reason();
    let opened = source.calls().openings();
    let is_first = bytes.get(..32) == Some(seed.as_slice());
    Ok(format!(in alloc; "{answer:?} {reason:?} {opened} {is_first}")?)
}

fn write_new<S: Sink>(sink: &mut S) -> Result<(), MailError> {
    sink.write(b"new bytes")
}

/// What a write of nine bytes answers, the kind of its failure, and what was written.
fn write_with(alloc: Global, calls: Calls) -> Result<String, Fail> {
    let mut sink = OutSink::new(MemOutput::new(alloc, calls.failing, calls.error, calls.most)?);
    let answer = write_new(&mut sink);
    let reason = sink.reason();
    let written = str::from_utf8(sink.calls().bytes())?;
    Ok(format!(in alloc; "{answer:?} {reason:?} {written}")?)
}

const FOLDER: &str = "dir_post_test";

/// Which calls of a folder fail: a listing, reads, and puts, some of which name no plain file.
fn refusals<P: Post>(alloc: Global, post: &mut P) -> Result<String, AllocError> {
    let list = post.list().is_err();
    let mut text = format!(in alloc; "{list}")?;
    for name in ["a", "sub"] {
        let read = post.read(name, 1).is_err();
        text.push_str(format!(in alloc; " {read}")?.as_str())?;
    }
    for name in ["a", "sub", "sub/x", ".unfinished-1"] {
        let put = post.put(name, b"").is_err();
        text.push_str(format!(in alloc; " {put}")?.as_str())?;
    }
    Ok(text)
}

fn post_over(rt: &HostRuntime) -> Result<DirPost<RealFiles<HostRuntime>>, Fail> {
    let folder = Text::copy_of(rt.alloc(), FOLDER)?;
    Ok(DirPost::new(rt.alloc(), RealFiles::new(rt.clone()?), folder))
}

/// What a folder that is not there answers; and then it is there, and has a folder and an unfinished file.
fn missing_folder(rt: &HostRuntime) -> Result<String, Fail> {
    let _ = fs::remove_dir_all(rt, FOLDER);
    let missing = refusals(rt.alloc(), &mut post_over(rt)?)?;
    fs::create_dir(rt, FOLDER)?;
    fs::create_dir(rt, "dir_post_test/sub")?;
    fs::write(rt, "dir_post_test/.unfinished-0", "half")?;
    Ok(missing)
}

/// What it answers after it was filled, and how many names it has.
fn filled_folder(rt: &HostRuntime) -> Result<String, Fail> {
    let mut post = post_over(rt)?;
    fill_post(&mut post)?;
    let told = told_by(rt.alloc(), &mut post)?;
    let refused = refusals(rt.alloc(), &mut post)?;
    let count = fs::read_dir(rt, FOLDER)?.count();
    Ok(format!(in rt.alloc(); "{told}/{refused}/{count}")?)
}

fn real_folder(rt: &HostRuntime) -> Result<String, Fail> {
    let missing = missing_folder(rt)?;
    let filled = filled_folder(rt)?;
    fs::remove_dir_all(rt, FOLDER)?;
    Ok(format!(in rt.alloc(); "{missing}/{filled}")?)
}

fn draws(rt: &HostRuntime) -> Result<bool, Fail> {
    let mut source = DeviceEntropy::new(RealRandom::new(rt.clone()?));
    let mut first = [0; 32];
    let mut second = [0; 32];
    draw(&mut source, &mut first)?;
    draw(&mut source, &mut second)?;
    Ok(first != [0; 32] && second != [0; 32] && first != second)
}

/// A device, and what is done with it.
#[derive(Clone, Copy, Debug)]
enum Device {
    /// Four calls of a folder in memory, and a listing.
    MemPost,
    /// A put over a file.
    Put,
    /// A listing and five reads.
    Look,
    /// A seed of a device that has so many bytes.
    Random(u8),
    /// A write of nine bytes.
    Output,
}

fn seen(alloc: Global, device: Device, calls: Calls) -> Result<String, Fail> {
    match device {
        Device::MemPost => planned_post(alloc, calls.failing),
        Device::Put => put_with(alloc, calls),
        Device::Look => look_with(alloc, calls),
        Device::Random(length) => draw_with(alloc, length, calls),
        Device::Output => write_with(alloc, calls),
    }
}

/// What is done, the calls that are to fail, their error, how many bytes a call moves at most, and what is seen.
type Case = (Device, &'static [u32], CallError, usize, &'static str);

const INTERRUPTED: CallError = CallError::Interrupted;

const PUT: &str = "Ok(()) None new bytes/-";

const NOT_PUT: &str = "Err(Failed) Some(Other) old/-";

const LOOKED: &str = "a=3;b=5; othe other - - !";

const NO_READ: &str = "a=3;b=5; ! other - - !";

const DRAWN: &str = "Ok(()) None 1 true";

const NOT_DRAWN: &str = "Err(Failed) Some(Other) 1 false";

// calls of a put: make, write, sync, rename, sync of the name; of a look: list, open, read, open, read, read, open,
// find the folder, open; of a draw: open, read
const CASES: [Case; 38] = [
    (
        Device::MemPost,
        &[1],
        OTHER,
        0,
        "true false false false a!b b=1;",
    ),
    (
        Device::MemPost,
        &[2],
        OTHER,
        0,
        "false true false false a b a=1;b=1;",
    ),
    (
        Device::MemPost,
        &[3],
        OTHER,
        0,
        "false false true false a b a=1;b=1;",
    ),
    (
        Device::MemPost,
        &[4],
        OTHER,
        0,
        "false false false true a b!a=1;",
    ),
    (Device::Put, &[1], OTHER, 99, NOT_PUT),
    (Device::Put, &[2], OTHER, 99, NOT_PUT),
    (Device::Put, &[3], OTHER, 99, NOT_PUT),
    (Device::Put, &[4], OTHER, 99, NOT_PUT),
    (
        Device::Put,
        &[5],
        OTHER,
        99,
        "Err(Failed) Some(Other) new bytes unnamed/-",
    ),
    (Device::Put, &[6], OTHER, 99, PUT),
    (Device::Put, &[1], CallError::Taken, 99, PUT),
    (Device::Put, &[2], INTERRUPTED, 99, PUT),
    (Device::Put, &[3], INTERRUPTED, 99, PUT),
    (Device::Put, &[4], INTERRUPTED, 2, PUT),
    (Device::Put, &[4], OTHER, 2, NOT_PUT),
    (
        Device::Put,
        &[2],
        CallError::Memory,
        99,
        "Err(Memory) Some(OutOfMemory) old/-",
    ),
    (
        Device::Put,
        &[4, 5],
        OTHER,
        99,
        "Err(Failed) Some(Other) old/new bytes unnamed",
    ),
    (Device::Look, &[1], OTHER, 99, "! othe other - - !"),
    (Device::Look, &[2], OTHER, 99, NO_READ),
    (Device::Look, &[3], OTHER, 99, NO_READ),
    (Device::Look, &[3], INTERRUPTED, 99, LOOKED),
    (Device::Look, &[4], OTHER, 1, NO_READ),
    (Device::Look, &[99], OTHER, 1, LOOKED),
    (Device::Look, &[99], OTHER, 99, LOOKED),
    (Device::Random(40), &[1], OTHER, 99, NOT_DRAWN),
    (Device::Random(40), &[2], OTHER, 99, NOT_DRAWN),
    (Device::Random(40), &[3], OTHER, 99, DRAWN),
    (Device::Random(40), &[3], OTHER, 31, NOT_DRAWN),
    (Device::Random(40), &[5], INTERRUPTED, 8, DRAWN),
    (Device::Random(32), &[9], OTHER, 1, NOT_DRAWN),
    (Device::Random(32), &[99], OTHER, 1, DRAWN),
    (
        Device::Random(31),
        &[99],
        OTHER,
        9,
        "Err(Failed) Some(UnexpectedEof) 1 false",
    ),
    (
        Device::Random(40),
        &[1],
        CallError::Memory,
        99,
        "Err(Memory) Some(OutOfMemory) 1 false",
    ),
    (Device::Output, &[1], OTHER, 99, "Err(Failed) Some(Other) "),
    (Device::Output, &[2], OTHER, 99, "Ok(()) None new bytes"),
    (
        Device::Output,
        &[2],
        OTHER,
        4,
        "Err(Failed) Some(Other) new ",
    ),
    (
        Device::Output,
        &[2],
        INTERRUPTED,
        4,
        "Ok(()) None new bytes",
    ),
    (
        Device::Output,
        &[1],
        CallError::Memory,
        99,
        "Err(Memory) Some(OutOfMemory) ",
    ),
];

#[test]
fn devices_answer_as_their_calls_do(rt: HostRuntime) -> Result<(), Fail> {
    for (device, failing, error, most, want) in CASES {
        let calls = Calls {
            failing,
            error,
            most,
        };
        let told = seen(rt.alloc(), device, calls)?;
        assert_eq!(rt; told.as_str(), want, "{device:?}, {error} at {failing:?}");
    }
    Ok(())
}

#[test]
fn devices_keep_what_they_are_given(rt: HostRuntime) -> Result<(), Fail> {
    let rows = [
        (
            mem_post(rt.alloc())?,
            "a=5;b=10; first  second second one - -/b a b ",
        ),
        (seeds(rt.alloc())?, "true 1;false 1;true 2;false 2;4"),
        (sunk(rt.alloc())?, "one three"),
        (
            real_folder(&rt)?,
            "true true true true true true true/a=5;b=10; first  second second one - -/false false true false true true true/4",
        ),
    ];
    for (told, want) in rows.iter() {
        assert_eq!(rt; told.as_str(), *want);
    }
    assert!(rt; draws(&rt)?);
    Ok(())
}
