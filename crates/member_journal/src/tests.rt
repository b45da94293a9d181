use super::*;
use disk_trait::{Disk, DiskError, MemDisk};
use std::alloc::Global;
use std::process::Abort;
use std::test::Fail;

/// A settled disk with this content.
fn disk_with(alloc: Global, bytes: &[u8]) -> Result<MemDisk, DiskError> {
    let mut disk = MemDisk::honest(alloc);
    disk.write_at(0, bytes)?;
    disk.sync()?;
    Ok(disk)
}

/// Each record behind the place of its length field.
fn list(alloc: Global, journal: &mut Journal<MemDisk>) -> Result<String, JournalFault> {
    let mut text = String::new(alloc);
    for index in 0..journal.count() {
        if index < journal.count() {
            let place = journal.place(index);
            text.push_str(format!(in alloc; "{place}:")?.as_str())?;
            for byte in journal.read(index)?.as_slice() {
                text.push(char::from(*byte))?;
            }
            text.push(';')?;
        }
    }
    Ok(text)
}

/// What a journal with this content shows when it is opened: its records, or its fault.
fn shown(alloc: Global, bytes: &[u8]) -> Result<String, Fail> {
    match Journal::open(alloc, disk_with(alloc, bytes)?) {
        Ok(mut journal) => {
            let text = list(alloc, &mut journal);
            let _ = journal.close();
            Ok(text?)
        }
        Err((_, fault)) => Ok(format!(in alloc; "{fault}")?),
    }
}

/// The bytes of journals and what they show, one a line, with ^ for the line feed of the magic.
const JOURNALS: &str = concat!(
    "|\n",
    "~~~~~~~~~|\n",
    "DCGKAJ1^\0|\n",
    "DCGKAJ1^\x01\0\0\0\x02ab\0|9:ab;\n",
    "DCGKAJ1^\x01\0\0\0\x02ab\x01\0\0\0\x01c\0|9:ab;16:c;\n",
    // what stands behind a gate that is shut, or holds anything but 1
    "DCGKAJ1^\x01\0\0\0\x02ab\0~~~|9:ab;\n",
    "DCGKAJ1^\x02\0\0\0\x02ab\0|\n",
    // no magic; no length, half of one, the length 0, one past the end, and no gate behind the record
    "~~~~~~~~~~~~|the bytes are no journal at place 0\n",
    "DCGKAJ1^\x01\0\0|the bytes are no journal at place 9\n",
    "DCGKAJ1^\x01\0\0\0\0\0|the bytes are no journal at place 9\n",
    "DCGKAJ1^\x01\0\0\0\x04ab\0|the bytes are no journal at place 9\n",
    "DCGKAJ1^\x01\0\0\0\x03ab\0|the bytes are no journal at place 9\n",
    "DCGKAJ1^\x01\0\0\0\x02ab\x01|the bytes are no journal at place 16\n",
    "DCGKAJ1^\x01\0\0\0\x02ab\x01\0\0\0\0\0|the bytes are no journal at place 16\n",
);

fn check_journal(rt: &impl Abort, alloc: Global, line: &str) -> Result<(), Fail> {
    let (text, want) = line.split_once('|').ok_or("a line has two parts")?;
    let mut bytes = Vec::new(alloc);
    for byte in text.bytes() {
        bytes.push(if byte == b'^' { b'\n' } else { byte })?;
    }
    assert_eq!(rt; shown(alloc, bytes.as_slice())?.as_str(), want);
    Ok(())
}

fn check_journals(rt: &impl Abort, alloc: Global) -> Result<(), Fail> {
    for line in JOURNALS.lines() {
        check_journal(rt, alloc, line)?;
    }
    Ok(())
}

#[test]
fn reads_what_the_bytes_stand_for(rt: HostRuntime) -> Result<(), Fail> {
    check_journals(&rt, rt.alloc())
}

/// The numbers of all calls that opening an empty journal and adding two records makes.
const CALLS: [u32; 16] = [1, 2, 3, 4, 5, 6, 7, 8, 9, 10, 11, 12, 13, 14, 15, 16];

/// Adds a record.
fn add(
    rt: &impl Abort,
    journal: Journal<MemDisk>,
    record: &[u8],
) -> Result<Journal<MemDisk>, (MemDisk, JournalFault)> {
    let count = journal.count();
    assert!(rt; count < 16_384);
    let length = record.len();
    assert!(rt; 1 <= length && length <= 8_388_641);
    journal.append(record)
}

/// Opens an empty journal and adds two records, up to the first fault.
fn add_two(
    rt: &impl Abort,
    alloc: Global,
    disk: MemDisk,
) -> Result<MemDisk, (MemDisk, JournalFault)> {
    let journal = Journal::open(alloc, disk)?;
    let journal = add(rt, journal, b"ab")?;
    Ok(add(rt, journal, b"c")?.close())
}

/// The disk after the calls that succeed before all others fail, and after a crash.
fn crashed(rt: &impl Abort, alloc: Global, honest: usize, image: u8) -> Result<MemDisk, Fail> {
    let failing = CALLS.get(honest..).unwrap_or(&[]);
    let mut disk = match add_two(rt, alloc, MemDisk::new(alloc, failing)?) {
        Ok(disk) => {
            assert_eq!(rt; honest, CALLS.len());
            disk
        }
        Err((disk, fault)) => {
            assert_eq!(rt; fault, JournalFault::Disk);
            disk
        }
    };
    disk.crash(image.min(2));
    Ok(disk)
}

/// What a crash leaves after so many calls with no pending write, with all, and with all inverted.
fn left_after(rt: &impl Abort, alloc: Global, honest: usize) -> Result<String, Fail> {
    let none = shown(alloc, crashed(rt, alloc, honest, 0)?.bytes())?;
    let all = shown(alloc, crashed(rt, alloc, honest, 1)?.bytes())?;
    let inverted = shown(alloc, crashed(rt, alloc, honest, 2)?.bytes())?;
    Ok(format!(in alloc; "{none} {all} {inverted}")?)
}

fn check_left(rt: &impl Abort, alloc: Global, honest: usize) -> Result<(), Fail> {
    let want = match honest {
        0..=8 => "  ",
        9 => " 9:ab; ",
        10..=14 => "9:ab; 9:ab; 9:ab;",
        15 => "9:ab; 9:ab;16:c; 9:ab;",
        _ => "9:ab;16:c; 9:ab;16:c; 9:ab;16:c;",
    };
    let left = left_after(rt, alloc, honest)?;
    assert_eq!(rt; left.as_str(), want, "after {honest} calls");
    Ok(())
}

fn check_crashes(rt: &impl Abort, alloc: Global) -> Result<(), Fail> {
    for honest in 0..17 {
        check_left(rt, alloc, honest)?;
    }
    Ok(())
}

#[test]
fn a_crash_leaves_the_old_records_or_one_more(rt: HostRuntime) -> Result<(), Fail> {
    check_crashes(&rt, rt.alloc())
}

fn check_bytes(rt: &impl Abort, alloc: Global) -> Result<(), Fail> {
    let disk = crashed(rt, alloc, 16, 0)?;
    let want = b"DCGKAJ1\n\x01\0\0\0\x02ab\x01\0\0\0\x01c\0";
    assert_eq!(rt; disk.bytes(), want.as_slice());
    Ok(())
}

#[test]
fn writes_the_bytes_of_a_journal(rt: HostRuntime) -> Result<(), Fail> {
    check_bytes(&rt, rt.alloc())
}

/// How many records the large journal has, and how many bytes each of them has.
const MANY: u32 = 400;

const LONG: usize = 500;

/// A settled disk with a large journal, of 200,000 bytes, of which the call with this number fails.
fn large_disk(alloc: Global, failing: u32) -> Result<MemDisk, Fail> {
    let mut bytes = b"DCGKAJ1\n".as_slice().to_vec(alloc)?;
    for _ in 0..MANY {
        bytes.extend_from_slice(b"\x01\0\0\x01\xf4")?;
        bytes.extend_from_slice(&[b'a'; LONG])?;
    }
    bytes.push(0)?;
    let mut disk = MemDisk::new(alloc, &[failing])?;
    disk.write_at(0, bytes.as_slice())?;
    Ok(disk)
}

/// A disk that tells nothing, and notes which calls it has had. Its reads find no byte after so many calls.
#[derive(Drop)]
struct WatchedDisk {
    disk: MemDisk,
    honest: u64,
    calls: u64,
    /// How many bytes its reads asked for, all together.
    asked: u64,
}

impl WatchedDisk {
    fn new(disk: MemDisk, honest: u64) -> WatchedDisk {
        WatchedDisk {
            disk,
            honest,
            calls: 0,
            asked: 0,
        }
    }
}

impl Disk for WatchedDisk {
    ghost use Rattle.std.specs.Prelude.{[]};
    ghost use Rattle.disk_trait.specs.MemDisk.{counted};

    ghost told = { ⊥ };

    ghost content = { λ watched. [] };

    ghost image = { λ watched c. ⊥ };

    ghost clock = { λ watched. 0 };

    ghost image_since = { λ watched from c. ⊥ };

    ghost counts = { λ watched. counted watched.disk };

    ghost follows = { λ watched later. Unit {0} };

    ghost content_is_image = { λ watched told. told };

    ghost counts_now = { λ watched from c told early image. image };

    ghost only_now = { λ watched c told since. since };

    ghost follows_itself = { λ watched. tt };

    ghost follows_on = { λ first second third early late. tt };

    fn len(&mut self) -> Result<u64, DiskError> {
        self.calls = self.calls.saturating_add(1);
        self.disk.len()
    }

    fn read(&mut self, at: u64, into: &mut [u8]) -> Result<usize, DiskError> {
        self.calls = self.calls.saturating_add(1);
        self.asked = self.asked.saturating_add(into.len() as u64);
        if self.calls > self.honest {
            return Ok(0);
        }
        self.disk.read(at, into)
    }

    fn write_at(&mut self, at: u64, bytes: &[u8]) -> Result<(), DiskError> {
        self.calls = self.calls.saturating_add(1);
        self.disk.write_at(at, bytes)
    }

    fn sync(&mut self) -> Result<(), DiskError> {
        self.calls = self.calls.saturating_add(1);
        self.disk.sync()
    }
}

/// How many records a journal has when it is opened, the first fault of opening it and reading a record, and its disk.
fn first_fault<D: Disk>(alloc: Global, disk: D) -> (u32, Option<JournalFault>, D) {
    match Journal::open(alloc, disk) {
        Ok(mut journal) => {
            let count = journal.count();
            let fault = if count > 0 {
                journal.read(0).err()
            } else {
                None
            };
            (count, fault, journal.close())
        }
        Err((disk, fault)) => (0, Some(fault), disk),
    }
}

/// The same as text.
fn fault_text(alloc: Global, count: u32, fault: Option<JournalFault>) -> Result<String, Fail> {
    match fault {
        None => Ok(format!(in alloc; "{count}")?),
        Some(fault) => Ok(format!(in alloc; "{count}, {fault}")?),
    }
}

fn check_opened(rt: &impl Abort, alloc: Global, failing: u32, want: &str) -> Result<(), Fail> {
    let (count, fault, _) = first_fault(alloc, large_disk(alloc, failing)?);
    let text = fault_text(alloc, count, fault)?;
    assert_eq!(rt; text.as_str(), want, "call {failing} fails");
    Ok(())
}

/// The same over a disk that tells nothing and whose reads find no byte after so many calls, with what it was asked.
fn check_watched(
    rt: &impl Abort,
    alloc: Global,
    disk: MemDisk,
    honest: u64,
    want: &str,
) -> Result<(), Fail> {
    let (count, fault, watched) = first_fault(alloc, WatchedDisk::new(disk, honest));
    let text = fault_text(alloc, count, fault)?;
    let (calls, asked) = (watched.calls, watched.asked);
    let text = format!(in alloc; "{text}; {calls} calls for {asked} bytes")?;
    assert_eq!(rt; text.as_str(), want, "after {honest} calls");
    Ok(())
}

/// Opening syncs, asks for the length, reads the 8 bytes of the magic and then the 5 bytes of each gate and its length,
/// the last gate too. Then a record is read.
fn check_large(rt: &impl Abort, alloc: Global) -> Result<(), Fail> {
    check_watched(
        rt,
        alloc,
        large_disk(alloc, 0)?,
        u64::MAX,
        "400; 405 calls for 2513 bytes",
    )?;
    // the write of the bytes comes first, so that the last call of opening has the number 1 + 3 + 401
    check_opened(rt, alloc, 2, "0, the disk failed")?;
    check_opened(rt, alloc, 405, "0, the disk failed")?;
    check_opened(rt, alloc, 406, "400, the disk failed")
}

#[test]
fn opens_by_one_read_for_each_record(rt: HostRuntime) -> Result<(), Fail> {
    check_large(&rt, rt.alloc())
}

/// A disk with one record.
fn small_disk(alloc: Global) -> Result<MemDisk, DiskError> {
    disk_with(alloc, b"DCGKAJ1\n\x01\0\0\0\x02ab\0".as_slice())
}

/// Opening makes 5 calls, of which the last three read the magic and the two gates.
fn check_small(rt: &impl Abort, alloc: Global) -> Result<(), Fail> {
    let short = "1, the bytes are no journal at place 9; 6 calls for 20 bytes";
    check_watched(rt, alloc, small_disk(alloc)?, 2, "0; 3 calls for 8 bytes")?;
    check_watched(rt, alloc, small_disk(alloc)?, 3, "0; 4 calls for 13 bytes")?;
    check_watched(rt, alloc, small_disk(alloc)?, 4, short)
}

#[test]
fn a_disk_that_tells_nothing_may_end_early(rt: HostRuntime) -> Result<(), Fail> {
    check_small(&rt, rt.alloc())
}
