use super::*;
use group_fields::{Memory, Text};
use std::alloc::Global;
use std::io::ErrorKind;
use std::os::unix::fs::{MetadataExt, PermissionsExt};
use std::test::Fail;
use std::{fs, io};
use system_calls::{CallError, FileCalls, MemFiles, RealFiles, StoredFile};

/// Four bytes that are settled, and two pending writes that overlap and go past the end.
fn fill<D: Disk>(disk: &mut D) -> Result<(), DiskError> {
    disk.write_at(0, b"abcd")?;
    disk.sync()?;
    disk.write_at(2, b"XY")?;
    disk.write_at(3, b"pqr")
}

/// What a disk reads from a place on, into a buffer of nine bytes.
fn read_from<D: Disk>(disk: &mut D, at: u64) -> Result<(usize, [u8; 9]), DiskError> {
    let mut into = [b'.'; 9];
    let count = disk.read(at, &mut into)?;
    Ok((count, into))
}

/// How many bytes a disk has, and what it reads from a place on.
fn read_text<D: Disk>(alloc: Global, disk: &mut D, at: u64) -> Result<String, Fail> {
    let length = disk.len()?;
    let (count, into) = read_from(disk, at)?;
    let read = str::from_utf8(&into)?;
    Ok(format!(in alloc; "{length} {count} {read};")?)
}

/// What a disk reads before and after it is filled, from several places on. Then it writes once behind its end.
fn told_by<D: Disk>(alloc: Global, disk: &mut D) -> Result<String, Fail> {
    let mut text = read_text(alloc, disk, 0)?;
    fill(disk)?;
    for at in [0, 4, 2, 6, u64::MAX] {
        text.push_str(read_text(alloc, disk, at)?.as_str())?;
    }
    disk.write_at(8, b"z")?;
    Ok(text)
}

fn told_in_memory(alloc: Global) -> Result<String, Fail> {
    let mut disk = MemDisk::honest(alloc);
    let mut text = told_by(alloc, &mut disk)?;
    text.push_str(str::from_utf8(disk.bytes())?)?;
    Ok(text)
}

const TOLD: &str = "0 0 .........;6 6 abXpqr...;6 2 qr.......;6 4 Xpqr.....;\
    6 0 .........;6 0 .........;abXpqr\0\0z";

/// A disk that was filled, after a crash.
fn crashed(alloc: Global, image: u8) -> Result<MemDisk, DiskError> {
    let mut disk = MemDisk::honest(alloc);
    fill(&mut disk)?;
    disk.crash(image.min(2));
    Ok(disk)
}

/// A disk that was filled and synced, after a crash.
fn synced_and_crashed(alloc: Global) -> Result<MemDisk, DiskError> {
    let mut disk = MemDisk::honest(alloc);
    fill(&mut disk)?;
    disk.sync()?;
    disk.crash(0);
    Ok(disk)
}

/// The bytes after a crash with each image in turn, and after another crash; and those of a disk that was synced.
fn crashes(alloc: Global) -> Result<String, Fail> {
    let mut text = String::new(alloc);
    for image in 0..3 {
        let mut disk = crashed(alloc, image)?;
        text.push_str(format!(in alloc; "{:?}", disk.bytes())?.as_str())?;
        disk.crash(0);
        text.push_str(format!(in alloc; "{:?};", disk.bytes())?.as_str())?;
    }
    let disk = synced_and_crashed(alloc)?;
    text.push_str(str::from_utf8(disk.bytes())?)?;
    Ok(text)
}

// none of the bytes X, p, q and r, all of them, and all inverted; nothing is pending after a crash
const CRASHES: &str = "[97, 98, 99, 100][97, 98, 99, 100];\
    [97, 98, 88, 112, 113, 114][97, 98, 88, 112, 113, 114];\
    [97, 98, 167, 143, 142, 141][97, 98, 167, 143, 142, 141];abXpqr";

/// Six calls in turn, of which those that fail are counted by the bits of their numbers.
fn failures<D: Disk>(disk: &mut D) -> u32 {
    let answers = [
        disk.write_at(0, b"abcd").is_err(),
        disk.sync().is_err(),
        disk.write_at(2, b"XY").is_err(),
        disk.write_at(3, b"pqr").is_err(),
        disk.len().is_err(),
        disk.read(0, &mut [0; 4]).is_err(),
    ];
    answers
        .iter()
        .rev()
        .fold(0, |bits: u32, &failed| bits % 64 * 2 + u32::from(failed))
}

/// Which calls of a disk fail where the call of a number is to fail, what is read then, and what a crash that keeps no
/// pending write leaves.
fn planned(alloc: Global, number: u32) -> Result<String, Fail> {
    let mut disk = MemDisk::new(alloc, &[number])?;
    let bits = failures(&mut disk);
    let mut text = format!(in alloc; "{bits} ")?;
    text.push_str(str::from_utf8(disk.bytes())?)?;
    disk.crash(0);
    text.push('/')?;
    text.push_str(str::from_utf8(disk.bytes())?)?;
    text.push(';')?;
    Ok(text)
}

fn all_planned(alloc: Global) -> Result<String, Fail> {
    let mut text = String::new(alloc);
    for number in 1..6 {
        text.push_str(planned(alloc, number)?.as_str())?;
    }
    Ok(text)
}

// calls: write, sync, write, write
const PLANNED: &str = "1 \0\0Xpqr/;2 abXpqr/;4 abcpqr/abcd;8 abXY/abcd;16 abXpqr/abcd;";

const PATH: &str = "disk_trait_files/journal";

fn disk_over<C: FileCalls + Drop>(
    calls: C,
    alloc: Global,
    path: &str,
) -> Result<FileDisk<C>, Memory> {
    Ok(FileDisk::new(calls, Text::copy_of(alloc, path)?))
}

/// Makes a file, syncs it, writes once more and reads. Answers how many of the six calls went well before one failed.
fn six_calls<D: Disk>(disk: &mut D) -> u32 {
    if disk.len().is_err() {
        return 0;
    }
    if disk.write_at(0, b"abcd").is_err() {
        return 1;
    }
    if disk.sync().is_err() {
        return 2;
    }
    if disk.write_at(2, b"XYZ").is_err() {
        return 3;
    }
    if disk.len().is_err() {
        return 4;
    }
    if disk.read(0, &mut [0; 9]).is_err() {
        return 5;
    }
    6
}

/// How far the six calls come where the call of a number fails, and what the disk says of it.
fn stopped(alloc: Global, call: u32, error: CallError) -> Result<(u32, Option<ErrorKind>), Memory> {
    let calls = MemFiles::new(alloc, &[call], error, usize::MAX)?;
    let mut disk = disk_over(calls, alloc, PATH)?;
    let done = six_calls(&mut disk);
    Ok((done, disk.reason()))
}

/// What the disk says where each call in turn fails, and the last where none does; where the write wants memory, and
/// where the file that it makes is there.
fn stops(alloc: Global) -> Result<String, Fail> {
    let mut text = String::new(alloc);
    for call in 1..12 {
        let (done, reason) = stopped(alloc, call, CallError::Failed(ErrorKind::StorageFull))?;
        text.push_str(format!(in alloc; "{done} {reason:?};")?.as_str())?;
    }
    for (call, error) in [(5, CallError::Memory), (2, CallError::Taken)] {
        let (done, reason) = stopped(alloc, call, error)?;
        text.push_str(format!(in alloc; "{done} {reason:?};")?.as_str())?;
    }
    Ok(text)
}

// len: open; write: make, lock, sync the name, write; sync; write; len; read: twice, to the end
const STOPS: &str =
    "0 Some(StorageFull);1 Some(StorageFull);1 Some(StorageFull);1 Some(StorageFull);\
    1 Some(StorageFull);2 Some(StorageFull);3 Some(StorageFull);4 Some(StorageFull);5 Some(StorageFull);\
    5 Some(StorageFull);6 None;1 Some(OutOfMemory);1 Some(AlreadyExists);";

/// The file after the six calls, where a read or a write moves one byte, and some of them are interrupted.
fn interrupted(alloc: Global) -> Result<String, Fail> {
    let calls = MemFiles::new(alloc, &[5, 7, 8, 11, 13], CallError::Interrupted, 1)?;
    let mut disk = disk_over(calls, alloc, PATH)?;
    let done = six_calls(&mut disk);
    let file = disk.calls().file(PATH)?.ok_or("no file")?;
    let bytes = str::from_utf8(file.bytes.as_slice())?;
    Ok(format!(in alloc; "{done} {bytes} {} {}", file.is_synced, file.is_named)?)
}

const FOLDER: &str = "disk_trait_files";

/// Whether reading and syncing make a file.
fn makes_a_file(rt: &HostRuntime, path: &str) -> Result<bool, Fail> {
    let mut disk = disk_over(RealFiles::new(rt.clone()?), rt.alloc(), path)?;
    disk.len()?;
    read_from(&mut disk, 0)?;
    disk.sync()?;
    Ok(fs::metadata(rt, path).is_ok())
}

/// Fills a file, and answers the failure of a second disk over it while the first is there.
fn filled(rt: &HostRuntime, path: &str) -> Result<Option<ErrorKind>, Fail> {
    let mut disk = disk_over(RealFiles::new(rt.clone()?), rt.alloc(), path)?;
    fill(&mut disk)?;
    disk.sync()?;
    failure(rt, path)
}

/// Why a disk that found no file can't write one that another disk made since.
fn late(rt: &HostRuntime, path: &str) -> Result<Option<ErrorKind>, Fail> {
    let mut disk = disk_over(RealFiles::new(rt.clone()?), rt.alloc(), path)?;
    disk.len()?;
    filled(rt, path)?;
    let _ = disk.write_at(0, b"late");
    Ok(disk.reason())
}

/// Why a disk over the path can't tell its length.
fn failure(rt: &HostRuntime, path: &str) -> Result<Option<ErrorKind>, Fail> {
    let mut disk = disk_over(RealFiles::new(rt.clone()?), rt.alloc(), path)?;
    let _ = disk.len();
    Ok(disk.reason())
}

/// What a disk over the path reads from a place on.
fn read_at(rt: &HostRuntime, path: &str, at: u64) -> Result<String, Fail> {
    let mut disk = disk_over(RealFiles::new(rt.clone()?), rt.alloc(), path)?;
    read_text(rt.alloc(), &mut disk, at)
}

fn mode_of(rt: &HostRuntime, path: &str) -> io::Result<u32> {
    Ok(fs::metadata(rt, path)?.mode())
}

/// A disk that is late, and what the other one wrote.
fn late_on_a_file(rt: &HostRuntime) -> Result<String, Fail> {
    let is_made = makes_a_file(rt, PATH)?;
    let reason = late(rt, PATH)?;
    let read = read_at(rt, PATH, 0)?;
    fs::remove_file(rt, PATH)?;
    Ok(format!(in rt.alloc(); "{is_made} {reason:?} {read}")?)
}

/// A second disk, the mode of the file, and what is read of it, also where it can't be written.
fn kept_in_a_file(rt: &HostRuntime) -> Result<String, Fail> {
    let reason = filled(rt, PATH)?;
    let mode = mode_of(rt, PATH)?;
    let end = read_at(rt, PATH, 4)?;
    fs::set_permissions(rt, PATH, fs::Permissions::from_mode(0o400))?;
    let whole = read_at(rt, PATH, 0)?;
    Ok(format!(in rt.alloc(); "{reason:?} {mode:o} {end}{whole}")?)
}

fn on_the_machine(rt: &HostRuntime) -> Result<String, Fail> {
    let _ = fs::remove_dir_all(rt, FOLDER);
    fs::create_dir(rt, FOLDER)?;
    let late = late_on_a_file(rt)?;
    let kept = kept_in_a_file(rt)?;
    let folder = failure(rt, FOLDER)?;
    let inside = failure(rt, "disk_trait_files/journal/a")?;
    fs::remove_dir_all(rt, FOLDER)?;
    Ok(format!(in rt.alloc(); "{late}{kept}{folder:?} {inside:?}")?)
}

const ON_THE_MACHINE: &str =
    "false Some(AlreadyExists) 6 6 abXpqr...;Some(WouldBlock) 100600 6 2 qr.......;\
    6 6 abXpqr...;Some(InvalidInput) Some(NotADirectory)";

#[test]
fn disks_keep_what_was_written(rt: HostRuntime) -> Result<(), Fail> {
    let rows = [
        (told_in_memory(rt.alloc())?, TOLD),
        (crashes(rt.alloc())?, CRASHES),
        (all_planned(rt.alloc())?, PLANNED),
        (stops(rt.alloc())?, STOPS),
        (interrupted(rt.alloc())?, "6 abXYZ false true"),
        (on_the_machine(&rt)?, ON_THE_MACHINE),
    ];
    for (told, want) in rows.iter() {
        assert_eq!(rt; told.as_str(), *want);
    }
    Ok(())
}
