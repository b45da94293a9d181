use super::*;
use crate::real_files::folder_of;
use group_fields::Bytes;
use std::alloc::Global;
use std::io::ErrorKind;
use std::os::unix::fs::MetadataExt;
use std::test::Fail;
use std::{fs, io};

const FOLDER: &str = "system_calls_files";

const FIRST: &str = "system_calls_files/first";

const SECOND: &str = "system_calls_files/second";

const FULL: CallError = CallError::Failed(ErrorKind::StorageFull);

fn rows<C: FileCalls>(calls: &mut C, alloc: Global) -> Result<String, CallError> {
    let mut text = String::new(alloc);
    for (name, row) in calls.list(FOLDER)? {
        let (plain, length) = (row.is_plain, row.length);
        text.push_str(format!(in alloc; "{name} {plain} {length};")?.as_str())?;
    }
    Ok(text)
}

/// Locks a file, writes two parts with a gap between them, and syncs it.
fn write_parts<C: FileCalls>(calls: &mut C, file: &mut C::File) -> Result<(), CallError> {
    calls.lock(file)?;
    calls.write_at(file, 0, b"abcd")?;
    calls.write_at(file, 6, b"z")?;
    calls.sync(file)
}

/// Makes a file of two parts, and answers how many bytes it has.
fn fill<C: FileCalls>(calls: &mut C) -> Result<u64, CallError> {
    let mut file = calls.make(FIRST, true)?;
    write_parts(calls, &mut file)?;
    calls.sync_name(FIRST)?;
    calls.len(&mut file)
}

/// What one read gives from each place on, into four bytes.
fn reads<C: FileCalls>(calls: &mut C, alloc: Global) -> Result<String, CallError> {
    let mut text = String::new(alloc);
    if let Some(mut file) = calls.open(SECOND)? {
        for at in [0, 4, 7, 1000] {
            let mut into = [b'.'; 4];
            let count = calls.read_at(&mut file, at, &mut into)?;
            text.push_str(format!(in alloc; "{count} {into:?};")?.as_str())?;
        }
    }
    Ok(text)
}

/// What the calls answer before the file is moved.
fn made_by<C: FileCalls>(calls: &mut C, alloc: Global) -> Result<String, CallError> {
    let is_missing = calls.open(FIRST)?.is_none();
    let length = fill(calls)?;
    let is_taken = matches!(calls.make(FIRST, false), Err(CallError::Taken));
    let is_refused = calls.open(FOLDER).is_err();
    Ok(format!(in alloc; "{is_missing} {length} {is_taken} {is_refused} ")?)
}

/// What is there after the file was moved.
fn moved_by<C: FileCalls>(calls: &mut C, alloc: Global) -> Result<String, CallError> {
    calls.rename(FIRST, SECOND)?;
    let mut moved = rows(calls, alloc)?;
    moved.push(' ')?;
    moved.push_str(reads(calls, alloc)?.as_str())?;
    Ok(moved)
}

/// What is there after the file was removed.
fn removed_by<C: FileCalls>(calls: &mut C, alloc: Global) -> Result<String, CallError> {
    calls.remove(SECOND)?;
    let removed = rows(calls, alloc)?;
    let is_gone = calls.remove(SECOND).is_err() && calls.rename(SECOND, FIRST).is_err();
    Ok(format!(in alloc; " {removed} {is_gone}")?)
}

/// What each call answers in turn, as a text.
fn told_by<C: FileCalls>(calls: &mut C, alloc: Global) -> Result<String, CallError> {
    let mut told = made_by(calls, alloc)?;
    told.push_str(moved_by(calls, alloc)?.as_str())?;
    told.push_str(removed_by(calls, alloc)?.as_str())?;
    Ok(told)
}

const TOLD: &str = "true 7 true true second true 7; \
    4 [97, 98, 99, 100];3 [0, 0, 122, 46];0 [46, 46, 46, 46];0 [46, 46, 46, 46];  true";

fn folder(alloc: Global) -> StoredFile {
    StoredFile {
        bytes: Bytes::from(Vec::new(alloc)),
        is_synced: true,
        is_named: true,
        is_plain: false,
        is_private: false,
    }
}

fn told_in_memory(alloc: Global) -> Result<String, Fail> {
    let mut memory = MemFiles::new(alloc, &[], FULL, usize::MAX)?;
    memory.place(FOLDER, folder(alloc))?;
    Ok(told_by(&mut memory, alloc)?)
}

fn told_on_the_machine(rt: &HostRuntime) -> Result<String, Fail> {
    let _ = fs::remove_dir_all(rt, FOLDER);
    fs::create_dir(rt, FOLDER)?;
    let mut machine = RealFiles::new(rt.clone()?);
    let told = told_by(&mut machine, rt.alloc())?;
    fs::remove_dir_all(rt, FOLDER)?;
    Ok(told)
}

/// Whether an open file more can have the lock.
fn can_lock<C: FileCalls>(calls: &mut C, path: &str) -> Result<bool, CallError> {
    match calls.open(path)? {
        Some(mut file) => Ok(calls.lock(&mut file).is_ok()),
        None => Ok(false),
    }
}

/// Makes a file, and answers whether another open file can have the lock that it takes.
fn can_share<C: FileCalls>(calls: &mut C, path: &str) -> Result<bool, CallError> {
    let mut first = calls.make(path, true)?;
    calls.lock(&mut first)?;
    can_lock(calls, path)
}

fn mode_of(rt: &HostRuntime, path: &str) -> io::Result<u32> {
    Ok(fs::metadata(rt, path)?.mode())
}

/// Whether a second open file can have the lock while the first has it, and after that.
fn locks(rt: HostRuntime, path: &str) -> Result<(bool, bool), CallError> {
    let mut machine = RealFiles::new(rt);
    let during = can_share(&mut machine, path)?;
    let after = can_lock(&mut machine, path)?;
    Ok((during, after))
}

/// Whether a file that is made for others too has the mode of a file that is written without a mode.
fn is_as_the_mask_lets(rt: HostRuntime) -> Result<bool, Fail> {
    let (made, written) = ("system_calls_made", "system_calls_written");
    let _ = fs::remove_file(&rt, made);
    fs::write(&rt, written, "")?;
    let file = RealFiles::new(rt.clone()?).make(made, false)?;
    drop(file);
    let same = mode_of(&rt, made)? == mode_of(&rt, written)?;
    fs::remove_file(&rt, made)?;
    fs::remove_file(&rt, written)?;
    Ok(same)
}

/// Whether files are private and locked as they are to be, and the mode of a private one.
fn kept_on_the_machine(rt: &HostRuntime) -> Result<String, Fail> {
    let path = "system_calls_private";
    let _ = fs::remove_file(rt, path);
    let (during, after) = locks(rt.clone()?, path)?;
    let mode = mode_of(rt, path)?;
    fs::remove_file(rt, path)?;
    let is_as_usual = is_as_the_mask_lets(rt.clone()?)?;
    Ok(format!(in rt.alloc(); "{during} {after} {mode:o} {is_as_usual}")?)
}

/// How a write and a read of four bytes go in memory, where one moves at most two and the call of a number fails.
fn short_calls(alloc: Global, call: u32) -> Result<(usize, usize), CallError> {
    let mut memory = MemFiles::new(alloc, &[call], FULL, 2)?;
    let mut file = memory.make("a", false)?;
    let written = memory.write_at(&mut file, 0, b"abcd")?;
    let read = memory.read_at(&mut file, 1, &mut [0; 4])?;
    Ok((written, read))
}

/// How they go where the first call fails, the second, the third, and none of them.
fn planned(alloc: Global) -> Result<String, Fail> {
    let mut text = String::new(alloc);
    for call in 1..5 {
        let answer = short_calls(alloc, call);
        text.push_str(format!(in alloc; "{answer:?};")?.as_str())?;
    }
    Ok(text)
}

const PLANNED: &str =
    "Err(Failed(StorageFull));Err(Failed(StorageFull));Err(Failed(StorageFull));Ok((2, 1));";

const FOLDERS: [(&str, &str); 4] = [("a", "."), ("/a", "/"), ("b/a", "b"), ("/c/b/a", "/c/b")];

#[test]
fn calls_do_what_they_say(rt: HostRuntime) -> Result<(), Fail> {
    let rows = [
        (told_in_memory(rt.alloc())?, TOLD),
        (told_on_the_machine(&rt)?, TOLD),
        (kept_on_the_machine(&rt)?, "false true 100600 true"),
        (planned(rt.alloc())?, PLANNED),
    ];
    for (told, want) in rows.iter() {
        assert_eq!(rt; told.as_str(), *want);
    }
    for (path, folder) in FOLDERS {
        assert_eq!(rt; folder_of(path), folder, "{path}");
    }
    Ok(())
}
