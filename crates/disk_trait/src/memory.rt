ghost use Rattle.std.specs.Prelude.{◌≡◌, ◌+◌, ◌-◌, ◌≤◌, ◌<◌, ◌^◌, min, max, ℕ, List, [], ◌∷◌, ◌++◌};
ghost use Rattle.std.specs.Prelude.{length, take, drop, map, IfOk, OnOk, OnErr, IsOk, vec_len, vec_capacity};
ghost use Rattle.std.specs.Prelude.{cond, if◌then◌else◌};
ghost use Rattle.group_fields.specs.Cause.{HasCause};
ghost use Rattle.group_fields.specs.Plan.{FailsAsPlanned};
ghost use Rattle.disk_trait.specs.Disk.{LeavesOnly, MayNot, MayTear, Passes, ReadsPart, Wrote};
ghost use Rattle.disk_trait.specs.Images.{content_image, image_now, only_image_now};
ghost use Rattle.disk_trait.specs.declared.disk.DiskError.TheVariants.{Failed, Memory};
ghost use Rattle.disk_trait.specs.declared.memory.Change.TheVariants.{Write, Sync};
ghost use Rattle.disk_trait.specs.Replay.{overwritten, overlay, overlay_inverted, inverted, AllWrites, Settles};
ghost use Rattle.disk_trait.specs.Replay.{fresh, written_over, replayed, content_of, IsImage, crash_image};

use crate::{Disk, DiskError};
use group_fields::{Bytes, Memory};
use std::alloc::{AllocError, Global};
use system_calls::Plan;

/// A change that a disk in memory went through.
#[derive(Debug, Drop)]
pub(crate) enum Change {
    Write(usize, Bytes),
    Sync,
}

/// Copies bytes with each of them inverted.
fn copy_inverted(part: &mut [u8], bytes: &[u8])
    requires { length part.old ≡ length bytes.now }
    ensures { part.new ≡ inverted bytes.now }
{
    part.copy_from_slice(bytes);
    for byte in part.iter_mut() {
        *byte = u8::MAX - *byte;
    }
}

/// Puts bytes at a place, and zeros into a gap before it, in the room that is there.
fn overwrite(target: &mut Vec<u8>, at: usize, bytes: &[u8])
    requires { max (vec_len target.old) (at + length bytes.now) ≤ vec_capacity target.old }
    ensures content { target.new.items ≡ overwritten at bytes.now target.old.items }
    ensures room { vec_capacity target.old ≤ vec_capacity target.new }
{
    let end = at + bytes.len();
    if target.len() < end {
        target.resize(end, 0).unwrap();
    }
    target.as_mut_slice()[at..end].copy_from_slice(bytes);
}

/// Puts inverted bytes at a place, as `overwrite` puts the bytes.
fn overwrite_inverted(target: &mut Vec<u8>, at: usize, bytes: &[u8])
    requires { max (vec_len target.old) (at + length bytes.now) ≤ vec_capacity target.old }
    ensures content { target.new.items ≡ overwritten at (inverted bytes.now) target.old.items }
    ensures room { vec_capacity target.old ≤ vec_capacity target.new }
{
    let end = at + bytes.len();
    if target.len() < end {
        target.resize(end, 0).unwrap();
    }
    copy_inverted(&mut target.as_mut_slice()[at..end], bytes);
}

/// Writes changes over bytes, in the room that is there.
fn replay(target: &mut Vec<u8>, changes: &[Change])
    requires { length (overlay target.old.items changes.now) ≤ vec_capacity target.old }
    ensures content { target.new.items ≡ overlay target.old.items changes.now }
    ensures room { vec_capacity target.old ≤ vec_capacity target.new }
{
    for change in changes {
        if let Change::Write(at, bytes) = change {
            overwrite(target, *at, bytes.as_slice());
        }
    }
}

/// Writes changes over bytes with each written byte inverted, in the room that is there.
fn replay_inverted(target: &mut Vec<u8>, changes: &[Change])
    requires { length (overlay_inverted target.old.items changes.now) ≤ vec_capacity target.old }
    ensures content { target.new.items ≡ overlay_inverted target.old.items changes.now }
    ensures room { vec_capacity target.old ≤ vec_capacity target.new }
{
    for change in changes {
        if let Change::Write(at, bytes) = change {
            overwrite_inverted(target, *at, bytes.as_slice());
        }
    }
}

/// How many changes lead up to the last sync and through it.
fn settled_changes(changes: &[Change]) -> usize
    ensures within { result ≤ length changes.now }
    ensures settled { Settles (take result changes.now) }
    ensures pending { AllWrites (drop result changes.now) }
{
    let mut count = changes.len();
    while count > 0 {
        if let Change::Sync = changes[count - 1] {
            break;
        }
        count -= 1;
    }
    count
}

/// A disk in memory that tells its content and fails and crashes on demand.
///
/// It keeps each change that it went through, so that what a crash at an earlier moment might have left is known.
#[derive(Debug, Drop)]
pub struct MemDisk {
    alloc: Global,
    /// The content at first, with room for what is written later.
    first: Vec<u8>,
    changes: Vec<Change>,
    bytes: Vec<u8>,
    plan: Plan,
    ghost shows: { bytes.items ≡ content_of (replayed (fresh first.items) changes.items) },
    ghost room: { vec_len bytes ≤ vec_capacity first },
}

impl MemDisk {
    ghost use Rattle.disk_trait.specs.MemDisk.{content, standing, failing_calls, calls, counted};

    /// An empty disk of which the calls with these numbers, from 1, fail.
    pub fn new(alloc: Global, failing: &[u32]) -> Result<MemDisk, Memory>
        ensures empty { IfOk result (λ disk. content disk ≡ []) }
        ensures settled { IfOk result (λ disk. LeavesOnly [] (IsImage (standing disk))) }
        ensures failing { IfOk result (λ disk. failing_calls disk ≡ failing.now) }
        ensures unasked { IfOk result (λ disk. calls disk ≡ 0) }
        ensures uncounted { IfOk result (λ disk. counted disk ≡ record { faults = 0; wants = 0 }) }
    {
        Ok(MemDisk::with_plan(alloc, Plan::new(alloc, failing)?))
    }

    /// An empty disk of which no call fails.
    pub fn honest(alloc: Global) -> MemDisk
        ensures empty { content result ≡ [] }
        ensures settled { LeavesOnly [] (IsImage (standing result)) }
        ensures honest { failing_calls result ≡ [] }
        ensures unasked { calls result ≡ 0 }
        ensures uncounted { counted result ≡ record { faults = 0; wants = 0 } }
    {
        MemDisk::with_plan(alloc, Plan::honest(alloc))
    }

    fn with_plan(alloc: Global, plan: Plan) -> MemDisk
        ensures empty { result.bytes.items ≡ [] }
        ensures unchanged { result.changes.items ≡ [] }
        ensures first { result.first.items ≡ [] }
        ensures plan { result.plan ≡ plan }
    {
        MemDisk {
            alloc,
            first: Vec::new(alloc),
            changes: Vec::new(alloc),
            bytes: Vec::new(alloc),
            plan,
        }
    }

    /// What a read gives.
    pub fn bytes(&self) -> &[u8]
        ensures { result.now ≡ content self.now }
    {
        &self.bytes
    }

    /// Writes at a place, in memory that it takes first.
    fn put(&mut self, at: u64, bytes: &[u8]) -> Result<(), Memory>
        ensures bytes { OnOk result (self.new.bytes.items ≡ overwritten at bytes.now self.old.bytes.items) }
        ensures change { OnOk result (self.new.changes.items ≡ self.old.changes.items ++ Write at bytes.now ∷ []) }
        ensures first { self.new.first.items ≡ self.old.first.items }
        ensures err { OnErr result ((self.new.bytes.items ≡ self.old.bytes.items)
            × (self.new.changes.items ≡ self.old.changes.items)) }
        ensures plan { self.new.plan ≡ self.old.plan }
    {
        let at = usize::try_from(at).map_err(|_| AllocError)?;
        let end = at.checked_add(bytes.len()).ok_or(AllocError)?;
        let part = Bytes::copy_of(self.alloc, bytes)?;
        grow(&mut self.first, end.max(self.bytes.len()))?;
        grow(&mut self.bytes, end)?;
        self.changes.push(Change::Write(at, part))?;
        overwrite(&mut self.bytes, at, bytes);
        Ok(())
    }

    /// Puts one image of a crash in place: with 0 no pending write is kept, with 1 all are, with 2 all with each byte
    /// inverted. After it nothing is pending.
    pub fn crash(&mut self, image: u8)
        requires { image ≤ 2 }
        ensures content { content self.new ≡ crash_image image (standing self.old) }
        ensures settled { standing self.new ≡ fresh (content self.new) }
        ensures failing { failing_calls self.new ≡ failing_calls self.old }
        ensures asked { calls self.new ≡ calls self.old }
        ensures counts { counted self.new ≡ counted self.old }
    {
        crash_through(&mut self.first, &self.changes, image);
        self.changes.clear();
        refill(&mut self.bytes, &self.first);
    }

    /// Settles what is pending.
    fn settle(&mut self) -> Result<(), Memory>
        ensures change { OnOk result (self.new.changes.items ≡ self.old.changes.items ++ Sync ∷ []) }
        ensures err { OnErr result (self.new.changes.items ≡ self.old.changes.items) }
        ensures first { self.new.first.items ≡ self.old.first.items }
        ensures bytes { self.new.bytes.items ≡ self.old.bytes.items }
        ensures plan { self.new.plan ≡ self.old.plan }
    {
        self.changes.push(Change::Sync)?;
        Ok(())
    }
}

/// Puts the image of a crash after these changes in the place of the content before them, in the room that is there.
fn crash_through(first: &mut Vec<u8>, changes: &[Change], image: u8)
    requires { length (overlay first.old.items changes.now) ≤ vec_capacity first.old }
    ensures content { first.new.items ≡ crash_image image (replayed (fresh first.old.items) changes.now) }
    ensures length { vec_len first.new ≤ length (overlay first.old.items changes.now) }
    ensures room { vec_capacity first.old ≤ vec_capacity first.new }
{
    let (kept, pending) = changes.split_at(settled_changes(changes));
    replay(first, kept);
    match image {
        0 => {}
        1 => replay(first, pending),
        _ => replay_inverted(first, pending),
    }
}

/// Puts bytes in the place of those that are there, in the room that is there.
fn refill(target: &mut Vec<u8>, bytes: &[u8])
    requires { length bytes.now ≤ vec_capacity target.old }
    ensures { target.new.items ≡ bytes.now }
{
    target.clear();
    target.extend_from_slice(bytes).unwrap();
}

/// Makes room for a length.
fn grow(target: &mut Vec<u8>, length: usize) -> Result<(), Memory>
    ensures items { target.new.items ≡ target.old.items }
    ensures length { vec_len target.new ≡ vec_len target.old }
    ensures room { OnOk result (length ≤ vec_capacity target.new) }
    ensures capacity { vec_capacity target.old ≤ vec_capacity target.new }
{
    target.reserve(length.saturating_sub(target.len()))
}

impl Disk for MemDisk {
    ghost use Rattle.disk_trait.specs.MemDisk.{content, standing, failing_calls, calls, counted};
    ghost use Rattle.disk_trait.specs.MemDisk.{moments, images_since, Follows, Syncs};
    ghost use Rattle.group_fields.specs.Plan.{keeps-itself, keeps-on};

    ghost told = { Unit {0} };

    ghost content = { content };

    ghost image = { λ disk. IsImage (standing disk) };

    ghost clock = { moments };

    ghost image_since = { images_since };

    ghost counts = { counted };

    ghost follows = { Follows };

    ghost syncs = { Syncs };

    ghost content_is_image = { λ disk told. content_image disk.first.items disk.bytes.items disk.changes.items disk.shows };

    ghost counts_now = { λ disk from c told early image. image_now disk.first.items disk.changes.items from c early image };

    ghost only_now = { λ disk c told since. only_image_now disk.first.items disk.changes.items c since };

    ghost follows_itself = { λ disk. keeps-itself _ _ };

    ghost follows_on = { λ first second third early late. keeps-on _ _ _ _ _ _ early late };

    fn len(&mut self) -> Result<u64, DiskError>
        ensures length { IfOk result (λ n. n ≡ length (content self.old)) }
        ensures content { content self.new ≡ content self.old }
        ensures standing { standing self.new ≡ standing self.old }
        ensures crash { MayNot (IsImage (standing self.old)) (IsImage (standing self.new)) }
        ensures time { Passes (moments self.old) (moments self.new)
            (images_since self.old) (images_since self.new) (IsImage (standing self.new)) }
        ensures planned { FailsAsPlanned Failed (failing_calls self.old) (calls self.old) (calls self.new) result }
        ensures cause { HasCause Failed Memory (counted self.old) (counted self.new) result }
        ensures follows { Follows self.old self.new }
    {
        self.plan.begin(DiskError::Failed)?;
        Ok(self.bytes.len() as u64)
    }

    fn read(&mut self, at: u64, into: &mut [u8]) -> Result<usize, DiskError>
        ensures within { IfOk result (λ n. n ≤ length into.old) }
        ensures bytes { IfOk result (λ n. ReadsPart (content self.old) at n into.old into.new) }
        ensures content { content self.new ≡ content self.old }
        ensures standing { standing self.new ≡ standing self.old }
        ensures crash { MayNot (IsImage (standing self.old)) (IsImage (standing self.new)) }
        ensures time { Passes (moments self.old) (moments self.new)
            (images_since self.old) (images_since self.new) (IsImage (standing self.new)) }
        ensures planned { FailsAsPlanned Failed (failing_calls self.old) (calls self.old) (calls self.new) result }
        ensures cause { HasCause Failed Memory (counted self.old) (counted self.new) result }
        ensures follows { Follows self.old self.new }
    {
        self.plan.begin(DiskError::Failed)?;
        Ok(copy_part(&self.bytes, at, into))
    }

    /// Where it fails, nothing is written and nothing more is pending.
    fn write_at(&mut self, at: u64, bytes: &[u8]) -> Result<(), DiskError>
        ensures written { OnOk result (Wrote at bytes.now (content self.old) (content self.new)) }
        ensures pending { OnOk result (standing self.new ≡ written_over at bytes.now (standing self.old)) }
        ensures unwritten { OnErr result (content self.new ≡ content self.old) }
        ensures unchanged { OnErr result (standing self.new ≡ standing self.old) }
        ensures crash { MayTear at (length bytes.now) (IsImage (standing self.old)) (IsImage (standing self.new)) }
        ensures time { Passes (moments self.old) (moments self.new)
            (images_since self.old) (images_since self.new) (IsImage (standing self.new)) }
        ensures planned { FailsAsPlanned Failed (failing_calls self.old) (calls self.old) (calls self.new) result }
        ensures cause { HasCause Failed Memory (counted self.old) (counted self.new) result }
        ensures follows { Follows self.old self.new }
    {
        self.plan.begin(DiskError::Failed)?;
        match self.put(at, bytes) {
            Ok(()) => Ok(()),
            Err(_) => Err(self.plan.want(DiskError::Memory)),
        }
    }

    /// Where it fails, all that was pending still is.
    fn sync(&mut self) -> Result<(), DiskError>
        ensures durable { OnOk result (LeavesOnly (content self.old) (IsImage (standing self.new))) }
        ensures settled { OnOk result (standing self.new ≡ fresh (content self.old)) }
        ensures unsettled { OnErr result (standing self.new ≡ standing self.old) }
        ensures content { content self.new ≡ content self.old }
        ensures crash { MayNot (IsImage (standing self.old)) (IsImage (standing self.new)) }
        ensures time { Passes (moments self.old) (moments self.new)
            (images_since self.old) (images_since self.new) (IsImage (standing self.new)) }
        ensures planned { FailsAsPlanned Failed (failing_calls self.old) (calls self.old) (calls self.new) result }
        ensures cause { HasCause Failed Memory (counted self.old) (counted self.new) result }
        ensures follows { Follows self.old self.new }
        ensures syncs { Syncs self.old self.new }
    {
        self.plan.begin(DiskError::Failed)?;
        match self.settle() {
            Ok(()) => Ok(()),
            Err(_) => Err(self.plan.want(DiskError::Memory)),
        }
    }
}

/// Copies the bytes from a place on into a buffer, and answers how many there were.
fn copy_part(bytes: &[u8], at: u64, into: &mut [u8]) -> usize
    ensures within { result ≤ length into.old }
    ensures part { ReadsPart bytes.now at result into.old into.new }
{
    let start = usize::try_from(at).unwrap_or(usize::MAX).min(bytes.len());
    let count = into.len().min(bytes.len() - start);
    into[..count].copy_from_slice(&bytes[start..start + count]);
    count
}
