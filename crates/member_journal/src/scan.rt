ghost use Rattle.std.specs.Prelude.{◌≡◌, ◌≢◌, ◌+◌, ◌-◌, ◌<◌, ◌≤◌, ◌↔◌, ℕ, List, [], length, slice_index, drop, take};
ghost use Rattle.std.specs.Prelude.{Bool, true, false, nat_eq, IfOk, IfErr, OnOk, Some, None, IsTrue};
ghost use Rattle.std.specs.List.{starts_with};
ghost use Rattle.group_fields.specs.Counts.{IsRaised};
ghost use Rattle.disk_trait.specs.Disk.{LeavesOnly};
ghost use Rattle.disk_trait.specs.Moments.{OnlyReads};
ghost use Rattle.member_journal.specs.Format.{magic, journal_of, length_of, HoldsRecord, longest_record};
ghost use Rattle.member_journal.specs.Front.{Holds};
ghost use Rattle.member_journal.specs.Scan.{ReadsGate, FaultHasCause, IsSyncedFirst, KeepsDisk, SyncsFirst};
ghost use Rattle.member_journal.specs.declared.fault.JournalFault.TheVariants.{NotJournal};

use crate::JournalFault;
use crate::layout::Layout;
use disk_trait::Disk;
use std::alloc::Global;

/// The magic of a journal, in front of its first gate.
pub(crate) const MAGIC: [u8; 8] = *b"DCGKAJ1\n";

/// What a gate holds where it is open.
pub(crate) const OPEN: u8 = 1;

/// The most bytes of a record.
pub(crate) const LONGEST_RECORD: u32 = 8_388_641;

/// What stands at a gate.
#[derive(Clone, Copy, Debug, PartialEq, Eq)]
pub(crate) enum Gate {
    Shut,
    /// A record of this length stands behind it.
    Open(u32),
}

/// Settles the disk and reads the magic. Answers how many bytes there are, or nothing where they are an empty journal.
pub(crate) fn read_magic<D: Disk>(disk: &mut D) -> Result<Option<u64>, JournalFault>
    ensures keeps { KeepsDisk ⟦<D as Disk>⟧ disk.old disk.new }
    ensures cause { FaultHasCause ⟦<D as Disk>⟧ disk.old disk.new result }
    ensures settled { D.told → OnOk result (LeavesOnly (D.content disk.new) (D.image disk.new)) }
    ensures empty { D.told → result ≡ Ok None → length (D.content disk.old) ≤ 9 }
    ensures begun { D.told → (len : ℕ) → result ≡ Ok (Some len)
        → (len ≡ length (D.content disk.old)) × (9 < len) × (starts_with nat_eq (D.content disk.old) magic ≡ true) }
    ensures long { (len : ℕ) → result ≡ Ok (Some len) → 9 < len }
    ensures other { D.told → (place : ℕ)
        → result ≡ Err (NotJournal place) → journal_of (D.content disk.old) ≡ Err place }
    ensures first { IsSyncedFirst ⟦<D as Disk>⟧ disk.old disk.new }
{
    disk.sync()?;
    let len = disk.len()?;
    if len <= 9 {
        return Ok(None);
    }
    let mut start = [0; 8];
    if disk.read(0, &mut start)? < start.len() {
        return Ok(None);
    }
    if !start.starts_with(&MAGIC) {
        return Err(JournalFault::NotJournal(0));
    }
    Ok(Some(len))
}

/// Reads the gate at a place before the end, and the length behind it where it is open.
pub(crate) fn read_gate<D: Disk>(disk: &mut D, gate: u64, len: u64) -> Result<Gate, JournalFault>
    requires before_end { gate < len }
    requires told { D.told → len ≡ length (D.content disk.old) }
    ensures keeps { KeepsDisk ⟦<D as Disk>⟧ disk.old disk.new }
    ensures cause { FaultHasCause ⟦<D as Disk>⟧ disk.old disk.new result }
    ensures shut { D.told → result ≡ Ok Gate.Shut → slice_index (D.content disk.old) gate ≢ 1 }
    ensures opened { D.told → (n : ℕ) → result ≡ Ok (Gate.Open n) → ReadsGate (D.content disk.old) gate n }
    ensures length { (n : ℕ) → result ≡ Ok (Gate.Open n) → (1 ≤ n) × (n ≤ longest_record) × (gate + 5 + n < len) }
    ensures other { (place : ℕ) → result ≡ Err (NotJournal place) → (place ≡ gate + 1)
        × (D.told → (slice_index (D.content disk.old) gate ≡ 1)
        × (HoldsRecord (drop (gate + 1) (D.content disk.old)) → ⊥)) }
{
    let mut head = [0; 5];
    let count = disk.read(gate, &mut head)?;
    if head[0] != OPEN {
        return Ok(Gate::Shut);
    }
    let length = u32::from_be_bytes([head[1], head[2], head[3], head[4]]);
    if is_record(count, length, len - gate) {
        Ok(Gate::Open(length))
    } else {
        Err(JournalFault::NotJournal(gate + 1))
    }
}

/// Whether a gate and a length were read, the length is in range, and as many bytes and a gate stand behind it.
fn is_record(count: usize, length: u32, left: u64) -> bool
    ensures { IsTrue result ↔ ((count ≡ 5) × (1 ≤ length) × (length ≤ longest_record) × (length + 5 < left)) }
{
    count == 5 && 1 <= length && length <= LONGEST_RECORD && u64::from(length) + 5 < left
}

/// Settles the disk and finds the records on it: one read for each, of its gate and its length.
pub(crate) fn scan<D: Disk>(alloc: Global, disk: &mut D) -> Result<Layout, JournalFault>
    ensures keeps { KeepsDisk ⟦<D as Disk>⟧ disk.old disk.new }
    ensures cause { FaultHasCause ⟦<D as Disk>⟧ disk.old disk.new result }
    ensures holds { D.told → IfOk result (λ layout.
        Holds (D.content disk.old) (D.image disk.new) layout.rooms.items layout.gate layout.is_bare) }
    ensures other { D.told → (place : ℕ)
        → result ≡ Err (NotJournal place) → journal_of (D.content disk.old) ≡ Err place }
    ensures first { SyncsFirst ⟦<D as Disk>⟧ disk.old disk.new }
{
    let mut layout = Layout::bare(alloc)?;
    match read_magic(disk)? {
        None => Ok(layout),
        Some(len) => {
            layout.begin();
            find_records(disk, layout, len)
        }
    }
}

/// Follows the gates from the first on, which stands before the end.
fn find_records<D: Disk>(disk: &mut D, mut layout: Layout, len: u64) -> Result<Layout, JournalFault>
    requires begun { layout.is_bare ≡ false }
    requires none { layout.rooms.items ≡ [] }
    requires first { layout.gate ≡ 8 }
    requires long { 9 < len }
    requires told { D.told → len ≡ length (D.content disk.old) }
    requires magic { D.told → starts_with nat_eq (D.content disk.old) magic ≡ true }
    requires settled { D.told → LeavesOnly (D.content disk.old) (D.image disk.old) }
    ensures keeps { KeepsDisk ⟦<D as Disk>⟧ disk.old disk.new }
    ensures cause { FaultHasCause ⟦<D as Disk>⟧ disk.old disk.new result }
    ensures holds { D.told → IfOk result (λ found.
        Holds (D.content disk.old) (D.image disk.new) found.rooms.items found.gate found.is_bare) }
    ensures other { D.told → (place : ℕ)
        → result ≡ Err (NotJournal place) → journal_of (D.content disk.old) ≡ Err place }
{
    while let Gate::Open(length) = read_gate(disk, layout.gate, len)? {
        if layout.is_full() {
            return Err(JournalFault::NotJournal(layout.gate + 1));
        }
        layout.add(length);
    }
    Ok(layout)
}
