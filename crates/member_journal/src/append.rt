ghost use Rattle.std.specs.Prelude.{◌≡◌, ◌≤◌, ◌<◌, ◌+◌, ◌∷◌, [], ◌++◌, List, ℕ, length, OnOk, vec_len};
ghost use Rattle.group_fields.specs.Cause.{HasCause};
ghost use Rattle.disk_trait.specs.Disk.{LeavesOnly, Torn, Wrote};
ghost use Rattle.disk_trait.specs.Moments.{Throughout};
ghost use Rattle.disk_trait.specs.declared.disk.DiskError.TheVariants.{Failed, Memory};
ghost use Rattle.member_journal.specs.Append.{framed, with_header, with_record, IsAppending, IsBeginning};
ghost use Rattle.member_journal.specs.Entries.{Appended};
ghost use Rattle.member_journal.specs.Format.{longest_record, most_records};
ghost use Rattle.member_journal.specs.Front.{Holds};

use crate::layout::Layout;
use crate::scan::OPEN;
use disk_trait::{Disk, DiskError};

/// What a gate holds where it is shut.
const SHUT: u8 = 0;

/// Writes bytes at a place and settles the disk.
fn store<D: Disk>(disk: &mut D, at: u64, bytes: &[u8]) -> Result<(), DiskError>
    requires settled { D.told → LeavesOnly (D.content disk.old) (D.image disk.old) }
    requires inside { D.told → at ≤ length (D.content disk.old) }
    ensures written { D.told → OnOk result (Wrote at bytes.now (D.content disk.old) (D.content disk.new)) }
    ensures settled { D.told → OnOk result (LeavesOnly (D.content disk.new) (D.image disk.new)) }
    ensures moments { D.told
        → Throughout ⟦<D as Disk>⟧ disk.old disk.new (Torn at (length bytes.now) (D.content disk.old)) }
    ensures cause { HasCause Failed Memory (D.counts disk.old) (D.counts disk.new) result }
    ensures follows { D.follows disk.old disk.new }
{
    disk.write_at(at, bytes)?;
    disk.sync()?;
    Ok(())
}

/// Writes a length, a record and a gate that is shut at a place, and settles the disk.
fn store_record<D: Disk>(disk: &mut D, at: u64, payload: &[u8]) -> Result<(), DiskError>
    requires settled { D.told → LeavesOnly (D.content disk.old) (D.image disk.old) }
    requires inside { D.told → at ≤ length (D.content disk.old) }
    requires not_long { length payload.now ≤ longest_record }
    requires near { at ≤ 1000000000000 }
    ensures written { D.told → OnOk result (Wrote at (framed payload.now) (D.content disk.old) (D.content disk.new)) }
    ensures settled { D.told → OnOk result (LeavesOnly (D.content disk.new) (D.image disk.new)) }
    ensures moments { D.told
        → Throughout ⟦<D as Disk>⟧ disk.old disk.new (Torn at (length payload.now + 5) (D.content disk.old)) }
    ensures cause { HasCause Failed Memory (D.counts disk.old) (D.counts disk.new) result }
    ensures follows { D.follows disk.old disk.new }
{
    let length = payload.len() as u32;
    disk.write_at(at, &length.to_be_bytes())?;
    disk.write_at(at + 4, payload)?;
    disk.write_at(at + 4 + u64::from(length), &[SHUT])?;
    disk.sync()?;
    Ok(())
}

/// What stands in front of the records: the magic, and a gate that is shut.
const HEADER: [u8; 9] = *b"DCGKAJ1\n\0";

/// Writes the magic and the first gate where the disk is bare.
fn begin<D: Disk>(disk: &mut D, layout: &Layout) -> Result<(), DiskError>
    requires holds { D.told → Holds (D.content disk.old) (D.image disk.old)
        layout.now.rooms.items layout.now.gate layout.now.is_bare }
    ensures begun { D.told → OnOk result (D.content disk.new ≡ with_header (D.content disk.old)) }
    ensures settled { D.told → OnOk result (LeavesOnly (D.content disk.new) (D.image disk.new)) }
    ensures moments { D.told → Throughout ⟦<D as Disk>⟧ disk.old disk.new (IsBeginning (D.content disk.old)) }
    ensures cause { HasCause Failed Memory (D.counts disk.old) (D.counts disk.new) result }
    ensures follows { D.follows disk.old disk.new }
{
    if layout.is_bare {
        store(disk, 0, &HEADER)
    } else {
        Ok(())
    }
}

/// Writes a record behind the last gate, with a gate behind it, and then opens the gate before it.
pub(crate) fn append_record<D: Disk>(
    disk: &mut D,
    layout: &Layout,
    payload: &[u8],
) -> Result<(), DiskError>
    requires holds { D.told → Holds (D.content disk.old) (D.image disk.old)
        layout.now.rooms.items layout.now.gate layout.now.is_bare }
    requires few { vec_len layout.now.rooms < most_records }
    requires not_empty { 1 ≤ length payload.now }
    requires not_long { length payload.now ≤ longest_record }
    ensures appended { D.told → OnOk result (Appended
        (D.content disk.old) (D.content disk.new) layout.now.rooms.items layout.now.gate payload.now) }
    ensures bytes { D.told → OnOk result
        (D.content disk.new ≡ with_record (D.content disk.old) (layout.now.gate + 1) payload.now) }
    ensures settled { D.told → OnOk result (LeavesOnly (D.content disk.new) (D.image disk.new)) }
    ensures moments { D.told → Throughout ⟦<D as Disk>⟧ disk.old disk.new
        (IsAppending (D.content disk.old) (layout.now.gate + 1) payload.now) }
    ensures cause { HasCause Failed Memory (D.counts disk.old) (D.counts disk.new) result }
    ensures follows { D.follows disk.old disk.new }
{
    begin(disk, layout)?;
    store_record(disk, layout.gate + 1, payload)?;
    store(disk, layout.gate, &[OPEN])
}
