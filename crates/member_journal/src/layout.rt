ghost use Rattle.std.specs.Prelude.{◌≡◌, ◌+◌, ◌*◌, ◌<◌, ◌≤◌, ◌↔◌, true, false, [], ◌∷◌, ◌++◌, length, map, All};
ghost use Rattle.std.specs.Prelude.{IfOk, IsTrue, vec_len, vec_capacity};
ghost use Rattle.member_journal.specs.Format.{most_records, longest_record};
ghost use Rattle.member_journal.specs.Room.{FitsBefore, longest_room};

use crate::room::Room;
use std::alloc::{AllocError, Global};

/// The most records of a journal.
const MOST_RECORDS: usize = 16_384;

/// Where the records of a journal lie, and where its last gate stands. A bare disk has no gate yet: its first is to
/// stand behind the magic.
#[derive(Debug, Drop)]
pub(crate) struct Layout {
    pub(crate) rooms: Vec<Room>,
    pub(crate) gate: u64,
    pub(crate) is_bare: bool,
    ghost few: { vec_len rooms ≤ most_records },
    ghost near: { gate ≤ 8 + longest_room * vec_len rooms },
    ghost reserved: { most_records ≤ vec_capacity rooms },
    ghost fit: { All (FitsBefore gate) rooms.items },
}

impl Layout {
    /// That of an empty journal, with room for the most records.
    pub(crate) fn bare(alloc: Global) -> Result<Layout, AllocError>
        ensures none { IfOk result (λ layout. layout.rooms.items ≡ []) }
        ensures gate { IfOk result (λ layout. layout.gate ≡ 8) }
        ensures is_bare { IfOk result (λ layout. layout.is_bare ≡ true) }
    {
        Ok(Layout {
            rooms: Vec::with_capacity(alloc, MOST_RECORDS)?,
            gate: 8,
            is_bare: true,
        })
    }

    /// Notes that the magic and a gate stand on the disk.
    pub(crate) fn begin(&mut self)
        ensures rooms { self.new.rooms.items ≡ self.old.rooms.items }
        ensures gate { self.new.gate ≡ self.old.gate }
        ensures begun { self.new.is_bare ≡ false }
    {
        self.is_bare = false;
    }

    pub(crate) fn is_full(&self) -> bool
        ensures { IsTrue result ↔ (most_records ≤ vec_len self.now.rooms) }
    {
        self.rooms.len() >= MOST_RECORDS
    }

    /// Notes a record of this length behind the last gate, and the gate behind it.
    pub(crate) fn add(&mut self, length: u32)
        requires few { vec_len self.old.rooms < most_records }
        requires not_empty { 1 ≤ length }
        requires not_long { length ≤ longest_record }
        ensures rooms { self.new.rooms.items
            ≡ self.old.rooms.items ++ record { place = self.old.gate + 1; length = length } ∷ [] }
        ensures gate { self.new.gate ≡ self.old.gate + 5 + length }
        ensures is_bare { self.new.is_bare ≡ self.old.is_bare }
    {
        self.rooms.push_reserved(Room {
            place: self.gate + 1,
            length,
        });
        self.gate += 5 + u64::from(length);
    }
}
