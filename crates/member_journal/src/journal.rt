ghost use Rattle.std.specs.Prelude.{◌≡◌, ◌<◌, ◌≤◌, ◌++◌, ◌+◌, [], ◌∷◌, List, ℕ, length, slice_get};
ghost use Rattle.std.specs.Prelude.{Some, Ok, Err, IfOk, IfErr, IsErrOf};
ghost use Rattle.group_fields.specs.Counts.{IsRaised};
ghost use Rattle.disk_trait.specs.Disk.{LeavesOnly};
ghost use Rattle.disk_trait.specs.Moments.{Leaves, Throughout};
ghost use Rattle.member_journal.specs.Append.{IsAppending, with_record};
ghost use Rattle.member_journal.specs.Entries.{IsBeforeOrAfter};
ghost use Rattle.member_journal.specs.Format.{journal_of, most_records, longest_record};
ghost use Rattle.member_journal.specs.Front.{Holds};
ghost use Rattle.member_journal.specs.Scan.{FaultHasCause, KeepsDisk, SyncsFirst};
ghost use Rattle.member_journal.specs.declared.fault.JournalFault.TheVariants.{Memory as OutOfMemory, NotJournal};

use crate::JournalFault;
use crate::append::append_record;
use crate::layout::Layout;
use crate::scan::scan;
use disk_trait::Disk;
use group_fields::Bytes;
use std::alloc::{AllocError, Global};

/// The records of one member behind open gates, over a disk that it owns. `close` gives the disk back, and so does a
/// fault.
pub struct Journal<D: Disk> {
    alloc: Global,
    disk: D,
    layout: Layout,
    ghost holds: { D.told → Holds (D.content disk) (D.image disk) layout.rooms.items layout.gate layout.is_bare },
}

impl<D: Disk> Journal<D> {
    ghost use Rattle.member_journal.specs.Journal.{disk_of, entries, records, places, next_place, HoldsRecords};
    ghost use Rattle.member_journal.specs.Journal.{disk_after, fault_in};

    /// Settles the disk and finds the records on it: each gate and each length is read once, and no record. It takes
    /// the memory for the places of all records that there may be.
    pub fn open(alloc: Global, mut disk: D) -> Result<Journal<D>, (D, JournalFault)>
        ensures records { D.told → IfOk result (λ journal. journal_of (D.content disk) ≡ Ok (entries journal)) }
        ensures holds { D.told → IfOk result (λ journal. HoldsRecords journal) }
        ensures keeps { KeepsDisk ⟦<D as Disk>⟧ disk (disk_after result) }

        // The disk is settled before it is read.
        ensures first { SyncsFirst ⟦<D as Disk>⟧ disk (disk_after result) }

        // Each fault has its cause, and bytes that are no journal are told with their place.
        ensures not_journal { D.told → IfErr result (λ refused. (place : ℕ) → refused.1 ≡ NotJournal place
            → journal_of (D.content disk) ≡ Err place) }
        ensures cause { FaultHasCause ⟦<D as Disk>⟧ disk (disk_after result) (fault_in result) }
    {
        match scan(alloc, &mut disk) {
            Ok(layout) => Ok(Journal {
                alloc,
                disk,
                layout,
            }),
            Err(fault) => Err((disk, fault)),
        }
    }

    /// How many records there are.
    #[tactic(auto, using(crate::proofs::Journals::holds_records))]
    pub fn count(&self) -> u32
        ensures count { result ≡ length (places self.now) }
        ensures few { result ≤ most_records }

        // So it is with each open journal.
        ensures holds { D.told → HoldsRecords self.now }
    {
        self.layout.rooms.len() as u32
    }

    /// The place of a record's length field.
    pub fn place(&self, index: u32) -> u64
        requires { index < length (places self.now) }
        ensures { slice_get (places self.now) index ≡ Some result }
    {
        self.layout.rooms[index as usize].place
    }

    /// A record. Where the disk has fewer bytes than when it was opened, the bytes are no journal at the record's
    /// place.
    #[tactic(auto, using(crate::proofs::Journals::holds_records))]
    pub fn read(&mut self, index: u32) -> Result<Bytes, JournalFault>
        requires { index < length (places self.old) }
        ensures record { D.told → IfOk result (λ bytes. slice_get (records self.old) index ≡ Some bytes) }
        ensures same { D.told → entries self.new ≡ entries self.old }
        ensures holds { D.told → HoldsRecords self.new }
        ensures places { places self.new ≡ places self.old }
        ensures next { next_place self.new ≡ next_place self.old }
        ensures keeps { KeepsDisk ⟦<D as Disk>⟧ (disk_of self.old) (disk_of self.new) }
        ensures journal { D.told → (place : ℕ) → IsErrOf result (NotJournal place) → ⊥ }
        ensures short { (place : ℕ) → IsErrOf result (NotJournal place)
            → slice_get (places self.old) index ≡ Some place }
        ensures cause { FaultHasCause ⟦<D as Disk>⟧ (disk_of self.old) (disk_of self.new) result }
    {
        let room = self.layout.rooms[index as usize];
        let mut bytes = zeros(self.alloc, room.length as usize)?;
        let count = self.disk.read(room.place + 4, bytes.as_mut_slice())?;
        if count < bytes.len() {
            return Err(JournalFault::NotJournal(room.place));
        }
        Ok(Bytes::from(bytes))
    }

    /// Adds a record. It takes no memory. At `Ok` the record is durable: every crash from then on leaves it. A fault
    /// gives the disk back, which stands for the records before or for these with the new one, and is to be opened
    /// again.
    pub fn append(self, payload: &[u8]) -> Result<Journal<D>, (D, JournalFault)>
        requires few { length (places self) < most_records }
        requires not_empty { 1 ≤ length payload.now }
        requires not_long { length payload.now ≤ longest_record }
        ensures appended { D.told → IfOk result (λ journal.
            entries journal ≡ entries self ++ record { place = next_place self; bytes = payload.now } ∷ []) }
        ensures bytes { D.told → IfOk result (λ journal.
            D.content (disk_of journal) ≡ with_record (D.content (disk_of self)) (next_place self) payload.now) }
        ensures holds { D.told → IfOk result (λ journal. HoldsRecords journal) }
        ensures places { IfOk result (λ journal. places journal ≡ places self ++ next_place self ∷ []) }
        ensures next { IfOk result (λ journal. next_place journal ≡ next_place self + 5 + length payload.now) }

        // A crash at any moment of the call, and after it, leaves the records before it, with the new one or without.
        ensures leaves { D.told → Leaves ⟦<D as Disk>⟧ (disk_of self) (disk_after result)
            (IsBeforeOrAfter (entries self) (record { place = next_place self; bytes = payload.now })) }
        ensures moments { D.told → Throughout ⟦<D as Disk>⟧ (disk_of self) (disk_after result)
            (IsAppending (D.content (disk_of self)) (next_place self) payload.now) }

        // Each fault is the disk's, and the bytes are a journal all the time.
        ensures cause { FaultHasCause ⟦<D as Disk>⟧ (disk_of self) (disk_after result) (fault_in result) }
        ensures want { IsErrOf (fault_in result) OutOfMemory
            → IsRaised (D.counts (disk_of self)).wants (D.counts (disk_after result)).wants }
        ensures journal { (place : ℕ) → IsErrOf (fault_in result) (NotJournal place) → ⊥ }
        ensures follows { D.follows (disk_of self) (disk_after result) }
    {
        let Journal {
            alloc,
            mut disk,
            mut layout,
        } = self;
        match append_record(&mut disk, &layout, payload) {
            Ok(()) => {
                layout.begin();
                layout.add(payload.len() as u32);
                Ok(Journal {
                    alloc,
                    disk,
                    layout,
                })
            }
            Err(error) => Err((disk, JournalFault::from(error))),
        }
    }

    /// The disk.
    pub fn close(self) -> D
        ensures { result ≡ disk_of self }
    {
        let Journal {
            alloc: _,
            disk,
            layout: _,
        } = self;
        disk
    }
}

/// As many zeros.
fn zeros(alloc: Global, count: usize) -> Result<Vec<u8>, AllocError>
    ensures { IfOk result (λ bytes. length bytes.items ≡ count) }
{
    vec![in alloc; 0; count]
}
