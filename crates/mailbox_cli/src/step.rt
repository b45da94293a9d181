ghost use Rattle.std.specs.Prelude.{◌≡◌, ◌<◌, ◌≤◌, ◌+◌, ◌^◌, ℕ, List, [], ◌∷◌, length, slice_get, Some};
ghost use Rattle.std.specs.Prelude.{None, Ok, Err, IfOk, IfErr, IfSome, IsErrOf, OnOk, true};
ghost use Rattle.std.specs.Option.{option_to_list};
ghost use Rattle.disk_trait.specs.Disk.{LeavesOnly};
ghost use Rattle.group_fields.specs.LayoutReads.{Takes, read_whole, whole_seen};
ghost use Rattle.group_fields.specs.Layouts.{Spells};
ghost use Rattle.member_journal.specs.Journal.{disk_of, entries, records, places};
ghost use Rattle.member_journal.specs.Scan.{FaultHasCause, KeepsDisk};
ghost use Rattle.member_journal.specs.declared.fault.JournalFault.TheVariants.{NotJournal};
ghost use Rattle.member_journal.specs.Format.{most_records, longest_record};
ghost use Rattle.mailbox_cli.specs.Opening.{disk_after, fault_in, IsNext};
ghost use Rattle.mailbox_cli.specs.Call.{IsFaultOf};
ghost use Rattle.mailbox_cli.specs.Parts.{DiskDid, DiskStops};
ghost use Rattle.mailbox_cli.specs.StepViews.{step_of};
ghost use Rattle.mailbox_cli.specs.Steps.{Step, inviter_of, init_record, has_key, member_of, steps_of};
ghost use Rattle.mailbox_cli.specs.Story.{Event, plans};

use crate::ended::Ended;
use disk_trait::Disk;
use group_fields::{
    Bytes, Cursor, Digest, FieldFault, MemberId, Memory, append_bytes, append_digest, append_known,
    end, take_bytes, take_digest, take_known,
};
use kem_trait::{Kem, KemRefusal};
use member_identity::Identity;
use member_journal::{Journal, JournalFault};
use std::alloc::{AllocError, Global};

/// The kind of a record that makes a member.
const INIT: u8 = 1;

/// The height of the signing tree of each member of this program.
pub(crate) const TREE_HEIGHT: u8 = 10;

/// The record of an `init` of a member whose keys are of a set.
pub(crate) fn init_record(
    alloc: Global,
    set: u8,
    inviter: MemberId,
    random: &[u8; 32],
) -> Result<Bytes, Memory>
    ensures spells { IfOk result (λ bytes.
        Spells (init_record set) bytes (record { inviter = inviter.0.0; random = random.now })) }
    ensures size { IfOk result (λ bytes. length bytes ≡ 67) }
{
    let mut bytes = Vec::new(alloc);
    append_known(&mut bytes, &[INIT])?;
    append_known(&mut bytes, &[set])?;
    append_known(&mut bytes, &[TREE_HEIGHT])?;
    append_digest(&mut bytes, inviter.0)?;
    append_bytes(&mut bytes, random)?;
    Ok(Bytes::from(bytes))
}

/// The inviter's id, or 32 zero bytes for nobody.
pub(crate) fn inviter_id(inviter: Option<MemberId>) -> MemberId
    ensures { result.0.0 ≡ inviter_of inviter }
{
    inviter.unwrap_or(MemberId(Digest([0; 32])))
}

/// A journal, and the member that its first record makes, if it has one.
pub(crate) struct Opened<K: Kem, D: Disk> {
    pub(crate) journal: Journal<D>,
    pub(crate) member: Option<Identity<K>>,
}

/// Opens the journal of a member. Its first record has to make the member, and no second one is known yet.
pub(crate) fn open_member<K: Kem, D: Disk>(
    alloc: Global,
    disk: D,
) -> Result<Opened<K, D>, (D, JournalFault)>
    ensures steps { D.told → IfOk result (λ opened.
        steps_of ⟦<K as Kem>⟧ (D.content disk) ≡ Ok (option_to_list opened.member)) }
    ensures usable { IfOk result (λ opened. IfSome opened.member (λ member.
        has_key ⟦<K as Kem>⟧ member.random ≡ true)) }
    ensures bare { IfOk result (λ opened. opened.member ≡ None → length (places opened.journal) ≡ 0) }
    ensures settled { D.told → IfOk result (λ opened. LeavesOnly (D.content disk) (D.image (disk_of opened.journal))) }
    ensures keeps { KeepsDisk ⟦<D as Disk>⟧ disk (disk_after (λ opened. disk_of opened.journal) result) }
    ensures not_journal { D.told → IfErr result (λ refused. (place : ℕ) → refused.1 ≡ NotJournal place
        → steps_of ⟦<K as Kem>⟧ (D.content disk) ≡ Err place) }
    ensures cause { FaultHasCause ⟦<D as Disk>⟧ disk (disk_after (λ opened. disk_of opened.journal) result)
        (fault_in result) }
{
    let mut journal = Journal::open(alloc, disk)?;
    if journal.count() == 0 {
        return Ok(Opened {
            journal,
            member: None,
        });
    }
    match read_member(alloc, &mut journal) {
        Err(fault) => Err((journal.close(), fault)),
        Ok(member) => {
            if journal.count() > 1 {
                let place = journal.place(1);
                return Err((journal.close(), JournalFault::NotJournal(place)));
            }
            Ok(Opened {
                journal,
                member: Some(member),
            })
        }
    }
}

/// The member that the first record of a journal makes.
fn read_member<K: Kem, D: Disk>(
    alloc: Global,
    journal: &mut Journal<D>,
) -> Result<Identity<K>, JournalFault>
    requires { 0 < length (places journal.old) }
    ensures member { D.told → IfOk result (λ member. (first : List ℕ)
        × (slice_get (records journal.old) 0 ≡ Some first) × (member_of ⟦<K as Kem>⟧ first ≡ Some member)) }
    ensures usable { IfOk result (λ member. has_key ⟦<K as Kem>⟧ member.random ≡ true) }
    ensures no_member { D.told → (place : ℕ) → IsErrOf result (NotJournal place) → (first : List ℕ)
        × (slice_get (records journal.old) 0 ≡ Some first) × (member_of ⟦<K as Kem>⟧ first ≡ None) }
    ensures place { (place : ℕ) → IsErrOf result (NotJournal place) → slice_get (places journal.old) 0 ≡ Some place }
    ensures same { D.told → entries journal.new ≡ entries journal.old }
    ensures places { places journal.new ≡ places journal.old }
    ensures keeps { KeepsDisk ⟦<D as Disk>⟧ (disk_of journal.old) (disk_of journal.new) }
    ensures cause { FaultHasCause ⟦<D as Disk>⟧ (disk_of journal.old) (disk_of journal.new) result }
{
    let first = journal.read(0)?;
    match member_of(alloc, first.as_slice())? {
        Some(member) => Ok(member),
        None => Err(JournalFault::NotJournal(journal.place(0))),
    }
}

/// The member that a record makes: one of an `init` whose random bytes give a usable key.
fn member_of<K: Kem>(alloc: Global, bytes: &[u8]) -> Result<Option<Identity<K>>, Memory>
    ensures { IfOk result (λ member. member ≡ member_of ⟦<K as Kem>⟧ bytes.now) }
{
    let Ok(init) = read_init(bytes, K::SET) else {
        return Ok(None);
    };
    match Identity::make(alloc, init.inviter, init.random) {
        Ok(member) => Ok(Some(member)),
        Err(KemRefusal::NoUsableKey) => Ok(None),
        Err(KemRefusal::Memory) => Err(AllocError),
    }
}

/// The fields of the record of an `init` that tell its member.
#[derive(Drop)]
struct InitRecord<'a> {
    inviter: MemberId,
    random: &'a [u8; 32],
}

/// The fields of the record of an `init` of a member whose keys are of a set.
#[tactic(auto, unfolding(crate::specs::Steps::init_record, group_fields::specs::LayoutReads::read))]
fn take_init<'a>(cursor: &mut Cursor<'a>, set: u8) -> Result<InitRecord<'a>, FieldFault>
    requires { cursor.old.place < 2 ^ 31 }
    ensures takes { Takes step_of (init_record set) cursor.old cursor.new result }
    ensures moved { OnOk result (cursor.new.place ≡ cursor.old.place + 67) }
{
    take_known(cursor, &[INIT])?;
    take_known(cursor, &[set])?;
    take_known(cursor, &[TREE_HEIGHT])?;
    let inviter = take_digest(cursor)?;
    let random = take_bytes(cursor, 32)?;
    Ok(InitRecord {
        inviter: MemberId(inviter),
        random: random.as_array().unwrap(),
    })
}

/// The fields of the record of an `init`, and nothing may be left over.
#[tactic(auto, using(group_fields::proofs::WholeReads::whole_end, group_fields::proofs::WholeReads::whole_stop))]
fn read_init(bytes: &[u8], set: u8) -> Result<InitRecord<'_>, FieldFault>
    ensures { read_whole (init_record set) 0 bytes.now ≡ whole_seen step_of result }
{
    let mut cursor = Cursor::new(bytes);
    let init = take_init(&mut cursor, set)?;
    end(&mut cursor)?;
    Ok(init)
}

/// Makes a step durable by its record.
pub(crate) fn commit<K: Kem, D: Disk>(
    journal: Journal<D>,
    bytes: &[u8],
) -> Result<Journal<D>, (D, Ended)>
    requires few { length (places journal) < most_records }
    requires not_empty { 1 ≤ length bytes.now }
    requires not_long { length bytes.now ≤ longest_record }
    ensures did { D.told → (steps : List Step) (step : Step) → IsNext ⟦<K as Kem>⟧ journal bytes.now steps step
        → IfOk result (λ next. DiskDid ⟦<K as Kem>⟧ ⟦<D as Disk>⟧ (plans step ∷ []) (Ok steps)
        (disk_of journal) (disk_of next)) }
    ensures stops { D.told → (steps : List Step) (step : Step) (later : List Event)
        → IsNext ⟦<K as Kem>⟧ journal bytes.now steps step
        → IfErr result (λ refused. DiskStops ⟦<K as Kem>⟧ ⟦<D as Disk>⟧ (IsFaultOf 4 (D.counts (disk_of journal))
        (D.counts refused.0) refused.1) (plans step ∷ later) (Ok steps) (disk_of journal) refused.0) }
    ensures counts { IfOk result (λ next. D.counts (disk_of next) ≡ D.counts (disk_of journal)) }
    ensures cause { IfErr result (λ refused. IsFaultOf 4 (D.counts (disk_of journal)) (D.counts refused.0) refused.1) }
{
    match journal.append(bytes) {
        Ok(journal) => Ok(journal),
        Err((disk, JournalFault::Disk)) => Err((disk, Ended::DISK_FAULT)),
        Err((disk, JournalFault::Memory)) => Err((disk, Ended::NO_MEMORY)),
        Err((_, JournalFault::NotJournal(_))) => unreachable!(),
    }
}
