ghost use Rattle.std.specs.Prelude.{◌≡◌, [], length, true, None, Ok, IfOk, IsErrOf, OnOk};
ghost use Rattle.std.specs.Option.{option_to_list};
ghost use Rattle.group_fields.specs.Layouts.{Spells};
ghost use Rattle.member_identity.specs.Identity.{secret_from};
ghost use Rattle.member_journal.specs.Journal.{places, disk_of};
ghost use Rattle.mailbox_cli.specs.Call.{devices, moment};
ghost use Rattle.mailbox_cli.specs.Parts.{Tells};
ghost use Rattle.mailbox_cli.specs.Steps.{has_key, init_record};
ghost use Rattle.mailbox_cli.specs.Story.{init_step, init_story, seed_story};

use crate::answer::{refuse, say};
use crate::devices::draw;
use crate::ended::{Ended, Refusal};
use crate::step::{Opened, commit, init_record, inviter_id};
use disk_trait::Disk;
use group_fields::{Bytes, MemberId};
use kem_trait::{Kem, KemRefusal};
use mail_trait::{Entropy, Post, Sink};
use member_identity::Identity;
use member_journal::Journal;
use std::alloc::Global;

/// Makes the member where there is none.
pub(crate) fn init<K: Kem, D: Disk, P: Post, E: Entropy, S: Sink>(
    alloc: Global,
    inviter: Option<MemberId>,
    opened: Opened<K, D>,
    post: &mut P,
    entropy: &mut E,
    out: &mut S,
) -> (D, Ended)
    requires { opened.member ≡ None → length (places opened.journal) ≡ 0 }
    ensures { let on = devices ⟦<D as Disk>⟧ ⟦<P as Post>⟧ ⟦<E as Entropy>⟧ ⟦<S as Sink>⟧ in
        let steps = option_to_list opened.member in
        Tells ⟦<K as Kem>⟧ on (init_story ⟦<K as Kem>⟧ inviter steps) (Ok steps)
        (moment (disk_of opened.journal) post.old entropy.old out.old)
        (moment result.0 post.new entropy.new out.new) result.1 }
{
    let Opened { journal, member } = opened;
    if member.is_some() {
        let ended = refuse(alloc, Refusal::AlreadyMade, out);
        return (journal.close(), ended);
    }
    match draw(entropy) {
        Err(ended) => (journal.close(), ended),
        Ok(random) => make::<K, D, P, E, S>(alloc, inviter, &random, journal, post, entropy, out),
    }
}

/// Makes the member of random bytes where there is none, makes its step durable and tells so.
fn make<K: Kem, D: Disk, P: Post, E: Entropy, S: Sink>(
    alloc: Global,
    inviter: Option<MemberId>,
    random: &[u8; 32],
    journal: Journal<D>,
    post: &mut P,
    entropy: &mut E,
    out: &mut S,
) -> (D, Ended)
    requires { length (places journal) ≡ 0 }
    ensures { let on = devices ⟦<D as Disk>⟧ ⟦<P as Post>⟧ ⟦<E as Entropy>⟧ ⟦<S as Sink>⟧ in
        Tells ⟦<K as Kem>⟧ on (λ seeds. seed_story ⟦<K as Kem>⟧ inviter random.now) (Ok [])
        (moment (disk_of journal) post.old entropy.old out.old)
        (moment result.0 post.new entropy.new out.new) result.1 }
{
    match made_record::<K>(alloc, inviter, random) {
        Err(KemRefusal::Memory) => (journal.close(), Ended::NO_MEMORY),
        Err(KemRefusal::NoUsableKey) => {
            let ended = refuse(alloc, Refusal::NoUsableKey, out);
            (journal.close(), ended)
        }
        Ok(bytes) => match commit::<K, D>(journal, bytes.as_slice()) {
            Err((disk, ended)) => (disk, ended),
            Ok(journal) => {
                let ended = say(b"made\n", Ended::DONE, out);
                (journal.close(), ended)
            }
        },
    }
}

/// The record of an `init` whose random bytes give a usable key.
fn made_record<K: Kem>(
    alloc: Global,
    inviter: Option<MemberId>,
    random: &[u8; 32],
) -> Result<Bytes, KemRefusal>
    ensures spells { IfOk result (λ bytes.
        Spells (init_record K.SET) bytes (init_step inviter random.now)) }
    ensures size { IfOk result (λ bytes. length bytes ≡ 67) }
    ensures usable { OnOk result (has_key ⟦<K as Kem>⟧ random.now ≡ true) }
    ensures unusable { IsErrOf result KemRefusal.NoUsableKey → secret_from ⟦<K as Kem>⟧ random.now ≡ None }
{
    let inviter = inviter_id(inviter);
    Identity::<K>::make(alloc, inviter, random)?;
    match init_record(alloc, K::SET, inviter, random) {
        Ok(bytes) => Ok(bytes),
        Err(_) => Err(KemRefusal::Memory),
    }
}
