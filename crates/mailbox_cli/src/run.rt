ghost use Rattle.std.specs.Prelude.{◌≡◌, true, None, Ok, IfSome, length};
ghost use Rattle.std.specs.Option.{option_to_list};
ghost use Rattle.member_identity.specs.Identity.{HasCards};
ghost use Rattle.member_journal.specs.Journal.{disk_of, places};
ghost use Rattle.mailbox_cli.specs.Call.{Carries, HasCauses, IsComplete, call_of, devices, moment};
ghost use Rattle.mailbox_cli.specs.Opening.{EndsOpening};
ghost use Rattle.mailbox_cli.specs.Parts.{Tells};
ghost use Rattle.mailbox_cli.specs.Steps.{has_key, tree_height};
ghost use Rattle.mailbox_cli.specs.Story.{command_story};

use crate::answer::refuse;
use crate::card::card;
use crate::ended::{Ended, Refusal};
use crate::init::init;
use crate::step::{Opened, open_member};
use crate::{Command, read_command};
use disk_trait::Disk;
use group_fields::Text;
use kem_trait::Kem;
use mail_trait::{Entropy, Post, Sink};
use member_journal::JournalFault;
use ntru_prime::Sntrup761;
use std::alloc::Global;

/// Carries out one command of a member: its words, the disk with its journal, its mail folder, a source of random bytes
/// and the output for its lines. The disk is handed back beside the answer.
pub fn run<D: Disk, P: Post, E: Entropy, S: Sink>(
    alloc: Global,
    words: &[Text],
    disk: D,
    post: &mut P,
    entropy: &mut E,
    out: &mut S,
) -> (D, Ended)
    // The story of the words was carried out so far, and each failure has its cause.
    ensures carries { let on = devices ⟦<D as Disk>⟧ ⟦<P as Post>⟧ ⟦<E as Entropy>⟧ ⟦<S as Sink>⟧ in
        let before = moment disk post.old entropy.old out.old in
        let after = moment result.0 post.new entropy.new out.new in
        Carries ⟦<Sntrup761 as Kem>⟧ on (call_of words.now before after result.1) }
    ensures causes { let on = devices ⟦<D as Disk>⟧ ⟦<P as Post>⟧ ⟦<E as Entropy>⟧ ⟦<S as Sink>⟧ in
        let before = moment disk post.old entropy.old out.old in
        let after = moment result.0 post.new entropy.new out.new in
        HasCauses on before after result.1 }
    ensures complete { let on = devices ⟦<D as Disk>⟧ ⟦<P as Post>⟧ ⟦<E as Entropy>⟧ ⟦<S as Sink>⟧ in
        let before = moment disk post.old entropy.old out.old in
        let after = moment result.0 post.new entropy.new out.new in
        IsComplete ⟦<Sntrup761 as Kem>⟧ on (call_of words.now before after result.1) }
{
    run_with::<Sntrup761, D, P, E, S>(alloc, words, disk, post, entropy, out)
}

/// Carries out one command of a member whose pair is of this key encapsulation.
pub(crate) fn run_with<K: Kem, D: Disk, P: Post, E: Entropy, S: Sink>(
    alloc: Global,
    words: &[Text],
    disk: D,
    post: &mut P,
    entropy: &mut E,
    out: &mut S,
) -> (D, Ended)
    requires { HasCards ⟦<K as Kem>⟧ tree_height }
    ensures carries { let on = devices ⟦<D as Disk>⟧ ⟦<P as Post>⟧ ⟦<E as Entropy>⟧ ⟦<S as Sink>⟧ in
        let before = moment disk post.old entropy.old out.old in
        let after = moment result.0 post.new entropy.new out.new in
        Carries ⟦<K as Kem>⟧ on (call_of words.now before after result.1) }
    ensures causes { let on = devices ⟦<D as Disk>⟧ ⟦<P as Post>⟧ ⟦<E as Entropy>⟧ ⟦<S as Sink>⟧ in
        let before = moment disk post.old entropy.old out.old in
        let after = moment result.0 post.new entropy.new out.new in
        HasCauses on before after result.1 }
{
    match read_command(words) {
        None => (disk, refuse(alloc, Refusal::Words, out)),
        Some(command) => match open_member::<K, D>(alloc, disk) {
            Err((disk, fault)) => (disk, end_opening(alloc, fault, out)),
            Ok(opened) => carry_out(alloc, command, opened, post, entropy, out),
        },
    }
}

/// Carries out a command over an open journal.
fn carry_out<K: Kem, D: Disk, P: Post, E: Entropy, S: Sink>(
    alloc: Global,
    command: Command,
    opened: Opened<K, D>,
    post: &mut P,
    entropy: &mut E,
    out: &mut S,
) -> (D, Ended)
    requires cards { HasCards ⟦<K as Kem>⟧ tree_height }
    requires usable { IfSome opened.member (λ member. has_key ⟦<K as Kem>⟧ member.random ≡ true) }
    requires bare { opened.member ≡ None → length (places opened.journal) ≡ 0 }
    ensures { let on = devices ⟦<D as Disk>⟧ ⟦<P as Post>⟧ ⟦<E as Entropy>⟧ ⟦<S as Sink>⟧ in
        let steps = option_to_list opened.member in
        Tells ⟦<K as Kem>⟧ on (command_story ⟦<K as Kem>⟧ command steps (P.files post.old)) (Ok steps)
        (moment (disk_of opened.journal) post.old entropy.old out.old)
        (moment result.0 post.new entropy.new out.new) result.1 }
{
    match command {
        Command::Init(inviter) => init(alloc, inviter, opened, post, entropy, out),
        Command::Card => card(alloc, opened, post, entropy, out),
    }
}

/// Ends a call whose journal did not open.
fn end_opening<S: Sink>(alloc: Global, fault: JournalFault, out: &mut S) -> Ended
    ensures { EndsOpening ⟦<S as Sink>⟧ fault out.old out.new result }
{
    match fault {
        JournalFault::Disk => Ended::DISK_FAULT,
        JournalFault::Memory => Ended::NO_MEMORY,
        JournalFault::NotJournal(place) => refuse(alloc, Refusal::NotJournal(place), out),
    }
}
