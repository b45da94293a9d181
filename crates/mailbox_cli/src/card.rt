ghost use Rattle.std.specs.Prelude.{◌≡◌, true, Ok, Some, IfOk, IfSome, string_bytes};
ghost use Rattle.std.specs.Option.{option_to_list};
ghost use Rattle.sha2.specs.Sha256.{sha256};
ghost use Rattle.member_identity.specs.Identity.{HasCards, card_bytes};
ghost use Rattle.member_journal.specs.Journal.{disk_of};
ghost use Rattle.mailbox_cli.specs.Call.{devices, moment};
ghost use Rattle.mailbox_cli.specs.Lines.{card_line};
ghost use Rattle.mailbox_cli.specs.Parts.{Tells};
ghost use Rattle.mailbox_cli.specs.Steps.{has_key, tree_height};
ghost use Rattle.mailbox_cli.specs.Story.{card_story, file_name};

use crate::answer::{refuse, say};
use crate::devices::put;
use crate::ended::{Ended, Refusal};
use crate::step::{Opened, TREE_HEIGHT};
use disk_trait::Disk;
use group_fields::{Bytes, Memory};
use kem_trait::Kem;
use mail_trait::{Entropy, Post, Sink};
use member_identity::Identity;
use sha2::{Digest, Sha256};
use std::alloc::Global;

/// Puts the member's card into the mail folder and tells its id.
pub(crate) fn card<K: Kem, D: Disk, P: Post, E: Entropy, S: Sink>(
    alloc: Global,
    opened: Opened<K, D>,
    post: &mut P,
    entropy: &mut E,
    out: &mut S,
) -> (D, Ended)
    requires cards { HasCards ⟦<K as Kem>⟧ tree_height }
    requires usable { IfSome opened.member (λ member. has_key ⟦<K as Kem>⟧ member.random ≡ true) }
    ensures { let on = devices ⟦<D as Disk>⟧ ⟦<P as Post>⟧ ⟦<E as Entropy>⟧ ⟦<S as Sink>⟧ in
        let steps = option_to_list opened.member in
        Tells ⟦<K as Kem>⟧ on (λ seeds. card_story ⟦<K as Kem>⟧ steps) (Ok steps)
        (moment (disk_of opened.journal) post.old entropy.old out.old)
        (moment result.0 post.new entropy.new out.new) result.1 }
{
    let Opened { journal, member } = opened;
    let disk = journal.close();
    let Some(member) = member else {
        return (disk, refuse(alloc, Refusal::NotMade, out));
    };
    match card_file(alloc, &member) {
        Err(_) => (disk, Ended::NO_MEMORY),
        Ok(file) => match put(file.name.as_str(), file.card.as_slice(), post) {
            Err(ended) => (disk, ended),
            Ok(()) => (disk, say(file.line.as_bytes(), Ended::DONE, out)),
        },
    }
}

/// A card, the name of its file and the line that tells its id.
#[derive(Drop)]
struct CardFile {
    card: Bytes,
    name: String,
    line: String,
}

/// The card of a member with its name and its line.
fn card_file<K: Kem>(alloc: Global, member: &Identity<K>) -> Result<CardFile, Memory>
    requires { HasCards ⟦<K as Kem>⟧ tree_height }
    ensures card { IfOk result (λ file. card_bytes ⟦<K as Kem>⟧ tree_height member.now ≡ Some file.card) }
    ensures name { IfOk result (λ file. string_bytes file.name ≡ file_name file.card) }
    ensures line { IfOk result (λ file. string_bytes file.line ≡ card_line (sha256 file.card)) }
{
    let card = member.card(alloc, TREE_HEIGHT.into())?;
    let id = hex::encode(alloc, Sha256::digest(card.as_slice()))?;
    let name = format!(in alloc; "{id}.card")?;
    let line = format!(in alloc; "card {id}\n")?;
    Ok(CardFile { card, name, line })
}
