//! The call of a command that makes an update or a remove.

ghost use Rattle.std.specs.Prelude.{◌≡◌, ◌≤◌, ◌∷◌, [], ◌++◌, length, IfErr, IfOk, OnErr, OnOk};
ghost use Rattle.group_fields.specs.Headers.{HasSpelling, Spells, SuitsKind, spelling};
ghost use Rattle.group_messages.specs.Messages.{ids_of, message_of};
ghost use Rattle.group_model.specs.Marks.{IsPlace};
ghost use Rattle.group_model.specs.Membership.{ids_named};
ghost use Rattle.group_model.specs.Messages.{AreHeads};
ghost use Rattle.group_model.specs.Settings.{Owner};
ghost use Rattle.causal_history.specs.Rows.{history_of};
ghost use Rattle.secret_book.specs.HeldBooks.{held};
ghost use Rattle.reference_member.specs.Members.{Member};
ghost use Rattle.reference_member.specs.Steps.{Input};
ghost use Rattle.next_messages.specs.Due.{IsNew};
ghost use Rattle.member_commands.specs.Commands.{AsksFor, IsPlain, MayMake, given_to};
ghost use Rattle.member_commands.specs.Making.{IsTakenBy, IsWritten, MakesNext, plain_row};
ghost use Rattle.member_commands.specs.Refusing.{IsUnmade, IsUntaken, StaysAfter};

use crate::laws::commands_make_the_next;
use crate::refusal::NotMade;
use crate::sealing::{begin, seal};
use crate::taking::take_next;
use causal_history::History;
use group_fields::{Bytes, Header, Kind, MemberId, MessageId, Target, read_header, write_header};
use kem_trait::Kem;
use member_view::Membership;
use next_messages::with_body;
use secret_book::Book;
use std::alloc::Global;

/// A message that a member made: the bytes of its header and of its body, its id, its number among the member's own,
/// and the own update secret, `None` where the own ratchet isn't known, and of a text.
#[derive(Drop)]
pub struct MadeNext {
    pub header: Bytes,
    pub body: Bytes,
    pub id: MessageId,
    pub seq: u32,
    pub learned: Option<[u8; 32]>,
}

// The bytes of a header, where its message is new.
pub(crate) fn write_next(
    alloc: Global,
    history: &History,
    header: &Header,
) -> Result<Bytes, NotMade>
    requires spelled { HasSpelling header.now }
    ensures spells { IfOk result (λ bytes. Spells header.now bytes) }
    ensures whole { IfOk result (λ bytes. bytes ≡ spelling header.now) }
    ensures new { OnOk result (IsNew history.now (message_of header.now)) }
    ensures refused { IfErr result (IsUntaken history.now header.now) }
{
    let bytes = write_header(alloc, header)?;
    let id = read_header(bytes.as_slice()).unwrap().id();
    match history.find(&id) {
        Some(_) => Err(NotMade::Repeated),
        None => Ok(bytes),
    }
}

// Takes the message of a header whose body was made, where it is new.
fn finish<K: Kem, G: Membership>(
    alloc: Global,
    history: &mut History,
    book: &mut Book<K>,
    place: u8,
    header: &Header,
    body: Bytes,
    random: &[u8; 32],
) -> Result<MadeNext, NotMade>
    requires spelled { HasSpelling header.now }
    requires plain { IsPlain header.now.kind }
    requires heads { AreHeads (history_of history.old) (ids_of header.now.predecessors) }
    requires room { length history.old ≤ 4095 }
    requires met { length book.old.places ≡ length (ids_named (history_of history.old)) }
    requires own { IsPlace (ids_named (history_of history.old)) place header.now.sender.0.0 }
    ensures written { IfOk result (IsWritten header.now) }
    ensures body { IfOk result (λ made. made.body ≡ body) }
    ensures new { OnOk result (IsNew history.old (message_of header.now)) }
    ensures rows { OnOk result (history.new ≡ history.old ++ plain_row header.now ∷ []) }
    ensures taken { IfOk result (λ made. IsTakenBy ⟦<K as Kem>⟧ G.rule history.old random.now header.now place
        (held book.old) (held book.new) made.learned) }
    ensures kept { OnErr result (history.new ≡ history.old) }
    ensures refused { IfErr result (IsUntaken history.old header.now) }
{
    let bytes = write_next(alloc, history, header)?;
    let view = read_header(bytes.as_slice()).unwrap();
    let id = view.id();
    let seq = view.seq();
    let learned = take_next::<K, G>(alloc, history, book, place, &view, random)?;
    Ok(MadeNext {
        header: bytes,
        body,
        id,
        seq,
        learned,
    })
}

/// Makes an update or a remove as a member's next message, with a step's 32 random bytes: its header, its body with a
/// part for each whom it is due to, and the own ratchet's step. The history gets its row, and the book is the one after
/// it.
///
/// The place is the member's own in the history, the book has met exactly whom the history names, and there is room for
/// one row more. Whatever member after steps has this id, this history and this book, where nothing refuses it the
/// command: the message is the one that it makes.
///
/// After an error the history is as it was. The book is as it was with `NoUsableKey` and `Unfit`; with `Repeated` and
/// `Memory` it may have moved, and is only to be closed.
pub fn make_seeded_message<K: Kem, G: Membership>(
    alloc: Global,
    history: &mut History,
    book: &mut Book<K>,
    me: &MemberId,
    place: u8,
    kind: Kind,
    target: Target,
    random: &[u8; 32],
) -> Result<MadeNext, NotMade>
    requires plain { IsPlain kind }
    requires suits { SuitsKind kind target }
    requires room { length history.old ≤ 4095 }
    requires own { IsPlace (ids_named (history_of history.old)) place me.now.0.0 }
    requires met { length book.old.places ≡ length (ids_named (history_of history.old)) }

    // Of each member after steps that has these, and each input that asks for such a message.
    ensures made { IfOk result (λ made. (input : Input) (M : Member) (O : Owner) → AsksFor input kind target
        → MayMake ⟦<K as Kem>⟧ G.rule me.now.0.0 history.old (held book.old) input M O
        → MakesNext ⟦<K as Kem>⟧ G.rule M O (given_to input random.now) input made history.new (held book.new)) }
    ensures kept { OnErr result (history.new ≡ history.old) }
    ensures refused { IfErr result (IsUnmade ⟦<K as Kem>⟧ G.rule history.old random.now me.now.0.0 kind target
        (held book.old)) }
    ensures unmoved { IfErr result (λ why. StaysAfter why book.old book.new) }
{
    commands_make_the_next::<K>();
    let _kept = history.count();
    let header = begin::<K>(history, me, random, kind, target)?;
    let body = seal::<K, G>(alloc, book, history, &header, random)?;
    let header = with_body(header, body.as_slice());
    let made = finish::<K, G>(alloc, history, book, place, &header, body, random)?;
    Ok(made)
}
