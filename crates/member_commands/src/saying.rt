//! The call of a command that makes a text.

ghost use Rattle.std.specs.Prelude.{◌≡◌, ◌<◌, ◌≤◌, ◌∷◌, [], ◌++◌, ℕ, List, None, Some, length, IfErr, IfOk, OnErr, OnOk};
ghost use Rattle.group_fields.specs.Headers.{HasSpelling};
ghost use Rattle.group_fields.specs.declared.header.Header.{Header};
ghost use Rattle.group_fields.specs.declared.header.Kind.TheVariants as kinds;
ghost use Rattle.group_messages.specs.Messages.{ids_of, message_of};
ghost use Rattle.group_model.specs.Marks.{IsPlace};
ghost use Rattle.group_model.specs.Membership.{ids_named};
ghost use Rattle.group_model.specs.Messages.{AreHeads};
ghost use Rattle.group_model.specs.Messages as messages;
ghost use Rattle.group_model.specs.Settings.{Owner};
ghost use Rattle.group_model.specs.Sets.{Bytes, Id};
ghost use Rattle.causal_history.specs.Rows.{Row, history_of};
ghost use Rattle.group_keys.specs.Primitives.{primitives_of};
ghost use Rattle.secret_book.specs.HeldBooks.{HeldBook, chained, held};
ghost use Rattle.app_messages.specs.Texts.{IsTextBody};
ghost use Rattle.reference_member.specs.Members.{Member};
ghost use Rattle.reference_member.specs.Steps.{Send};
ghost use Rattle.next_messages.specs.Due.{IsNew};
ghost use Rattle.member_commands.specs.Commands.{MayMake};
ghost use Rattle.member_commands.specs.Making.{IsWritten, closed, plain_row};
ghost use Rattle.member_commands.specs.Refusing.{IsUntaken};
ghost use Rattle.member_commands.specs.Saying.{IsSaid, IsSaidBy, IsShut, IsUnsaid, SaysNext};

use crate::making::{MadeNext, write_next};
use crate::refusal::NotMade;
use crate::sealing::begin;
use app_messages::make_text;
use book_standing::calls_stand;
use book_steps::texts_are_entries;
use causal_history::History;
use group_fields::{Bytes, Cards, Header, HeaderView, Kind, MemberId, Memory, Target, read_header};
use kem_trait::Kem;
use member_book::laws::the_book_stands_for_its_log;
use member_view::Membership;
use next_messages::with_body;
use secret_book::Book;
use std::alloc::Global;

// What was done for a text is what the command makes, of whatever member after steps has this history and this book
// and is refused the text by nothing. The function does nothing; its contract is the law.
fn texts_are_the_next<K: Kem>()
    ensures { (rule : messages.History → List Id) (rows : List Row) (random : Bytes) (me : Id) (place : ℕ)
        (text : Bytes) (header : Header) (body : Bytes) (before after : HeldBook)
        → IsSaid ⟦<K as Kem>⟧ rows random me place text header body before after → (M : Member) (O : Owner)
        → MayMake ⟦<K as Kem>⟧ rule me rows before (Send text) M O
        → IsSaidBy ⟦<K as Kem>⟧ rule M O random text (closed header body) body
        (rows ++ plain_row (closed header body) ∷ []) after }
{
    the_book_stands_for_its_log();
    texts_are_entries::<K>();
    calls_stand::<K>();
}

/// A member after steps that nothing refuses a text knows the text chain of its own place, and so does its book: none is
/// answered `Unfit` for want of it.
pub fn who_may_speak_has_a_chain<K: Kem>()
    ensures { (rule : messages.History → List Id) (rows : List Row) (me : Id) (place : ℕ) (book : HeldBook)
        (text : Bytes) (M : Member) (O : Owner) → IsPlace (ids_named (history_of rows)) place me
        → MayMake ⟦<K as Kem>⟧ rule me rows book (Send text) M O → (key : Bytes) × (book.chain place ≡ Some key) }
{
    the_book_stands_for_its_log();
    calls_stand::<K>();
}

// Seals the next text of the own place.
fn seal_text<K: Kem>(
    alloc: Global,
    book: &mut Book<K>,
    place: u8,
    text: &[u8],
) -> Result<Bytes, NotMade>
    requires short { length text.now ≤ 4096 }
    requires met { place < length book.old.places }
    ensures sealed { IfOk result
        (IsTextBody (primitives_of ⟦<K as Kem>⟧) ((held book.old).chain place) text.now) }
    ensures moved { OnOk result (held book.new ≡ chained (primitives_of ⟦<K as Kem>⟧) place (held book.old)) }
    ensures refused { IfErr result (IsShut ((held book.old).chain place)) }
{
    match make_text(alloc, book, place, text)? {
        Some(body) => Ok(body),
        None => Err(NotMade::Unfit),
    }
}

// Pushes the row of a text.
fn push_text(alloc: Global, history: &mut History, header: &HeaderView<'_>) -> Result<(), Memory>
    requires kind { header.now.kind ≡ kinds.Text }
    requires heads { AreHeads (history_of history.old) (ids_of header.now.predecessors) }
    requires new { IsNew history.old (message_of header.now) }
    requires room { length history.old ≤ 4095 }
    ensures rows { OnOk result (history.new ≡ history.old ++ plain_row header.now ∷ []) }
    ensures kept { OnErr result (history.new ≡ history.old) }
{
    let _few = history.places();
    history.push(header, &Cards::new(alloc))
}

// Puts the text of a header with its body behind the history, where its message is new.
fn finish_text(
    alloc: Global,
    history: &mut History,
    header: &Header,
    body: Bytes,
) -> Result<MadeNext, NotMade>
    requires spelled { HasSpelling header.now }
    requires kind { header.now.kind ≡ kinds.Text }
    requires heads { AreHeads (history_of history.old) (ids_of header.now.predecessors) }
    requires room { length history.old ≤ 4095 }
    ensures written { IfOk result (IsWritten header.now) }
    ensures body { IfOk result (λ made. made.body ≡ body) }
    ensures none { IfOk result (λ made. made.learned ≡ None) }
    ensures new { OnOk result (IsNew history.old (message_of header.now)) }
    ensures rows { OnOk result (history.new ≡ history.old ++ plain_row header.now ∷ []) }
    ensures kept { OnErr result (history.new ≡ history.old) }
    ensures refused { IfErr result (IsUntaken history.old header.now) }
{
    let bytes = write_next(alloc, history, header)?;
    let view = read_header(bytes.as_slice()).unwrap();
    let id = view.id();
    let seq = view.seq();
    push_text(alloc, history, &view)?;
    Ok(MadeNext {
        header: bytes,
        body,
        id,
        seq,
        learned: None,
    })
}

/// Makes a text as a member's next message, with a step's 32 random bytes: its header, and its body, which has the text
/// of at most 4,096 bytes sealed under the next message key of the own place. That key is spent, the history gets the
/// row of the text, and there is no update secret to learn.
///
/// The place is the member's own in the history, the book has met exactly whom the history names, and there is room for
/// one row more. Whatever member after steps has this id, this history and this book, where nothing refuses it the
/// text: the message is the one that it makes, and its entry has the text.
///
/// `Repeated` only where a row has the id of a header of this text; `Unfit` only where the history has more than 32
/// heads or the text chain of the own place isn't known; `Memory` where an allocation was refused; `NoUsableKey` never.
/// After an error the history is as it was, and the book is only to be closed.
pub fn make_text_message<K: Kem, G: Membership>(
    alloc: Global,
    history: &mut History,
    book: &mut Book<K>,
    me: &MemberId,
    place: u8,
    text: &[u8],
    random: &[u8; 32],
) -> Result<MadeNext, NotMade>
    requires short { length text.now ≤ 4096 }
    requires room { length history.old ≤ 4095 }
    requires own { IsPlace (ids_named (history_of history.old)) place me.now.0.0 }
    requires met { length book.old.places ≡ length (ids_named (history_of history.old)) }

    // Of each member after steps that has these.
    ensures made { IfOk result (λ made. (M : Member) (O : Owner)
        → MayMake ⟦<K as Kem>⟧ G.rule me.now.0.0 history.old (held book.old) (Send text.now) M O
        → SaysNext ⟦<K as Kem>⟧ G.rule M O random.now text.now made history.new (held book.new)) }
    ensures none { IfOk result (λ made. made.learned ≡ None) }
    ensures kept { OnErr result (history.new ≡ history.old) }
    ensures refused { IfErr result (IsUnsaid ⟦<K as Kem>⟧ history.old random.now me.now.0.0 place (held book.old)) }
{
    texts_are_the_next::<K>();
    let _kept = history.count();
    let header = begin::<K>(history, me, random, Kind::Text, Target::Nothing)?;
    let body = seal_text(alloc, book, place, text)?;
    let header = with_body(header, body.as_slice());
    let made = finish_text(alloc, history, &header, body)?;
    Ok(made)
}
