//! How the book moves by an add and its answer, once what opened is known.

ghost use Rattle.std.specs.Prelude.{◌≡◌, ◌<◌, ◌∷◌, ℕ, Bool, List, [], length, cond, None, Some, IfOk, OnOk};
ghost use Rattle.group_keys.specs.Primitives.{primitives_of};
ghost use Rattle.group_messages.specs.Messages.{message_of};
ghost use Rattle.group_model.specs.KeyTerms.{add_word, welcome_word};
ghost use Rattle.group_model.specs.Marks.{IsPlace};
ghost use Rattle.group_model.specs.Sets.{Id};
ghost use Rattle.group_model.specs.Settings.{Owner};
ghost use Rattle.member_book.specs.Books.{BookState, hand, keep};
ghost use Rattle.member_book.specs.Places.{id_at};
ghost use Rattle.secret_book.specs.HeldBooks.{held, secret_by, stepped};
ghost use Rattle.book_standing.specs.Standing.{HeldStands};
ghost use Rattle.add_ops.specs.Moves.{MovesAdd};

use book_standing::calls_stand;
use group_fields::{HeaderView, Memory, MessageId};
use kem_trait::Kem;
use secret_book::Book;

// What opened, where it is this member's to take.
pub(crate) fn where_own(own: bool, opened: Option<[u8; 32]>) -> Option<[u8; 32]>
    ensures { result ≡ cond own opened None }
{
    if own { opened } else { None }
}

// Takes the ratchet of a place, where one was handed.
pub(crate) fn hand_ratchet<K: Kem>(book: &mut Book<K>, place: u8, ratchet: Option<[u8; 32]>)
    requires { place < length book.old.places }
    ensures stands { (O : Owner) (ids : List Id) (state : BookState)
        → HeldStands ⟦<K as Kem>⟧ O ids (held book.old) state → place < length ids
        → HeldStands ⟦<K as Kem>⟧ O ids (held book.new) (hand (id_at ids place) ratchet state) }
    ensures places { length book.new.places ≡ length book.old.places }
{
    calls_stand::<K>();
    if let Some(ratchet) = ratchet {
        book.hand(place, ratchet);
    }
}

// Steps the ratchet of a place by "welcome".
#[tactic(auto, unfolding(group_model::specs::KeyTerms::welcome_word))]
fn step_by_welcome<K: Kem>(book: &mut Book<K>, place: u8) -> Option<[u8; 32]>
    requires { place < length book.old.places }
    ensures secret { result
        ≡ secret_by (primitives_of ⟦<K as Kem>⟧) (Some welcome_word) ((held book.old).ratchet place) }
    ensures book { held book.new ≡ stepped (primitives_of ⟦<K as Kem>⟧) place (Some welcome_word) (held book.old) }
{
    book.step(place, Some(b"welcome"))
}

// Steps the ratchet of a place by "add".
#[tactic(auto, unfolding(group_model::specs::KeyTerms::add_word))]
pub(crate) fn step_by_add<K: Kem>(book: &mut Book<K>, place: u8) -> Option<[u8; 32]>
    requires { place < length book.old.places }
    ensures secret { result
        ≡ secret_by (primitives_of ⟦<K as Kem>⟧) (Some add_word) ((held book.old).ratchet place) }
    ensures book { held book.new ≡ stepped (primitives_of ⟦<K as Kem>⟧) place (Some add_word) (held book.old) }
{
    book.step(place, Some(b"add"))
}

// Keeps the input of the answer of a place to an operation, where it is known.
fn keep_known<K: Kem>(
    book: &mut Book<K>,
    of: MessageId,
    place: u8,
    input: Option<[u8; 32]>,
) -> Result<(), Memory>
    requires { place < length book.old.places }
    ensures stands { OnOk result ((O : Owner) (ids : List Id) (state : BookState)
        → HeldStands ⟦<K as Kem>⟧ O ids (held book.old) state → place < length ids
        → HeldStands ⟦<K as Kem>⟧ O ids (held book.new) (keep of.0.0 (id_at ids place ∷ []) (λ y. input) state)) }
    ensures places { OnOk result (length book.new.places ≡ length book.old.places) }
{
    calls_stand::<K>();
    match input {
        Some(secret) => book.keep(of, place, secret),
        None => Ok(()),
    }
}

// Keeps the input of the ack of who is added, which the sender's step by "welcome" gives, and steps the sender's
// ratchet again, by "add".
pub(crate) fn move_add<K: Kem>(
    book: &mut Book<K>,
    add: &HeaderView<'_>,
    place: u8,
    target: u8,
) -> Result<Option<[u8; 32]>, Memory>
    requires sender { place < length book.old.places }
    requires target { target < length book.old.places }
    ensures { IfOk result (λ learned. (O : Owner) (ids : List Id) (y : Id) (state : BookState)
        → HeldStands ⟦<K as Kem>⟧ O ids (held book.old) state
        → IsPlace ids place (message_of add.now).sender → IsPlace ids target y
        → MovesAdd ⟦<K as Kem>⟧ O (message_of add.now) y ids state learned (held book.new)) }
{
    calls_stand::<K>();
    let welcome = step_by_welcome::<K>(book, place);
    keep_known::<K>(book, add.id(), target, welcome)?;
    Ok(step_by_add::<K>(book, place))
}
