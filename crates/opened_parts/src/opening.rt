ghost use Rattle.std.specs.Prelude.{◌≡◌, ◌<◌, ◌∷◌, ℕ, List, length, IsSome, IfSome, IfOk, option_map};
ghost use Rattle.causal_history.specs.Rows.{history_of};
ghost use Rattle.group_messages.specs.Messages.{message_of};
ghost use Rattle.group_model.specs.Marks.{IsPlace};
ghost use Rattle.group_model.specs.Membership.{ids_named};
ghost use Rattle.group_model.specs.Sets.{Id, In};
ghost use Rattle.group_model.specs.Settings.{Owner};
ghost use Rattle.member_book.specs.Books.{BookState};
ghost use Rattle.secret_book.specs.HeldBooks.{held};
ghost use Rattle.book_standing.specs.Standing.{HeldStands};
ghost use Rattle.opened_parts.specs.Opening.{Opens, given_part};

use book_standing::calls_stand;
use causal_history::History;
use group_fields::{HeaderView, Memory};
use kem_trait::Kem;
use member_view::place_with;
use secret_book::Book;
use std::alloc::Global;

/// What taking a message told: whether the part for this member opened, and the update secret of the sender, where it is
/// known.
#[derive(Debug, Drop, Clone, Copy, PartialEq, Eq)]
pub struct Taken {
    pub took: bool,
    pub learned: Option<[u8; 32]>,
}

/// Opens the part from a place, where one is given, and answers its payload. `None` without a part, and where it doesn't
/// open; then the book is as before.
///
/// `Memory` where an allocation was refused; then the book is only to be closed.
pub fn open_part<K: Kem>(
    alloc: Global,
    book: &mut Book<K>,
    place: u8,
    part: Option<&[u8]>,
) -> Result<Option<[u8; 32]>, Memory>
    requires met { place < length book.old.places }
    requires other { IfSome part (λ _. IsSome ((held book.old).pairing place)) }

    // Of each book of the model that the book stands for.
    ensures opened { IfOk result (λ payload. (O : Owner) (ids : List Id) (state : BookState)
        → HeldStands ⟦<K as Kem>⟧ O ids (held book.old) state → place < length ids
        → Opens ⟦<K as Kem>⟧ O ids place (given_part ⟦<K as Kem>⟧ (option_map (λ p. p.now) part.entry)) payload state
        (held book.new)) }

    // No place was met besides.
    ensures places { IfOk result (λ _. length book.new.places ≡ length book.old.places) }
{
    calls_stand::<K>();
    match part {
        None => Ok(None),
        Some(bytes) => Ok(book.open_from(alloc, place, bytes)?),
    }
}

/// The place of the sender of a message, among those that the history names and those that the message names besides.
pub fn sender_place(history: &History, header: &HeaderView<'_>) -> u8
    requires { In (message_of header.now).sender (ids_named (message_of header.now ∷ history_of history.now)) }
    ensures place { IsPlace (ids_named (message_of header.now ∷ history_of history.now)) result
        (message_of header.now).sender }
    ensures small { result < 64 }
{
    match place_with(history, Some(header), &header.sender()) {
        Some(place) => place,
        None => unreachable!(),
    }
}
