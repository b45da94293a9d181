//! Laws of what a book holds. Each function does nothing; its contract is the law.

ghost use Rattle.std.specs.Prelude.{◌<◌, ℕ, List, length};
ghost use Rattle.group_model.specs.Sets.{Id};
ghost use Rattle.group_model.specs.Settings.{Owner};
ghost use Rattle.member_book.specs.Books.{BookState};
ghost use Rattle.secret_book.specs.HeldBooks.{HeldBook};
ghost use Rattle.book_standing.specs.Standing.{HeldStands, CallsStand, StartStands, MeetStands, OwnStands};

use kem_trait::Kem;
use member_book::laws::{a_state_serves_a_pairing, places_serve};
use secret_book::{a_book_serves_places, pairings_stand};

/// A book that was begun stands for the first book of the model, and meeting one more member, or the own place, leaves
/// what it stands for.
pub fn meetings_stand<K: Kem>()
    ensures starts { (O : Owner) → StartStands ⟦<K as Kem>⟧ O }
    ensures meets { (O : Owner) → MeetStands ⟦<K as Kem>⟧ O }
    ensures own { (O : Owner) → OwnStands ⟦<K as Kem>⟧ O }
{
    places_serve();
    a_book_serves_places();
    pairings_stand::<K>();
}

/// Each call at the place of a member that was met stands for the same call of the model.
pub fn calls_stand<K: Kem>()
    ensures { (O : Owner) (ids : List Id) (p : ℕ) (b : HeldBook) (state : BookState)
        → HeldStands ⟦<K as Kem>⟧ O ids b state → p < length ids → CallsStand ⟦<K as Kem>⟧ O ids p b state }
{
    places_serve();
    a_book_serves_places();
    pairings_stand::<K>();
    a_state_serves_a_pairing();
}
