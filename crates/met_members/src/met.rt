//! Whether a book has met exactly whom a history names.

ghost use Rattle.std.specs.Prelude.{◌≡◌, ◌≢◌, ◌↔◌, ◌<◌, length, IsTrue, IsSome};
ghost use Rattle.group_model.specs.Marks.{IsPlace};
ghost use Rattle.group_model.specs.Membership.{ids_named};
ghost use Rattle.group_model.specs.Sets.{Id};
ghost use Rattle.causal_history.specs.Rows.{history_of};
ghost use Rattle.secret_book.specs.HeldBooks.{held};
ghost use Rattle.met_members.specs.Meeting.{AreMet};

use crate::meeting::is_same;
use causal_history::History;
use group_fields::MemberId;
use kem_trait::Kem;
use secret_book::Book;

// Whether the member at a place has a pairing, or is the own one.
fn has_pairing<K: Kem>(book: &Book<K>, history: &History, me: &MemberId, place: u8) -> bool
    requires place { place < length (ids_named (history_of history.now)) }
    requires count { length book.now.places ≡ length (ids_named (history_of history.now)) }
    ensures { IsTrue result ↔ ((x : Id) → IsPlace (ids_named (history_of history.now)) place x → x ≢ me.now.0.0
        → IsSome ((held book.now).pairing place)) }
{
    let id = history.member(place);
    is_same(&id, me) || book.sends(place).is_some()
}

/// Whether a book has met exactly the members that a history names, in the order of their places, and each but the own
/// one has a pairing.
pub fn is_met<K: Kem>(book: &Book<K>, history: &History, me: &MemberId) -> bool
    ensures { IsTrue result ↔ AreMet (ids_named (history_of history.now)) me.now.0.0 book.now }
{
    if book.met() != history.places() as usize {
        return false;
    }
    for place in 0..history.places() {
        if !has_pairing(book, history, me, place) {
            return false;
        }
    }
    true
}
