//! Laws of texts. Each function does nothing; its contract is the law.

ghost use Rattle.std.specs.Prelude.{◌≡◌, ◌<◌, ℕ, List, length, Option, Some};
ghost use Rattle.group_model.specs.Knowledge.{text_opened, text_sealed};
ghost use Rattle.group_model.specs.Sets.{Bytes, Id};
ghost use Rattle.group_model.specs.Settings.{Owner};
ghost use Rattle.group_keys.specs.Primitives.{primitives_of};
ghost use Rattle.member_book.specs.Books.{BookState};
ghost use Rattle.secret_book.specs.HeldBooks.{HeldBook};
ghost use Rattle.book_standing.specs.Standing.{HeldStands};
ghost use Rattle.app_messages.specs.Texts.{TextsStand};

use book_standing::calls_stand;
use kem_trait::Kem;

/// The texts of a place that was met are those of the member there in the model.
pub fn texts_are_the_models<K: Kem>()
    ensures { (O : Owner) (ids : List Id) (p : ℕ) (b : HeldBook) (state : BookState)
        → HeldStands ⟦<K as Kem>⟧ O ids b state → p < length ids → TextsStand ⟦<K as Kem>⟧ O ids p b state }
{
    calls_stand::<K>();
}

/// What was sealed by a text chain opens by the same chain, to the text.
pub fn texts_read_back<K: Kem>()
    ensures { (chain : Option Bytes) (text sealed : Bytes)
        → text_sealed (primitives_of ⟦<K as Kem>⟧) chain text ≡ Some sealed
        → text_opened (primitives_of ⟦<K as Kem>⟧) chain sealed ≡ Some text }
{}
