//! Laws of the book. Each function does nothing; its contract is the law.

ghost use Rattle.std.specs.Prelude.{ℕ, List};
ghost use Rattle.group_model.specs.Sets.{Bytes};
ghost use Rattle.group_model.specs.Primitives.{KeyPair};
ghost use Rattle.group_model.specs.Pairing.{PairEvent};
ghost use Rattle.secret_book.specs.HeldBooks.{HeldBook};
ghost use Rattle.secret_book.specs.Serving.{ServesPlaces, StartStands, MeetStands, OwnStands, SendStands, OpenStands};
ghost use Rattle.secret_book.specs.Serving.{RefusedStays};

use kem_trait::Kem;

/// What a book holds is a book by places: each call is that at the place, and meeting a place changes nothing.
pub fn a_book_serves_places()
    ensures { (es : ℕ → List PairEvent) (p : ℕ) (b : HeldBook) → ServesPlaces es p b }
{}

/// The pairings of a book stand for the events of its places at the start, when a place is met, after each part that
/// was sent and after each that opened; bytes that open to nothing leave the book as it was.
pub fn pairings_stand<K: Kem>()
    ensures starts { (card : KeyPair) (keys : ℕ → Bytes) (es : ℕ → List PairEvent) → StartStands card keys es }
    ensures meets { (card : KeyPair) (keys : ℕ → Bytes) (es : ℕ → List PairEvent) → MeetStands card keys es }
    ensures own_place { (card : KeyPair) (keys : ℕ → Bytes) (es : ℕ → List PairEvent) → OwnStands card keys es }
    ensures sends { (card : KeyPair) (keys : ℕ → Bytes) (es : ℕ → List PairEvent) → SendStands card keys es }
    ensures opens { (card : KeyPair) (keys : ℕ → Bytes) (es : ℕ → List PairEvent)
        → OpenStands card keys es ⟦<K as Kem>⟧ }
    ensures refused { RefusedStays ⟦<K as Kem>⟧ }
{}
