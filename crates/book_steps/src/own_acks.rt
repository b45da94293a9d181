ghost use Rattle.std.specs.Prelude.{◌≡◌, ◌<◌, List, length, option_map};
ghost use Rattle.group_keys.specs.Primitives.{primitives_of};
ghost use Rattle.group_model.specs.Marks.{IsPlace};
ghost use Rattle.group_model.specs.Sets.{Id};
ghost use Rattle.group_model.specs.Settings.{Owner};
ghost use Rattle.member_book.specs.Books.{BookState};
ghost use Rattle.secret_book.specs.HeldBooks.{held, secret_by, stepped};
ghost use Rattle.book_standing.specs.Standing.{HeldStands};
ghost use Rattle.book_steps.specs.OwnAcks.{SpendsOwn, StepsOwn};

use book_standing::calls_stand;
use group_fields::MessageId;
use kem_trait::Kem;
use secret_book::Book;

/// Spends the input that is kept for the own ack of an operation, before the parts of the ack are sealed, which forward
/// it. `None` exactly where none is kept: then the ack can't say that it took the operation's secret. An ack that
/// doesn't say so spends the input as well, and nothing steps by it.
pub fn own_secret<K: Kem>(book: &mut Book<K>, me: u8, operation: &MessageId) -> Option<[u8; 32]>
    requires { me < length book.old.places }

    // Of each book of the model that the book stands for, whose owner has the place.
    ensures spends { (O : Owner) (ids : List Id) (state : BookState)
        → HeldStands ⟦<K as Kem>⟧ O ids (held book.old) state → IsPlace ids me O.id
        → SpendsOwn ⟦<K as Kem>⟧ O ids state operation.now.0.0 result (held book.new) }

    // So the same parts can be made as before.
    ensures pairings { (held book.new).pairing ≡ (held book.old).pairing }
    ensures met { (held book.new).met ≡ (held book.old).met }
{
    calls_stand::<K>();
    book.spend(operation, me)
}

// Steps the ratchet of a place by a secret, where there is one.
fn step_by<K: Kem>(book: &mut Book<K>, place: u8, secret: Option<&[u8; 32]>) -> Option<[u8; 32]>
    requires { place < length book.old.places }
    ensures secret { result ≡ secret_by (primitives_of ⟦<K as Kem>⟧) (option_map (λ s. s.now) secret.entry)
        ((held book.old).ratchet place) }
    ensures book { held book.new
        ≡ stepped (primitives_of ⟦<K as Kem>⟧) place (option_map (λ s. s.now) secret.entry) (held book.old) }
{
    match secret {
        Some(secret) => book.step(place, Some(secret.as_slice())),
        None => book.step(place, None),
    }
}

/// Steps the own ratchet by the secret that an own ack took, once its parts are sealed. Answers the own update secret;
/// `None` where there is no secret or the own ratchet isn't known, and then the ratchet is forgotten.
pub fn step_own_ack<K: Kem>(
    book: &mut Book<K>,
    me: u8,
    secret: Option<&[u8; 32]>,
) -> Option<[u8; 32]>
    requires { me < length book.old.places }

    // Of each book of the model that the book stands for, whose owner has the place.
    ensures { (O : Owner) (ids : List Id) (state : BookState)
        → HeldStands ⟦<K as Kem>⟧ O ids (held book.old) state → IsPlace ids me O.id
        → StepsOwn ⟦<K as Kem>⟧ O ids state (option_map (λ s. s.now) secret.entry) result (held book.new) }
{
    calls_stand::<K>();
    step_by::<K>(book, me, secret)
}
