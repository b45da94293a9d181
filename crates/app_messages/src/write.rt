ghost use Rattle.std.specs.Prelude.{◌≡◌, ◌<◌, ◌≤◌, ◌+◌, ℕ, List, length, IfOk, IfSome, OnOk, OnErr, option_map};
ghost use Rattle.group_keys.specs.Primitives.{primitives_of};
ghost use Rattle.group_model.specs.Knowledge.{text_sealed};
ghost use Rattle.group_model.specs.Sets.{Id};
ghost use Rattle.group_model.specs.Settings.{Owner};
ghost use Rattle.hkdf_seal.specs.Sealing.{sealed_with_tag};
ghost use Rattle.member_book.specs.Books as model;
ghost use Rattle.member_book.specs.Books.{BookState};
ghost use Rattle.member_book.specs.Places.{id_at};
ghost use Rattle.secret_book.specs.HeldBooks.{held, chained, text_key_of};
ghost use Rattle.book_standing.specs.Standing.{HeldStands};
ghost use Rattle.app_messages.specs.Texts.{IsTextBody, body_bytes};

use crate::laws::texts_are_the_models;
use group_fields::{Bytes, Memory};
use kem_trait::Kem;
use secret_book::Book;
use sender_ratchet::MessageKey;
use std::alloc::Global;

// So many zero bytes.
fn zeros(alloc: Global, count: usize) -> Result<Vec<u8>, Memory>
    ensures { IfOk result (λ bytes. length bytes.items ≡ count) }
{
    Ok(vec![in alloc; 0; count]?)
}

// Writes the body of a text: its size, the text sealed under a key, and the tag.
fn write_body(key: MessageKey, text: &[u8], into: &mut [u8])
    requires short { length text.now ≤ 4096 }
    requires room { length into.old ≡ length text.now + 34 }
    ensures { into.new ≡ body_bytes (length text.now) (sealed_with_tag key text.now) }
{
    let (size, rest) = into.split_at_mut(2);
    let (sealed, tag) = rest.split_at_mut(text.len());
    size.copy_from_slice(&(text.len() as u16).to_be_bytes());
    sealed.copy_from_slice(text);
    let made = key.seal(sealed);
    tag.copy_from_slice(&made);
}

// Makes the body of the next text of a place.
fn seal_next<K: Kem>(
    alloc: Global,
    book: &mut Book<K>,
    place: u8,
    text: &[u8],
) -> Result<Option<Bytes>, Memory>
    requires short { length text.now ≤ 4096 }
    requires met { place < length book.old.places }
    ensures body { IfOk result (λ body. body
        ≡ option_map (λ key. body_bytes (length text.now) (sealed_with_tag key text.now))
        (text_key_of (primitives_of ⟦<K as Kem>⟧) ((held book.old).chain place))) }
    ensures book { OnOk result (held book.new ≡ chained (primitives_of ⟦<K as Kem>⟧) place (held book.old)) }
    ensures unchanged { OnErr result (book.new ≡ book.old) }
{
    let mut body = zeros(alloc, text.len() + 34)?;
    let Some(key) = book.text_key(place) else {
        return Ok(None);
    };
    write_body(key, text, body.as_mut_slice());
    Ok(Some(Bytes::from(body)))
}

/// Makes the body of a text of the own place: its size, the text sealed under the place's next message key, which is
/// spent, and the tag. `None` exactly where the text chain of the place isn't known; then what the book holds is as
/// before.
///
/// `Memory` where an allocation was refused; then the book is as before.
pub fn make_text<K: Kem>(
    alloc: Global,
    book: &mut Book<K>,
    me: u8,
    text: &[u8],
) -> Result<Option<Bytes>, Memory>
    requires short { length text.now ≤ 4096 }
    requires met { me < length book.old.places }
    ensures body { IfOk result (λ body. body ≡ option_map (body_bytes (length text.now))
        (text_sealed (primitives_of ⟦<K as Kem>⟧) ((held book.old).chain me) text.now)) }

    // The bytes are the spelling of a text's body, which carries the sealed text and its tag.
    ensures spelled { IfOk result (λ body. IfSome body
        (IsTextBody (primitives_of ⟦<K as Kem>⟧) ((held book.old).chain me) text.now)) }
    ensures book { OnOk result (held book.new ≡ chained (primitives_of ⟦<K as Kem>⟧) me (held book.old)) }
    ensures unchanged { OnErr result (book.new ≡ book.old) }

    // The same of each book of the model that the book stands for.
    ensures of_model { IfOk result (λ body. (O : Owner) (ids : List Id) (state : BookState)
        → HeldStands ⟦<K as Kem>⟧ O ids (held book.old) state → me < length ids
        → body ≡ option_map (body_bytes (length text.now))
        (text_sealed O.primitives (state.chain (id_at ids me)) text.now)) }
    ensures stands { OnOk result ((O : Owner) (ids : List Id) (state : BookState)
        → HeldStands ⟦<K as Kem>⟧ O ids (held book.old) state → me < length ids
        → HeldStands ⟦<K as Kem>⟧ O ids (held book.new) (model.chained O.primitives (id_at ids me) state)) }
{
    texts_are_the_models::<K>();
    seal_next::<K>(alloc, book, me, text)
}
