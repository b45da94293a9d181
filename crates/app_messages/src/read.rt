ghost use Rattle.std.specs.Prelude.{◌≡◌, ◌<◌, ◌++◌, ℕ, List, length, IfOk, OnOk, OnErr};
ghost use Rattle.std.specs.Option.{option_and_then};
ghost use Rattle.group_keys.specs.Primitives.{primitives_of};
ghost use Rattle.group_model.specs.Knowledge.{text_opened};
ghost use Rattle.group_model.specs.Sets.{Id};
ghost use Rattle.group_model.specs.Settings.{Owner};
ghost use Rattle.hkdf_seal.specs.Sealing.{opened};
ghost use Rattle.member_book.specs.Books as model;
ghost use Rattle.member_book.specs.Books.{BookState};
ghost use Rattle.member_book.specs.Places.{id_at};
ghost use Rattle.secret_book.specs.HeldBooks.{held, chained, text_key_of};
ghost use Rattle.book_standing.specs.Standing.{HeldStands};

use crate::laws::texts_are_the_models;
use group_fields::{Bytes, Memory};
use kem_trait::Kem;
use secret_book::Book;
use sender_ratchet::MessageKey;
use std::alloc::Global;

// Opens the sealed bytes of a text in place.
fn open(key: MessageKey, sealed: Bytes, tag: &[u8; 32]) -> Option<Bytes>
    ensures { result ≡ opened key (sealed ++ tag.now) }
{
    let mut text = sealed.into_vec();
    key.open(text.as_mut_slice(), tag)?;
    Some(Bytes::from(text))
}

// Opens the next text of a place.
fn open_next<K: Kem>(
    alloc: Global,
    book: &mut Book<K>,
    place: u8,
    body: &[u8],
    tag: &[u8; 32],
) -> Result<Option<Bytes>, Memory>
    requires met { place < length book.old.places }
    ensures text { IfOk result (λ text. text ≡ option_and_then (λ key. opened key (body.now ++ tag.now))
        (text_key_of (primitives_of ⟦<K as Kem>⟧) ((held book.old).chain place))) }
    ensures book { OnOk result (held book.new ≡ chained (primitives_of ⟦<K as Kem>⟧) place (held book.old)) }
    ensures unchanged { OnErr result (book.new ≡ book.old) }
{
    let sealed = Bytes::copy_of(alloc, body)?;
    match book.text_key(place) {
        Some(key) => Ok(open(key, sealed, tag)),
        None => Ok(None),
    }
}

/// Reads a text of a place: opens its sealed bytes by the place's next message key, which is spent, whether they open
/// or not. `None` exactly where the text chain of the place isn't known, or the tag is not that of the bytes.
///
/// `Memory` where an allocation was refused; then the book is as before.
pub fn read_text<K: Kem>(
    alloc: Global,
    book: &mut Book<K>,
    sender: u8,
    body: &[u8],
    tag: &[u8; 32],
) -> Result<Option<Bytes>, Memory>
    requires met { sender < length book.old.places }
    ensures text { IfOk result (λ text. text
        ≡ text_opened (primitives_of ⟦<K as Kem>⟧) ((held book.old).chain sender) (body.now ++ tag.now)) }
    ensures book { OnOk result (held book.new ≡ chained (primitives_of ⟦<K as Kem>⟧) sender (held book.old)) }
    ensures unchanged { OnErr result (book.new ≡ book.old) }

    // The same of each book of the model that the book stands for.
    ensures of_model { IfOk result (λ text. (O : Owner) (ids : List Id) (state : BookState)
        → HeldStands ⟦<K as Kem>⟧ O ids (held book.old) state → sender < length ids
        → text ≡ text_opened O.primitives (state.chain (id_at ids sender)) (body.now ++ tag.now)) }
    ensures stands { OnOk result ((O : Owner) (ids : List Id) (state : BookState)
        → HeldStands ⟦<K as Kem>⟧ O ids (held book.old) state → sender < length ids
        → HeldStands ⟦<K as Kem>⟧ O ids (held book.new) (model.chained O.primitives (id_at ids sender) state)) }
{
    texts_are_the_models::<K>();
    open_next::<K>(alloc, book, sender, body, tag)
}
