ghost use Rattle.std.specs.Prelude.{◌≡◌, ◌<◌, ◌∷◌, ℕ, true, length, OnOk};
ghost use Rattle.causal_history.specs.Bits.{bit};
ghost use Rattle.causal_history.specs.Rows.{history_of};
ghost use Rattle.group_keys.specs.Primitives.{primitives_of};
ghost use Rattle.group_messages.specs.Messages.{message_of};
ghost use Rattle.group_model.specs.KeyTerms.{member_secret};
ghost use Rattle.group_model.specs.Marks.{IsPlace};
ghost use Rattle.group_model.specs.Membership.{ids_named};
ghost use Rattle.group_model.specs.Messages.{Stands};
ghost use Rattle.member_book.specs.Places.{id_at};
ghost use Rattle.secret_book.specs.HeldBooks.{held};
ghost use Rattle.member_view.specs.Crowds.{StandsWell};
ghost use Rattle.group_ops.specs.Answers.{NamesAtFirst, answer_kept, answers_kept};

use causal_history::{Crowd, History};
use group_fields::{HeaderView, MemberId, Memory};
use group_messages::named_ids_are_few;
use hkdf_seal::kdf;
use kem_trait::Kem;
use member_view::{Act, act_of};
use secret_book::Book;

// The secret of a member under a seed.
#[tactic(auto, unfolding(group_keys::specs::Primitives::primitives_of, group_model::specs::KeyTerms::member_secret))]
pub(crate) fn secret_of<K: Kem>(seed: &[u8; 32], id: &MemberId) -> [u8; 32]
    ensures { result ≡ member_secret (primitives_of ⟦<K as Kem>⟧) seed.now id.now.0.0 }
{
    kdf(seed, b"member", &id.0.0)
}

// The member at a place, of those that the history names and those that a create names.
fn member_at(history: &History, op: &HeaderView<'_>, place: u8) -> MemberId
    requires names { NamesAtFirst (history_of history.now) (message_of op.now) }
    requires within { place < length (ids_named (message_of op.now ∷ history_of history.now)) }
    ensures { IsPlace (ids_named (message_of op.now ∷ history_of history.now)) place result.0.0 }
{
    if place < history.places() {
        return history.member(place);
    }
    let _bytes = op.bytes();
    named_ids_are_few();
    match act_of(op) {
        Act::Create(ids) => MemberId(ids.id(place.into())),
        _ => unreachable!(),
    }
}

// Keeps the input of the answer of a place to an operation, where the place is in the crowd: the secret of its member
// under a seed.
fn keep_answer<K: Kem>(
    book: &mut Book<K>,
    history: &History,
    op: &HeaderView<'_>,
    crowd: Crowd,
    place: u8,
    seed: &[u8; 32],
) -> Result<(), Memory>
    requires names { NamesAtFirst (history_of history.now) (message_of op.now) }
    requires met { length (ids_named (message_of op.now ∷ history_of history.now)) ≡ length book.old.places }
    requires crowd { (p : ℕ) → bit crowd.0 p ≡ true
        → p < length (ids_named (message_of op.now ∷ history_of history.now)) }
    requires small { place < 64 }
    ensures kept { OnOk result (held book.new ≡ answer_kept (message_of op.now).id
        (λ p. member_secret (primitives_of ⟦<K as Kem>⟧) seed.now
        (id_at (ids_named (message_of op.now ∷ history_of history.now)) p)) (bit crowd.0) place (held book.old)) }
    ensures places { OnOk result (length book.new.places ≡ length book.old.places) }
{
    if !crowd.has(place) {
        return Ok(());
    }
    let member = member_at(history, op, place);
    book.keep(op.id(), place, secret_of::<K>(seed, &member))
}

// Keeps the inputs of the answers of a crowd to an operation: the secrets of its members under a seed.
pub(crate) fn keep_answers<K: Kem>(
    book: &mut Book<K>,
    history: &History,
    op: &HeaderView<'_>,
    crowd: Crowd,
    seed: &[u8; 32],
) -> Result<(), Memory>
    requires names { NamesAtFirst (history_of history.now) (message_of op.now) }
    requires met { length (ids_named (message_of op.now ∷ history_of history.now)) ≡ length book.old.places }
    requires crowd { (p : ℕ) → bit crowd.0 p ≡ true
        → p < length (ids_named (message_of op.now ∷ history_of history.now)) }
    ensures kept { OnOk result (held book.new ≡ answers_kept (message_of op.now).id
        (λ p. member_secret (primitives_of ⟦<K as Kem>⟧) seed.now
        (id_at (ids_named (message_of op.now ∷ history_of history.now)) p)) (bit crowd.0) 64 (held book.old)) }
    ensures places { OnOk result (length book.new.places ≡ length book.old.places) }
{
    for place in 0..64 {
        keep_answer::<K>(book, history, op, crowd, place, seed)?;
    }
    Ok(())
}
