ghost use Rattle.std.specs.Prelude.{◌≡◌, ℕ, true, IfOk};
ghost use Rattle.causal_history.specs.Bits.{bit};
ghost use Rattle.causal_history.specs.Rows.{history_of};
ghost use Rattle.group_model.specs.Sets.{Id};
ghost use Rattle.group_model.specs.Membership.{ids_named};
ghost use Rattle.group_model.specs.Marks.{IsPlace};
ghost use Rattle.secret_book.specs.HeldBooks.{held};
ghost use Rattle.body_parts.specs.Sending.{CanSend, IsPartsBody};

use body_parts::parts_body;
use causal_history::{Crowd, History};
use group_fields::{Bytes, Memory};
use kem_trait::Kem;
use secret_book::Book;
use std::alloc::Global;
use two_party::PartDraws;

/// Makes the body of an ack: the acknowledger's secret, sealed to each member of a crowd of the history, ascending by
/// their ids. Of an ack that took its operation's secret this crowd is that of `forward_to`; of any other it is nobody.
///
/// A part can be made for each of the crowd. With `Memory`, where an allocation was refused, the book may have moved and
/// is only to be closed.
pub fn make_ack<K: Kem>(
    alloc: Global,
    book: &mut Book<K>,
    history: &History,
    to: Crowd,
    secret: &[u8; 32],
    draws: PartDraws<K>,
) -> Result<Bytes, Memory>
    requires { (p : ℕ) (id : Id) → IsPlace (ids_named (history_of history.now)) p id → bit to.0 p ≡ true
        → CanSend (held book.old) draws p id }
    ensures { IfOk result (IsPartsBody ⟦<K as Kem>⟧ (ids_named (history_of history.now)) (bit to.0) secret.now draws
        (held book.old) (held book.new)) }
{
    parts_body(alloc, book, history, to, secret, draws)
}
