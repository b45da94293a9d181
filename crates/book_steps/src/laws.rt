//! Laws of the steps of a member's book. Each function does nothing; its contract is the law.

ghost use Rattle.book_steps.specs.OwnAcks.{OwnAckSpends, OwnAckSteps};
ghost use Rattle.book_steps.specs.TextEntries.{TextsHeard, TextsSaid};

use kem_trait::Kem;
use member_book::laws::calls_make_the_book;

/// The own ack of an operation is made in three steps: its input is spent, the parts are sealed, and with `took` the
/// own ratchet steps by the input. That leaves the book after the entry, and the step gives the update secret of the
/// entry. Without `took` nothing steps, and there is none.
pub fn own_acks_are_entries<K: Kem>()
    ensures took { OwnAckSteps ⟦<K as Kem>⟧ }
    ensures without { OwnAckSpends ⟦<K as Kem>⟧ }
{
    calls_make_the_book();
}

/// A text that was read at its sender's place, and one that was made at the own place, leave the book after their
/// entries, and the texts that these have.
pub fn texts_are_entries<K: Kem>()
    ensures heard { TextsHeard ⟦<K as Kem>⟧ }
    ensures said { TextsSaid ⟦<K as Kem>⟧ }
{
    calls_make_the_book();
}
