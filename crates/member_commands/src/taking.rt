//! The own message is taken: the book steps, and the history gets its row.

ghost use Rattle.std.specs.Prelude.{◌≡◌, ◌≤◌, ◌∷◌, [], ◌++◌, length, IfErr, IfOk, OnErr, OnOk};
ghost use Rattle.group_messages.specs.Messages.{ids_of, message_of};
ghost use Rattle.group_model.specs.Marks.{IsPlace};
ghost use Rattle.group_model.specs.Membership.{ids_named};
ghost use Rattle.group_model.specs.Messages.{AreHeads};
ghost use Rattle.causal_history.specs.Rows.{history_of};
ghost use Rattle.secret_book.specs.HeldBooks.{held};
ghost use Rattle.next_messages.specs.Due.{IsNew};
ghost use Rattle.member_commands.specs.Commands.{IsPlain};
ghost use Rattle.member_commands.specs.Making.{IsTakenBy, plain_row};

use book_steps::take_own;
use causal_history::History;
use group_fields::{Cards, HeaderView, Memory};
use hkdf_seal::kdf;
use kem_trait::Kem;
use member_view::Membership;
use secret_book::Book;
use std::alloc::Global;

// Takes the member's own message over the history before it, and pushes its row. The parts of the message are sealed.
pub(crate) fn take_next<K: Kem, G: Membership>(
    alloc: Global,
    history: &mut History,
    book: &mut Book<K>,
    place: u8,
    header: &HeaderView<'_>,
    random: &[u8; 32],
) -> Result<Option<[u8; 32]>, Memory>
    requires plain { IsPlain header.now.kind }
    requires heads { AreHeads (history_of history.old) (ids_of header.now.predecessors) }
    requires new { IsNew history.old (message_of header.now) }
    requires room { length history.old ≤ 4095 }
    requires met { length book.old.places ≡ length (ids_named (history_of history.old)) }
    requires own { IsPlace (ids_named (history_of history.old)) place header.now.sender.0.0 }
    ensures rows { OnOk result (history.new ≡ history.old ++ plain_row header.now ∷ []) }
    ensures kept { OnErr result (history.new ≡ history.old) }
    ensures taken { IfOk result (IsTakenBy ⟦<K as Kem>⟧ G.rule history.old random.now header.now place (held book.old)
        (held book.new)) }
{
    let _few = history.places();
    let seed = kdf(random, b"seed", &[]);
    let learned = take_own::<K, G>(alloc, book, history, place, header, &seed)?;
    history.push(header, &Cards::new(alloc))?;
    Ok(learned)
}
