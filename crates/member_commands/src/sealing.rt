//! The header of a next message, and its body.

ghost use Rattle.std.specs.Prelude.{◌↔◌, ◌≤◌, length, IsTrue, IfErr, IfOk};
ghost use Rattle.group_fields.specs.Headers.{HasSpelling, SuitsKind};
ghost use Rattle.group_model.specs.Membership.{ids_named};
ghost use Rattle.group_model.specs.Messages.{AreHeads};
ghost use Rattle.group_messages.specs.Messages.{ids_of};
ghost use Rattle.causal_history.specs.Bits.{bit};
ghost use Rattle.causal_history.specs.Rows.{history_of};
ghost use Rattle.secret_book.specs.HeldBooks.{held};
ghost use Rattle.next_messages.specs.Headers.{IsNextHeader};
ghost use Rattle.member_commands.specs.Commands.{IsPlain};
ghost use Rattle.member_commands.specs.Making.{IsBodyFor};
ghost use Rattle.member_commands.specs.Refusing.{AreReached, IsUnbegun, IsUnsealed, StaysAfter};

use crate::refusal::NotMade;
use body_parts::can_reach;
use causal_history::{Crowd, History};
use group_fields::{Bytes, Cards, Header, Kind, MemberId, Target};
use kem_trait::Kem;
use member_view::Membership;
use next_messages::{addressees_of, next_header, next_seeded};
use secret_book::Book;
use std::alloc::Global;

// The header of the member's next message, with zero bytes as the digest of its body.
pub(crate) fn begin<K: Kem>(
    history: &History,
    me: &MemberId,
    random: &[u8; 32],
    kind: Kind,
    target: Target,
) -> Result<Header, NotMade>
    requires suits { SuitsKind kind target }
    requires room { length history.now ≤ 4095 }
    ensures next { IfOk result (IsNextHeader K.SET history.now me.now.0.0 random.now kind target) }
    ensures refused { IfErr result (IsUnbegun history.now) }
{
    match next_header::<K>(history, me, random, kind, target)? {
        Some(header) => Ok(header),
        None => Err(NotMade::Unfit),
    }
}

// Whether each place of the history that is in the crowd can be reached.
fn are_reached<K: Kem>(book: &Book<K>, history: &History, to: Crowd) -> bool
    ensures { IsTrue result
        ↔ AreReached (held book.now) (length (ids_named (history_of history.now))) (bit to.0) }
{
    for place in 0..history.places() {
        if to.has(place) && !can_reach(book, place) {
            return false;
        }
    }
    true
}

// Makes the body for a header: whom it is due to doesn't depend on the digest of the body.
pub(crate) fn seal<K: Kem, G: Membership>(
    alloc: Global,
    book: &mut Book<K>,
    history: &History,
    header: &Header,
    random: &[u8; 32],
) -> Result<Bytes, NotMade>
    requires plain { IsPlain header.now.kind }
    requires spelled { HasSpelling header.now }
    requires heads { AreHeads (history_of history.now) (ids_of header.now.predecessors) }
    ensures body { IfOk result (IsBodyFor ⟦<K as Kem>⟧ G.rule history.now random.now header.now (held book.old)
        (held book.new)) }
    ensures refused { IfErr result (IsUnsealed ⟦<K as Kem>⟧ G.rule history.now random.now header.now
        (held book.old)) }
    ensures unmoved { IfErr result (λ why. StaysAfter why book.old book.new) }
{
    let _few = history.places();
    let Some(to) = addressees_of::<G>(alloc, history, header)? else {
        return Err(NotMade::Repeated);
    };
    if !are_reached(book, history, to) {
        return Err(NotMade::Unfit);
    }
    let cards = Cards::new(alloc);
    let body = next_seeded::<K>(alloc, book, history, header, to, &cards, random)?;
    Ok(body)
}
