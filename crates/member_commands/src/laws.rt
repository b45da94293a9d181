//! The law of commands. The function does nothing; its contract is the law.

ghost use Rattle.std.specs.Prelude.{◌≡◌, ◌∷◌, [], ◌++◌, ℕ, List, Option};
ghost use Rattle.group_fields.specs.declared.header.Header.{Header};
ghost use Rattle.group_fields.specs.declared.header.Kind.{Kind};
ghost use Rattle.group_fields.specs.declared.header.Target.{Target};
ghost use Rattle.group_model.specs.Membership.{IsMembershipRule};
ghost use Rattle.group_model.specs.Messages.{History};
ghost use Rattle.group_model.specs.Settings.{Owner};
ghost use Rattle.group_model.specs.Sets.{Bytes, Id};
ghost use Rattle.causal_history.specs.Rows.{Row};
ghost use Rattle.secret_book.specs.HeldBooks.{HeldBook};
ghost use Rattle.reference_member.specs.Members.{Member};
ghost use Rattle.reference_member.specs.Steps.{Input};
ghost use Rattle.member_commands.specs.Commands.{AsksFor, MayMake, given_to};
ghost use Rattle.member_commands.specs.Making.{AreDone, IsMadeBy, closed, plain_row};

use kem_trait::Kem;
use member_book::laws::{
    calls_make_the_book, the_book_carries_what_is_sent, the_book_stands_for_its_log,
};

/// What was done for a command is what the command makes: whatever member after steps has this history and this book,
/// and is refused the input by nothing, the message is its next, and what was made of the history and of the book is
/// what they are with it.
pub fn commands_make_the_next<K: Kem>()
    ensures { (rule : History → List Id) → IsMembershipRule rule → (rows : List Row) (random : Bytes) (me : Id)
        (place : ℕ) (kind : Kind) (target : Target) (header : Header) (body : Bytes) (before sealed after : HeldBook)
        (learned : Option Bytes)
        → AreDone ⟦<K as Kem>⟧ rule rows random me place kind target header body before sealed after learned
        → (input : Input) (M : Member) (O : Owner) → AsksFor input kind target
        → MayMake ⟦<K as Kem>⟧ rule me rows before input M O
        → IsMadeBy ⟦<K as Kem>⟧ rule M O (given_to input random) input (closed header body) body
        (rows ++ plain_row (closed header body) ∷ []) after learned }
{
    the_book_stands_for_its_log();
    calls_make_the_book();
    the_book_carries_what_is_sent();
}
