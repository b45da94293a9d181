//! Laws of first packets. Each function does nothing; its contract is the law.

ghost use Rattle.std.specs.Prelude.{◌≡◌, List, Some};
ghost use Rattle.group_messages.specs.Messages.{message_of};
ghost use Rattle.group_model.specs.Sets.{Id};
ghost use Rattle.group_model.specs.Membership.{NamedOnce};
ghost use Rattle.group_model.specs.Messages.{Add};
ghost use Rattle.causal_history.specs.Rows.{Row, IsKept, history_of};
ghost use Rattle.member_view.specs.Causes.{IsFirst};
ghost use Rattle.wire_codec.specs.Packets.{Packet, WelcomeRows};
ghost use Rattle.causal_cast.specs.declared.verdict.Verdict.TheVariants as answers;
ghost use Rattle.welcome_history.specs.Joining.{Joining, first_verdicts};
ghost use Rattle.welcome_history.specs.Welcomes.{IsReadable, IsWelcomeOf, rows_of};

use group_messages::named_ids_are_few;

/// The history that an add hands on may be read where the add is ready.
pub fn what_is_ready_may_be_read()
    ensures { (F : Joining) (packet : Packet) (welcome : WelcomeRows) (y : Id)
        → (message_of packet.header).kind ≡ Add y → packet.history ≡ Some welcome
        → IsFirst (first_verdicts F packet) answers.Ready → IsReadable welcome }
{}

/// What is handed on of a history in which each id is named once reads back as this history.
pub fn what_is_handed_on_reads_back()
    ensures { (rows : List Row) (welcome : WelcomeRows) → IsKept rows → NamedOnce (history_of rows)
        → IsWelcomeOf rows welcome → rows_of welcome ≡ rows }
{
    named_ids_are_few();
}
