//! Laws of whom answers are due to. Each function does nothing; its contract is the law.

ghost use Rattle.std.specs.Prelude.{◌≡◌, ℕ, ◌≤◌, Bool, true, false, List, [], ◌∷◌, length};
ghost use Rattle.group_fields.specs.declared.header.Header.{Header};
ghost use Rattle.group_fields.specs.declared.ids.Digest.{Digest};
ghost use Rattle.group_model.specs.Sets.{Id};
ghost use Rattle.group_model.specs.Messages.{Ack, Add, AddAck, Text, AreHeads, History, IsHistory, Message};
ghost use Rattle.group_model.specs.Membership.{AreAddressees, IsForwardedTo, IsMembershipRule, ids_named};
ghost use Rattle.group_model.specs.Marks.{IsCrowd, IsPlace};
ghost use Rattle.group_messages.specs.Messages.{ids_of, kind_of, message_of};
ghost use Rattle.causal_history.specs.Rows.{Row, history_of};
ghost use Rattle.body_parts.specs.declared.addressing.Receiver.{Receiver};
ghost use Rattle.body_parts.specs.Receivers.{AreReceivers, ids_to};
ghost use Rattle.forwarding.specs.Answers.{IsAnswerOf};
ghost use Rattle.next_messages.specs.Due.{IsDueTo, IsNew, message_with};

use body_parts::receivers_are_addressees;
use causal_cast::addressees_are_of_the_past;

/// The receivers of the crowd that every ack with `took` forwards to are the addressees of the ack with any body, at
/// most 31.
pub fn forwarded_receivers_are_addressees()
    ensures { (rule : History → List Id) → IsMembershipRule rule → (rows : List Row) (header : Header)
        (bits : ℕ → Bool) (me : ℕ) (o : Id) → kind_of header ≡ Ack o true → IsHistory (history_of rows)
        → AreHeads (history_of rows) (ids_of header.predecessors)
        → IsPlace (ids_named (history_of rows)) me header.sender.0.0
        → ((m : Message) → IsAnswerOf (history_of rows) me m
        → IsCrowd (ids_named (history_of rows)) bits (λ y. IsForwardedTo rule (history_of rows) o m y))
        → (to : List Receiver) → AreReceivers (ids_named (history_of rows)) bits to
        → (digest : Digest) → IsNew rows (message_with header digest)
        → AreAddressees rule (message_with header digest ∷ history_of rows) (message_with header digest) (ids_to to)
        × (length to ≤ 31) }
{
    receivers_are_addressees();
    addressees_are_of_the_past();
}

/// An add-ack is due to one member at most.
pub fn handed_receivers_are_few()
    ensures { (rule : History → List Id) (rows : List Row) (header : Header) (bits : ℕ → Bool)
        → IsDueTo rule rows header bits → IsHistory (history_of rows)
        → AreHeads (history_of rows) (ids_of header.predecessors) → (o : Id) → kind_of header ≡ AddAck o
        → (to : List Receiver) → AreReceivers (ids_named (message_of header ∷ history_of rows)) bits to
        → length to ≤ 1 }
{}

/// An add is due to whom it adds alone; a text, and an ack without `took`, to nobody.
pub fn some_are_due_by_their_kind()
    ensures add { (rule : History → List Id) (h : History) (m : Message) (y : Id) → m.kind ≡ Add y
        → AreAddressees rule h m (y ∷ []) }
    ensures text { (rule : History → List Id) (h : History) (m : Message) → m.kind ≡ Text
        → AreAddressees rule h m [] }
    ensures refusal { (rule : History → List Id) (h : History) (m : Message) (o : Id) → m.kind ≡ Ack o false
        → AreAddressees rule h m [] }
{}
