//! Laws of histories. Each function does nothing; its contract is the law.

ghost use Rattle.std.specs.Prelude.{◌≡◌, ◌↔◌, ℕ, Bool, List, [], ◌∷◌, ◌++◌, Some, length, slice_get};
ghost use Rattle.group_fields.specs.Cards.{card_id};
ghost use Rattle.group_fields.specs.declared.card.Card.{Card};
ghost use Rattle.group_model.specs.Sets.{Id, In, IsDistinct};
ghost use Rattle.group_model.specs.Messages.{Message, History, IsHistory};
ghost use Rattle.group_model.specs.Membership.{ids_named};
ghost use Rattle.group_model.specs.Marks.{HasNumber, IsPlace, MarksPast, marked};
ghost use Rattle.causal_history.specs.Rows.{Row, IsKept, card_in, history_of, row_message, senders_of};

/// A row's number is its place in the list of rows, which as a history is newest first. A past that is marked is a
/// history.
pub fn rows_are_messages()
    ensures pushed { (rows : List Row) (row : Row) → history_of (rows ++ row ∷ []) ≡ row_message row ∷ history_of rows }
    ensures none { history_of [] ≡ [] }
    ensures size { (rows : List Row) → length (history_of rows) ≡ length rows }
    ensures number { (rows : List Row) (i : ℕ) (row : Row) → slice_get rows i ≡ Some row
        → HasNumber (history_of rows) i (row_message row) }
    ensures row { (rows : List Row) (i : ℕ) (m : Message) → HasNumber (history_of rows) i m
        → (row : Row) × (slice_get rows i ≡ Some row) × (m ≡ row_message row) }
    ensures past { (h : History) (ids : List Id) (marks : ℕ → Bool) → IsHistory h → MarksPast h ids marks
        → IsHistory (marked marks h) }
{}

/// The card of an id is one with this id, and stays the same when rows are pushed. Exactly the ids that the rows name
/// have one.
pub fn cards_are_of_their_ids()
    ensures id { (rows : List Row) (x : Id) (card : Card) → card_in rows x ≡ Some card → card_id card ≡ x }
    ensures stays { (rows : List Row) (row : Row) (x : Id) (card : Card) → card_in rows x ≡ Some card
        → card_in (rows ++ row ∷ []) x ≡ Some card }
    ensures named { (rows : List Row) (x : Id) (card : Card) → IsKept rows → card_in rows x ≡ Some card
        → In x (ids_named (history_of rows)) }
{}

/// Senders have numbers: each who sent a message has one, which stays and is nobody else's.
pub fn senders_have_one_number()
    ensures distinct { (h : History) → IsDistinct (senders_of h) }
    ensures sent { (h : History) (x : Id) → In x (senders_of h) ↔ ((m : Message) × In m h × (m.sender ≡ x)) }
    ensures one_number { (h : History) (x : Id) (p q : ℕ) → IsPlace (senders_of h) p x → IsPlace (senders_of h) q x
        → p ≡ q }
    ensures one_sender { (h : History) (x y : Id) (p : ℕ) → IsPlace (senders_of h) p x → IsPlace (senders_of h) p y
        → x ≡ y }
    ensures stays { (h : History) (m : Message) (x : Id) (p : ℕ) → IsPlace (senders_of h) p x
        → IsPlace (senders_of (m ∷ h)) p x }
{}
