//! Laws of the definitions. Each function does nothing: its contract is the law.

ghost use Rattle.std.specs.Prelude.{◌≡◌, ◌∷◌, List, Some, None, option_map};
ghost use Rattle.group_model.specs.Sets.{Bytes, Id, In};
ghost use Rattle.group_model.specs.Primitives.{Primitives};
ghost use Rattle.group_model.specs.Pairing.{draws};
ghost use Rattle.member_book.specs.PairStates.{PairState};
ghost use Rattle.two_party.specs.Drawn.{Drawn, drawn_for, left_for, after_take};
ghost use Rattle.two_party.specs.Exchanges.{Exchange, UnderWay};
ghost use Rattle.two_party.specs.Received.{payload_of, received};

use kem_trait::Kem;

/// However two sides send and take parts, each the other's in the order sent, the next part under way opens to the
/// payload that was sent in it. So every part opens, however the two directions cross.
pub fn parts_open<K: Kem>()
    ensures to_second { (a b : Bytes) (ka kb : PairState) (part : UnderWay) (to_second to_first : List UnderWay)
        → Exchange ⟦<K as Kem>⟧ a b ka kb (part ∷ to_second) to_first
        → option_map payload_of (received ⟦<K as Kem>⟧ kb part.bytes) ≡ Some part.payload }
    ensures to_first { (a b : Bytes) (ka kb : PairState) (part : UnderWay) (to_second to_first : List UnderWay)
        → Exchange ⟦<K as Kem>⟧ a b ka kb to_second (part ∷ to_first)
        → option_map payload_of (received ⟦<K as Kem>⟧ ka part.bytes) ≡ Some part.payload }
{}

/// Of each id of the list its draws are left, and of no other id any; after they were taken none are left, and those of
/// every other id are.
pub fn draws_are_taken_once()
    ensures listed { (K : Primitives) (random : Bytes) (ids : List Id) (id : Id) → In id ids
        → left_for (drawn_for K random ids) id ≡ draws K random id }
    ensures others { (K : Primitives) (random : Bytes) (ids : List Id) (id : Id) → (In id ids → ⊥)
        → left_for (drawn_for K random ids) id ≡ None }
    ensures taken { (rows : List Drawn) (id : Id) → left_for (after_take rows id) id ≡ None }
    ensures kept { (rows : List Drawn) (id other : Id) → (id ≡ other → ⊥)
        → left_for (after_take rows id) other ≡ left_for rows other }
{}
