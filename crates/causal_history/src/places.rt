//! Members of a history by their places: a member's place is its number among the ids that the history names, in the
//! order of being named.

ghost use Rattle.std.specs.Prelude.{◌≡◌, ◌<◌, ◌≤◌, length, Some, MatchOption, IfSome};
ghost use Rattle.group_model.specs.Sets.{Id, In};
ghost use Rattle.group_model.specs.Membership.{ids_named};
ghost use Rattle.group_model.specs.Marks.{IsPlace};
ghost use Rattle.causal_history.specs.Rows.{card_in, history_of};

use crate::history::History;
use crate::index::number_of;
use group_fields::{CardView, Digest, MemberId};

impl History {
    /// How many ids the history names.
    pub fn places(&self) -> u8
        ensures places { result ≡ length (ids_named (history_of self.now)) }
        ensures few { result ≤ 32 }
    {
        self.table.named.len() as u8
    }

    /// The place of the member, where the history names it.
    pub fn place(&self, id: &MemberId) -> Option<u8>
        ensures place { MatchOption result (In id.now.0.0 (ids_named (history_of self.now)) → ⊥)
            (λ place. IsPlace (ids_named (history_of self.now)) place id.now.0.0) }
        ensures small { IfSome result (λ place. place < 32) }
    {
        match number_of(&self.table.named, &id.0.0) {
            Some(place) => Some(place as u8),
            None => None,
        }
    }

    /// The member at a place below `places`.
    pub fn member(&self, place: u8) -> MemberId
        requires { place < length (ids_named (history_of self.now)) }
        ensures { IsPlace (ids_named (history_of self.now)) place result.0.0 }
    {
        MemberId(Digest(*self.table.named.get_index(place as usize).unwrap()))
    }

    /// The card of the member at a place below `places`: the first card of its id in the rows.
    pub fn card(&self, place: u8) -> CardView<'_>
        requires { place < length (ids_named (history_of self.now)) }
        ensures { (x : Id) → IsPlace (ids_named (history_of self.now)) place x → card_in self.now x ≡ Some result }
    {
        let at = self.table.cards[place as usize];
        self.table.rows[at.row as usize].card(at.at)
    }
}
