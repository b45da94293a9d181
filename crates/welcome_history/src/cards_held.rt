//! Whether the cards of a welcome are those of the ids that its rows name.

ghost use Rattle.std.specs.Prelude.{◌≡◌, ◌↔◌, ℕ, ◌<◌, ◌≤◌, true, length, map, drop, IsTrue};
ghost use Rattle.std.specs.Prelude.{IfNone, IfSome, MatchOption};
ghost use Rattle.group_fields.specs.Cards.{card_id};
ghost use Rattle.group_fields.specs.declared.card.Card.{Card};
ghost use Rattle.group_model.specs.Sets.{In, Within, IsDistinct};
ghost use Rattle.group_model.specs.Membership.{ids_named, named_by};
ghost use Rattle.group_model.specs.Marks.{IsCrowd, IsPlace};
ghost use Rattle.group_messages.specs.Messages.{ids_of, kind_of};
ghost use Rattle.causal_history.specs.Bits.{bit};
ghost use Rattle.causal_history.specs.Rows.{history_of};
ghost use Rattle.member_view.specs.Crowds.{MorePlaces};
ghost use Rattle.wire_codec.specs.Order.{AreOfSet};
ghost use Rattle.welcome_history.specs.Joining.{CardsHold, Joining};
ghost use Rattle.welcome_history.specs.Welcomes.{rows_of};

use causal_history::Crowd;
use group_fields::{CardView, HeaderView, IdsView, MemberId};
use kem_trait::Kem;
use member_view::{Act, act_of};
use wire_codec::HistoryView;

// The index of an id among at most 32. None exactly where it is none of them.
fn index_of(ids: &[MemberId], id: &MemberId) -> Option<u8>
    requires { length ids.now ≤ 32 }
    ensures index { MatchOption result (In id.now.0.0 (map (λ id. id.0.0) ids.now) → ⊥)
        (λ index. IsPlace (map (λ id. id.0.0) ids.now) index id.now.0.0) }
    ensures small { IfSome result (λ index. index < 32) }
{
    for index in 0..ids.len() {
        if ids[index] == *id {
            return Some(index as u8);
        }
    }
    None
}

// Marks the index of an id besides those that are marked. None exactly where the id is none of the ids.
fn mark_id(ids: &[MemberId], id: &MemberId, seen: Crowd) -> Option<Crowd>
    requires few { length ids.now ≤ 32 }
    requires distinct { IsDistinct (map (λ id. id.0.0) ids.now) }
    ensures missing { IfNone result (In id.now.0.0 (map (λ id. id.0.0) ids.now) → ⊥) }
    ensures there { IfSome result (λ more. In id.now.0.0 (map (λ id. id.0.0) ids.now)) }
    ensures marked { IfSome result (λ more. MorePlaces (map (λ id. id.0.0) ids.now) (bit seen.0) (bit more.0)
        (λ x. id.now.0.0 ≡ x)) }
{
    let index = index_of(ids, id)?;
    Some(seen.with(index))
}

// Marks the indices of the named ids from an index on. None exactly where one of these is none of the ids.
fn mark_ids(ids: &[MemberId], named: &IdsView<'_>, index: u32, seen: Crowd) -> Option<Crowd>
    requires few { length ids.now ≤ 32 }
    requires distinct { IsDistinct (map (λ id. id.0.0) ids.now) }
    requires index { index ≤ length named.now }
    ensures missing { IfNone result
        (Within (ids_of (drop index named.now)) (map (λ id. id.0.0) ids.now) → ⊥) }
    ensures there { IfSome result
        (λ more. Within (ids_of (drop index named.now)) (map (λ id. id.0.0) ids.now)) }
    ensures marked { IfSome result (λ more. MorePlaces (map (λ id. id.0.0) ids.now) (bit seen.0) (bit more.0)
        (λ x. In x (ids_of (drop index named.now)))) }
{
    if index == named.count() {
        return Some(seen);
    }
    let more = mark_id(ids, &MemberId(named.id(index)), seen)?;
    mark_ids(ids, named, index + 1, more)
}

// Marks the indices of the ids that a header names. None exactly where one of these is none of the ids.
fn mark_row(ids: &[MemberId], header: &HeaderView<'_>, seen: Crowd) -> Option<Crowd>
    requires few { length ids.now ≤ 32 }
    requires distinct { IsDistinct (map (λ id. id.0.0) ids.now) }
    ensures missing { IfNone result
        (Within (named_by (kind_of header.now)) (map (λ id. id.0.0) ids.now) → ⊥) }
    ensures there { IfSome result
        (λ more. Within (named_by (kind_of header.now)) (map (λ id. id.0.0) ids.now)) }
    ensures marked { IfSome result (λ more. MorePlaces (map (λ id. id.0.0) ids.now) (bit seen.0) (bit more.0)
        (λ x. In x (named_by (kind_of header.now)))) }
{
    match act_of(header) {
        Act::Create(named) => mark_ids(ids, &named, 0, seen),
        Act::Add(id) => mark_id(ids, &id, seen),
        _ => Some(seen),
    }
}

// The indices of the cards of the ids that the rows name. None exactly where one of these has no card.
fn named_cards(welcome: &HistoryView<'_>, ids: &[MemberId]) -> Option<Crowd>
    requires ids { map (λ id. id.0.0) ids.now ≡ map card_id welcome.now.cards }
    requires few { length ids.now ≤ 32 }
    requires distinct { IsDistinct (map (λ id. id.0.0) ids.now) }
    ensures missing { IfNone result
        (Within (ids_named (history_of (rows_of welcome.now))) (map card_id welcome.now.cards) → ⊥) }
    ensures there { IfSome result
        (λ seen. Within (ids_named (history_of (rows_of welcome.now))) (map card_id welcome.now.cards)) }
    ensures named { IfSome result (λ seen. IsCrowd (map card_id welcome.now.cards) (bit seen.0)
        (λ x. In x (ids_named (history_of (rows_of welcome.now))))) }
{
    let mut seen = Crowd::new();
    let mut rows = welcome.all_rows();
    for index in 0..welcome.rows() {
        if let Some(header) = rows.next() {
            seen = mark_row(ids, &header, seen)?;
        }
    }
    Some(seen)
}

// Whether all indices below a count are marked.
fn are_all_seen(seen: Crowd, count: u8) -> bool
    requires { count ≤ 32 }
    ensures { IsTrue result ↔ ((p : ℕ) → p < count → bit seen.0 p ≡ true) }
{
    for index in 0..count {
        if !seen.has(index) {
            return false;
        }
    }
    true
}

// Whether the card's key is a public key.
fn has_public_key<K: Kem>(card: &CardView<'_>) -> bool
    requires { card.now.set ≡ K.SET }
    ensures { result ≡ K.is_public card.now.kem_public }
{
    let _bytes = card.bytes();
    K::public_ok(card.kem_public())
}

// Whether the keys of all cards are public keys.
fn have_public_keys<K: Kem>(welcome: &HistoryView<'_>) -> bool
    requires { AreOfSet K.SET welcome.now.cards }
    ensures { IsTrue result
        ↔ ((card : Card) → In card welcome.now.cards → K.is_public card.kem_public ≡ true) }
{
    for index in 0..welcome.cards() {
        if !has_public_key::<K>(&welcome.card(index)) {
            return false;
        }
    }
    true
}

/// Whether the cards are exactly those of the ids that the rows name, each with a public key.
pub(crate) fn cards_hold<K: Kem>(welcome: &HistoryView<'_>, ids: &[MemberId]) -> bool
    requires ids { map (λ id. id.0.0) ids.now ≡ map card_id welcome.now.cards }
    requires few { length welcome.now.cards ≤ 32 }
    requires distinct { IsDistinct (map card_id welcome.now.cards) }
    requires of_set { AreOfSet K.SET welcome.now.cards }
    ensures { (F : Joining) → F.set ≡ K.SET → F.is_public ≡ K.is_public
        → IsTrue result ↔ CardsHold F welcome.now }
{
    match named_cards(welcome, ids) {
        None => false,
        Some(seen) => are_all_seen(seen, welcome.cards()) && have_public_keys::<K>(welcome),
    }
}
