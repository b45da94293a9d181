//! A law of cards.

ghost use Rattle.std.specs.Prelude.{◌≡◌, ◌==◌, ◌||◌, IsTrue};
ghost use Rattle.group_fields.specs.Cards.{key_size};

use kem_trait::Kem;

/// Cards know the set of every key encapsulation, and have room for its public keys: so the key in a card of the set has the
/// length that the key encapsulation asks for. It does nothing: its contract is the law.
pub fn cards_have_room<K: Kem>()
    ensures set { IsTrue ((K.SET == 1) || (K.SET == 2)) }
    ensures size { K.PUBLIC_LEN ≡ key_size K.SET }
{}
