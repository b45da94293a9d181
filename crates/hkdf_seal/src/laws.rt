//! Laws of the definitions. Each function does nothing: its contract is the law.

ghost use Rattle.std.specs.Prelude.{◌≡◌, ◌+◌, ℕ, List, length, Some};
ghost use Rattle.hkdf_seal.specs.Keys.{expand, kdf};
ghost use Rattle.hkdf_seal.specs.Sealing.{opened, sealed, sealed_with_tag, tag_of};

/// Opening undoes sealing: a text that is sealed twice under a key is the text again, and of all bytes those of a text
/// sealed with its tag, and no others, open to the text.
pub fn opening_undoes_sealing()
    ensures twice { (key text : List ℕ) → sealed key (sealed key text) ≡ text }
    ensures opens { (key text : List ℕ) → opened key (sealed_with_tag key text) ≡ Some text }
    ensures only { (key bytes text : List ℕ) → opened key bytes ≡ Some text → sealed_with_tag key text ≡ bytes }
{}

/// How many bytes each thing has.
pub fn has_lengths()
    ensures text { (key text : List ℕ) → length (sealed key text) ≡ length text }
    ensures tag { (key body : List ℕ) → length (tag_of key body) ≡ 32 }
    ensures with_tag { (key text : List ℕ) → length (sealed_with_tag key text) ≡ length text + 32 }
    ensures key { (key label id : List ℕ) → length (kdf key label id) ≡ 32 }
    ensures output { (prk info : List ℕ) (len : ℕ) → length (expand prk info len) ≡ len }
{}
