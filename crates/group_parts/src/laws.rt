//! Laws of the definitions.

ghost use Rattle.std.specs.Prelude.{◌≡◌, ◌<◌, ◌≤◌, ◌+◌, ◌^◌, true, length, slice_index, IsSome, Some};
ghost use Rattle.group_model.specs.Sets.{Bytes};
ghost use Rattle.group_model.specs.Pairing.{Part};
ghost use Rattle.group_model.specs.Primitives.{Content, Encapsulation};
ghost use Rattle.hkdf_seal.specs.Sealing.{sealed_with_tag};
ghost use Rattle.group_parts.specs.Contents.{content_len, content_read, content_written};
ghost use Rattle.group_parts.specs.KeyPairs.{encapsulation, is_pair};
ghost use Rattle.group_parts.specs.Parts.{AreBytes, IsSized, part_bytes, part_in, part_len, part_read, sealed_len};
ghost use Rattle.group_parts.specs.Ratchets.{next_ratchet, update_secret};

use kem_trait::Kem;

/// A content and its bytes: what is written of a content is read back, and what is read was written so. A content with
/// a payload of 32 bytes, the secret key of a tested pair, a number from 1 to 2^32 - 1 and a public key is written.
pub fn contents_are_spelled<K: Kem>()
    ensures back { (content : Content) (bytes : Bytes) → content_written ⟦<K as Kem>⟧ content ≡ Some bytes
        → content_read ⟦<K as Kem>⟧ bytes ≡ Some content }
    ensures one { (content : Content) (bytes : Bytes) → AreBytes bytes → content_read ⟦<K as Kem>⟧ bytes ≡ Some content
        → content_written ⟦<K as Kem>⟧ content ≡ Some bytes }
    ensures drawn { (content : Content) → length content.payload ≡ 32 → K.is_secret content.secret ≡ true
        → 0 < content.number → content.number < 2 ^ 32 → K.is_public content.public ≡ true
        → IsSome (content_written ⟦<K as Kem>⟧ content) }
{}

/// A part and its bytes: each part whose fields have their sizes is read back from its bytes, what is read as a part
/// has its sizes and is spelled by these bytes alone, and each string of the right length with origin 0 or 1 is read.
pub fn parts_are_spelled<K: Kem>()
    ensures back { (part : Part) → IsSized ⟦<K as Kem>⟧ part
        → part_read ⟦<K as Kem>⟧ (part_bytes ⟦<K as Kem>⟧ part) ≡ Some part }
    ensures one { (bytes : Bytes) (part : Part) → AreBytes bytes → part_read ⟦<K as Kem>⟧ bytes ≡ Some part
        → IsSized ⟦<K as Kem>⟧ part × (part_bytes ⟦<K as Kem>⟧ part ≡ bytes) }
    ensures reads { (bytes : Bytes) → length bytes ≡ part_len ⟦<K as Kem>⟧ → slice_index bytes 0 < 2
        → part_read ⟦<K as Kem>⟧ bytes ≡ Some (part_in ⟦<K as Kem>⟧ bytes) }
{}

/// How many bytes each thing has.
pub fn has_lengths<K: Kem>()
    ensures large { K.SET ≡ 1 → (content_len ⟦<K as Kem>⟧ ≡ 2957) × (part_len ⟦<K as Kem>⟧ ≡ 4033) }
    ensures most { (content_len ⟦<K as Kem>⟧ ≤ 2957) × (part_len ⟦<K as Kem>⟧ ≤ 4033) }
    ensures small { K.SET ≡ 2 → (content_len ⟦<K as Kem>⟧ ≡ 164) × (part_len ⟦<K as Kem>⟧ ≡ 259) }
    ensures content { (content : Content) (bytes : Bytes) → content_written ⟦<K as Kem>⟧ content ≡ Some bytes
        → length bytes ≡ content_len ⟦<K as Kem>⟧ }
    ensures sealed { (content : Content) (bytes key : Bytes) → content_written ⟦<K as Kem>⟧ content ≡ Some bytes
        → length (sealed_with_tag key bytes) ≡ sealed_len ⟦<K as Kem>⟧ }
    ensures part { (part : Part) → IsSized ⟦<K as Kem>⟧ part
        → length (part_bytes ⟦<K as Kem>⟧ part) ≡ part_len ⟦<K as Kem>⟧ }
    ensures pair { (secret public : Bytes) → is_pair ⟦<K as Kem>⟧ secret public ≡ true
        → (length secret ≡ K.SECRET_LEN) × (length public ≡ K.PUBLIC_LEN) }
    ensures cipher { (public seed : Bytes) (e : Encapsulation) → encapsulation ⟦<K as Kem>⟧ public seed ≡ Some e
        → (length e.ciphertext ≡ K.CIPHER_LEN) × (length e.key ≡ 32) }
    ensures ratchet { (ratchet input : Bytes) → length (next_ratchet ratchet input) ≡ 32 }
    ensures secret { (ratchet input : Bytes) → length (update_secret ratchet input) ≡ 32 }
{}
