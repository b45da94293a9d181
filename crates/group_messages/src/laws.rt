//! Laws of headers as messages. Each function does nothing; its contract is the law.

ghost use Rattle.std.specs.Prelude.{◌≡◌, ◌≤◌, ◌⊎◌, Bool, List, length};
ghost use Rattle.sha2.specs.Sha256.{sha256};
ghost use Rattle.group_fields.specs.Headers.{HasSpelling, Spells, spelling};
ghost use Rattle.group_fields.specs.declared.header.Header.{Header};
ghost use Rattle.group_fields.specs.declared.header.Kind.TheVariants as kinds;
ghost use Rattle.group_fields.specs.declared.header.Target.TheVariants as targets;
ghost use Rattle.group_fields.specs.declared.ids.Digest.{Digest};
ghost use Rattle.group_fields.specs.declared.ids.MemberId.{MemberId};
ghost use Rattle.group_fields.specs.declared.ids.MessageId.{MessageId};
ghost use Rattle.group_model.specs.Sets.{IsAscending, IsDistinct};
ghost use Rattle.group_model.specs.Messages.{Kind, Create, Update, Remove, Add, Ack, AddAck, Text};
ghost use Rattle.group_model.specs.Membership.{named_by};
ghost use Rattle.group_messages.specs.Messages.{IsCollision, header_kind, ids_of, kind_of, message_of};

use group_fields::headers_are_spelled_once;

/// A header that has a spelling has at most 32 predecessors, in ascending order.
pub fn predecessors_ascend()
    ensures ascending { (h : Header) → HasSpelling h → IsAscending (message_of h).predecessors }
    ensures distinct { (h : Header) → HasSpelling h → IsDistinct (message_of h).predecessors }
    ensures few { (h : Header) → HasSpelling h → length (message_of h).predecessors ≤ 32 }
{}

/// A header that has a spelling names at most 32 ids, in ascending order.
pub fn named_ids_are_few()
    ensures ascending { (h : Header) → HasSpelling h → IsAscending (named_by (kind_of h)) }
    ensures distinct { (h : Header) → HasSpelling h → IsDistinct (named_by (kind_of h)) }
    ensures few { (h : Header) → HasSpelling h → length (named_by (kind_of h)) ≤ 32 }
{}

/// The kind of a message is the one that its header tells, and where the header has a spelling its target is one that
/// suits the kind.
pub fn targets_say_the_kind()
    ensures kind { (h : Header) → header_kind (kind_of h) ≡ h.kind }
    ensures create { (h : Header) → HasSpelling h → h.kind ≡ kinds.Create
        → (ids : List Digest) × (h.target ≡ targets.Members ids) × (kind_of h ≡ Create (ids_of ids)) }
    ensures update { (h : Header) → HasSpelling h → h.kind ≡ kinds.Update
        → (h.target ≡ targets.Nothing) × (kind_of h ≡ Update) }
    ensures remove { (h : Header) → HasSpelling h → h.kind ≡ kinds.Remove
        → (y : MemberId) × (h.target ≡ targets.Member y) × (kind_of h ≡ Remove y.0.0) }
    ensures add { (h : Header) → HasSpelling h → h.kind ≡ kinds.Add
        → (y : MemberId) × (h.target ≡ targets.Member y) × (kind_of h ≡ Add y.0.0) }
    ensures ack { (h : Header) → HasSpelling h → h.kind ≡ kinds.Ack
        → (o : MessageId) × (took : Bool) × (h.target ≡ targets.Answer o took) × (kind_of h ≡ Ack o.0.0 took) }
    ensures add_ack { (h : Header) → HasSpelling h → h.kind ≡ kinds.AddAck
        → (o : MessageId) × (took : Bool) × (h.target ≡ targets.Answer o took) × (kind_of h ≡ AddAck o.0.0) }
    ensures text { (h : Header) → HasSpelling h → h.kind ≡ kinds.Text
        → (h.target ≡ targets.Nothing) × (kind_of h ≡ Text) }
{}

/// The id of a message is the digest of its header's bytes, and bytes are those of one header. So two headers that give
/// one id are one header, or their bytes collide.
pub fn messages_are_of_one_header()
    ensures id { (h : Header) → (message_of h).id ≡ sha256 (spelling h) }
    ensures one_header { (a b : Header) → Spells a (spelling a) → Spells b (spelling b) → spelling a ≡ spelling b
        → a ≡ b }
    ensures one_id { (a b : Header) → Spells a (spelling a) → Spells b (spelling b)
        → (message_of a).id ≡ (message_of b).id → (a ≡ b) ⊎ IsCollision (spelling a) (spelling b) }
{
    headers_are_spelled_once();
}
