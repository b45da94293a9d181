ghost use Rattle.std.specs.Prelude.{◌≡◌, ℕ, ◌+◌, ◌<◌, ◌≤◌, List, length, replicate, IfOk, IfNone, IfSome};
ghost use Rattle.sha2.specs.Sha256.{sha256};
ghost use Rattle.group_fields.specs.Headers.{SuitsKind};
ghost use Rattle.group_fields.specs.declared.header.Kind.{Kind};
ghost use Rattle.group_fields.specs.declared.header.Target.{Target};
ghost use Rattle.group_model.specs.Sets.{Bytes, Id};
ghost use Rattle.group_model.specs.Messages.{AreHeads};
ghost use Rattle.group_model.specs.Validity.{count_of};
ghost use Rattle.causal_history.specs.Rows.{Row, history_of};
ghost use Rattle.next_messages.specs.Headers.{IsNextHeader, group_by};

use causal_history::History;
use group_fields::{Digest, GroupId, Header, Kind, MemberId, Memory, Target};
use group_model::forms::heads_by_predecessors;
use hkdf_seal::kdf;
use kem_trait::Kem;
use member_identity::cards_have_room;
use member_view::count_of_sender;
use sha2::{Digest as Hasher, Sha256};

// How many predecessors a header has at most.
const MOST_HEADS: usize = 32;

// The group of the history, and else a new one.
fn group_by(history: &History, random: &[u8; 32]) -> GroupId
    ensures { result.0.0 ≡ group_by history.now random.now }
{
    if history.count() == 0 {
        return GroupId(Digest(kdf(random, b"group", &[])));
    }
    history.row(0).group()
}

// The number of the member's next message among its own.
fn next_seq(history: &History, me: &MemberId) -> u32
    requires { length history.now ≤ 4095 }
    ensures { result ≡ count_of me.now.0.0 (history_of history.now) + 1 }
{
    count_of_sender(history, me) + 1
}

/// The header of the member's next message of a kind, for a target that suits it, behind all rows of the history, with
/// 32 zero bytes as its body's digest. Without rows its group is a new one, by the step's random bytes. `with_body`
/// puts the digest of the body into it.
///
/// There is room for one row more. None only where the history has more than 32 heads, which no header has as its
/// predecessors. `Memory` where an allocation was refused.
pub fn next_header<K: Kem>(
    history: &History,
    me: &MemberId,
    random: &[u8; 32],
    kind: Kind,
    target: Target,
) -> Result<Option<Header>, Memory>
    requires suits { SuitsKind kind target }
    requires room { length history.now ≤ 4095 }
    ensures next { IfOk result (λ made. IfSome made
        (IsNextHeader K.SET history.now me.now.0.0 random.now kind target)) }
    ensures digest { IfOk result (λ made. IfSome made (λ header. header.body.0 ≡ replicate 32 0)) }
    ensures none { IfOk result (λ made. IfNone made
        ((ids : List Id) → AreHeads (history_of history.now) ids → 32 < length ids)) }
{
    heads_by_predecessors();
    cards_have_room::<K>();
    let predecessors = history.heads()?;
    if predecessors.len() > MOST_HEADS {
        return Ok(None);
    }
    Ok(Some(Header {
        set: K::SET,
        group: group_by(history, random),
        sender: *me,
        seq: next_seq(history, me),
        kind,
        target,
        predecessors,
        body: Digest([0; 32]),
    }))
}

/// The same header with the digest of a body: SHA-256 of its bytes.
pub fn with_body(header: Header, body: &[u8]) -> Header
    ensures digest { result ≡ record header { body = record { 0 = sha256 body.now } } }
    ensures next { (set : ℕ) (rows : List Row) (me : Id) (random : Bytes) (kind : Kind) (target : Target)
        → IsNextHeader set rows me random kind target header → IsNextHeader set rows me random kind target result }
{
    let mut header = header;
    header.body = Digest(Sha256::digest(body));
    header
}
