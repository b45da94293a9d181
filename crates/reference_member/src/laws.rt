//! Laws of the reference member. Each function does nothing; its contract is the law.

ghost use Rattle.std.specs.Prelude.{◌≡◌, ◌⊎◌, ◌≤◌, List, None, Option, Some, length};
ghost use Rattle.group_model.specs.Sets.{Bytes, Id};
ghost use Rattle.group_model.specs.Messages.{AreHeads, History};
ghost use Rattle.group_model.specs.Membership.{IsMembershipRule, ids_named};
ghost use Rattle.group_model.specs.Logs.{hist};
ghost use Rattle.group_model.specs.Settings.{Owner};
ghost use Rattle.group_model.specs.LawfulLogs.{IsLawfulLog};
ghost use Rattle.group_model.specs.Conduct.{AnswersAtOnce, waiting};
ghost use Rattle.causal_history.specs.Rows.{cards_of};
ghost use Rattle.reference_member.specs.Members.{HaveCollision, HaveOneEach, IsOwner, Member, known};
ghost use Rattle.reference_member.specs.Messages.{MadeMessage};
ghost use Rattle.reference_member.specs.Steps.{HasRecord, Step, record_of};
ghost use Rattle.wire_codec.specs.Packets.{IsPacket, Packet};
ghost use Rattle.causal_cast.specs.declared.verdict.Verdict.TheVariants as answers;
ghost use Rattle.reference_member.specs.Entering.{EntersTaken};
ghost use Rattle.reference_member.specs.Refusals.{IsOut, IsVerdict};
ghost use Rattle.reference_member.specs.Accepted.{IsRunOf};

use kem_trait::Kem;

/// Bytes are the record of one step at most.
pub fn records_are_of_one_step<K: Kem>()
    ensures { (a b : Step) → HasRecord ⟦<K as Kem>⟧ a → HasRecord ⟦<K as Kem>⟧ b
        → record_of K.SET a ≡ record_of K.SET b → a ≡ b }
{}

/// The history of a member after its steps is that of its log.
pub fn histories_are_those_of_logs<K: Kem>()
    ensures { (rule : History → List Id) (steps : List Step) (M : Member) (made : List MadeMessage)
        → IsRunOf ⟦<K as Kem>⟧ rule steps (Some M) made → hist M.log ≡ known M }
{}

/// The log of a member after its steps is lawful, whatever packets others made, and the member answers at once: an
/// operation that it took is answered by the next entry, unless the operation removed the member.
pub fn logs_are_lawful<K: Kem>()
    ensures lawful { (rule : History → List Id) (steps : List Step) (M : Member) (made : List MadeMessage) (O : Owner)
        → IsRunOf ⟦<K as Kem>⟧ rule steps (Some M) made → IsOwner ⟦<K as Kem>⟧ rule M O → IsLawfulLog O M.log }
    ensures at_once { (rule : History → List Id) (steps : List Step) (M : Member) (made : List MadeMessage) (O : Owner)
        → IsRunOf ⟦<K as Kem>⟧ rule steps (Some M) made → IsOwner ⟦<K as Kem>⟧ rule M O → AnswersAtOnce M.log }
    ensures settled { (rule : History → List Id) (steps : List Step) (M : Member) (made : List MadeMessage) (O : Owner)
        → IsRunOf ⟦<K as Kem>⟧ rule steps (Some M) made → IsOwner ⟦<K as Kem>⟧ rule M O
        → (waiting M.log ≡ None) ⊎ IsOut ⟦<K as Kem>⟧ rule M }
{}

/// The log of a member has an owner where of each id there is one card at most in its history. After steps it has one,
/// or two cards of the history are spelled apart and have one digest.
pub fn owners_are_there<K: Kem>()
    ensures by_cards { (rule : History → List Id) (M : Member) → IsMembershipRule rule → HaveOneEach (cards_of M.rows)
        → (O : Owner) × IsOwner ⟦<K as Kem>⟧ rule M O }
    ensures after_steps { (rule : History → List Id) → IsMembershipRule rule → (steps : List Step) (M : Member)
        (made : List MadeMessage) → IsRunOf ⟦<K as Kem>⟧ rule steps (Some M) made
        → ((O : Owner) × IsOwner ⟦<K as Kem>⟧ rule M O) ⊎ HaveCollision (cards_of M.rows) }
{}

/// The history of a member after its steps names at most 32 members, and has at most as many heads as it names: of one
/// sender each message has the older ones in its past, and each sender is named.
pub fn heads_are_few<K: Kem>()
    ensures named { (rule : History → List Id) (steps : List Step) (M : Member) (made : List MadeMessage)
        → IsRunOf ⟦<K as Kem>⟧ rule steps (Some M) made → length (ids_named (known M)) ≤ 32 }
    ensures by_named { (rule : History → List Id) (steps : List Step) (M : Member) (made : List MadeMessage) (O : Owner)
        → IsRunOf ⟦<K as Kem>⟧ rule steps (Some M) made → IsOwner ⟦<K as Kem>⟧ rule M O → (ids : List Id)
        → AreHeads (known M) ids → length ids ≤ length (ids_named (known M)) }
    ensures few { (rule : History → List Id) (steps : List Step) (M : Member) (made : List MadeMessage) (O : Owner)
        → IsRunOf ⟦<K as Kem>⟧ rule steps (Some M) made → IsOwner ⟦<K as Kem>⟧ rule M O → (ids : List Id)
        → AreHeads (known M) ids → length ids ≤ 32 }
{}

/// Steps have one member and one list of messages.
pub fn runs_are_one<K: Kem>()
    ensures member { (rule : History → List Id) → IsMembershipRule rule → (steps : List Step) (M N : Option Member)
        (made others : List MadeMessage) → IsRunOf ⟦<K as Kem>⟧ rule steps M made
        → IsRunOf ⟦<K as Kem>⟧ rule steps N others → M ≡ N }
    ensures messages { (rule : History → List Id) → IsMembershipRule rule → (steps : List Step) (M N : Option Member)
        (made others : List MadeMessage) → IsRunOf ⟦<K as Kem>⟧ rule steps M made
        → IsRunOf ⟦<K as Kem>⟧ rule steps N others → made ≡ others }
{}

/// What a packet of another leaves that nothing refuses, before it is answered: its message is the newest of the
/// history, the log with its entry is lawful, and where its part opened the ack may take the operation's secret.
pub fn ready_packets_enter<K: Kem>()
    ensures { (rule : History → List Id) (steps : List Step) (M : Member) (made : List MadeMessage) (bytes : Bytes)
        (packet : Packet) → IsRunOf ⟦<K as Kem>⟧ rule steps (Some M) made → IsPacket packet bytes
        → IsVerdict ⟦<K as Kem>⟧ rule M bytes answers.Ready → EntersTaken ⟦<K as Kem>⟧ rule M packet }
{}
