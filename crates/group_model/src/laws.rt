//! Laws of the definitions. Each function does nothing; its contract is the law.

ghost use Rattle.std.specs.Prelude.{◌≡◌, ◌⊎◌, ◌↔◌, List, [], ◌∷◌, Some};
ghost use Rattle.group_model.specs.Sets.{Id, In, Within};
ghost use Rattle.group_model.specs.Messages.{Message, History, past, IsHistory, AreHeads};
ghost use Rattle.group_model.specs.Membership.{Named, IsMember, IsMembershipRule, remove_wins as members_by_rule};
ghost use Rattle.group_model.specs.Primitives.{KeyPair, Content, Primitives};
ghost use Rattle.group_model.specs.Pairing.{Part, PairEvent, Sending, OpensTo, Joint, opened};
ghost use Rattle.group_model.specs.Settings.{Setting, card_of};
ghost use Rattle.group_model.specs.Knowledge.{known_of, learnt_of};
ghost use Rattle.group_model.specs.Worlds.{Turns, log_of};
ghost use Rattle.group_model.specs.LawfulWorlds.{IsLawful};
ghost use Rattle.group_model.specs.Conduct.{MadeIsValid, MadeIsValidInWorlds, OwnRatchetKnown, OwnRatchetKnownInWorlds};
ghost use Rattle.group_model.specs.Agreement.{IsEntitled, EqualSecrets, AuthenticTexts, TextsAlone};

/// A past is the least set of messages of a history that holds the predecessors and theirs. It depends on the
/// message alone, and a message whose predecessors are the heads has the whole history in its past.
pub fn past_is_least()
    ensures within { (h : History) (m a : Message) → In a (past h m.predecessors) → In a h }
    ensures direct { (h : History) (m a : Message) → In a h → In a.id m.predecessors → In a (past h m.predecessors) }
    ensures closed { (h : History) (m a b : Message) → IsHistory h → In a (past h m.predecessors) → In b h
        → In b.id a.predecessors → In b (past h m.predecessors) }
    ensures least { (h : History) (m a : Message) (q : List Message)
        → ((b : Message) → In b h → In b.id m.predecessors → In b q)
        → ((b d : Message) → In b h → In d h → In b q → In d.id b.predecessors → In d q)
        → In a (past h m.predecessors) → In a q }
    ensures transitive { (h : History) (m a b : Message) → IsHistory h → In a (past h m.predecessors)
        → In b (past h a.predecessors) → In b (past h m.predecessors) }
    ensures of_the_message_alone { (h k : History) (m a : Message) → IsHistory h → IsHistory k
        → ((b d : Message) → In b h → In d k → b.id ≡ d.id → b ≡ d) → In m k
        → In a (past h m.predecessors) → In a (past k m.predecessors) }
    ensures heads_lead_back { (h : History) (m a : Message) → IsHistory h → AreHeads h m.predecessors → In a h
        → In a (past h m.predecessors) }
{}

/// "Remove wins" is a membership rule that agreement may rest on: its members are those that are named and not
/// removed; who was named in a set and is out of it is out of each larger one; the answer depends on the set alone.
pub fn remove_wins()
    ensures members { (p : History) (x : Id) → In x (members_by_rule p) ↔ IsMember p x }
    ensures rule { IsMembershipRule members_by_rule }
    ensures out_stays_out { (p q : History) (x : Id) → Within p q → Named p x → (IsMember p x → ⊥) → IsMember q x → ⊥ }
    ensures set_alone { (p q : History) (x : Id) → Within p q → Within q p → IsMember p x → IsMember q x }
{}

/// Where each of two members takes the other's parts in the order sent, each part opens to its content, from the first
/// to the second and from the second to the first, however the two directions cross: this rests on the laws of the
/// primitives and on the order. Whatever came before, and with no law of the primitives, a part opens exactly where its
/// key is kept, its ciphertext gives a key, its tag agrees, and its bytes read as a content.
pub fn parts_open()
    ensures to_second { (K : Primitives) (a b : KeyPair) (ea eb : List PairEvent) (s : Sending) (qa qb : List Sending)
        → Joint K a b ea eb (s ∷ qa) qb → opened K b eb s.part ≡ Some s.content }
    ensures to_first { (K : Primitives) (a b : KeyPair) (ea eb : List PairEvent) (s : Sending) (qa qb : List Sending)
        → Joint K a b ea eb qa (s ∷ qb) → opened K a ea s.part ≡ Some s.content }
    ensures exactly { (K : Primitives) (card : KeyPair) (es : List PairEvent) (part : Part) (content : Content)
        → (opened K card es part ≡ Some content) ↔ OpensTo K card es part content }
{}

/// In every lawful world a member knows, of each message that it is entitled to, the ratchet and the update secret
/// that its maker's terms say, so any two such members know the same.
pub fn equal_secrets()
    ensures terms { EqualSecrets }
    ensures between_members { (G : Setting) (w : Turns) (x y : Id) (m : Message) → IsLawful G w → IsEntitled G w x m
        → IsEntitled G w y m
        → (known_of G.primitives (card_of G x) x (log_of w x) m ≡ known_of G.primitives (card_of G y) y (log_of w y) m)
        × (learnt_of G.primitives (card_of G x) x (log_of w x) m
        ≡ learnt_of G.primitives (card_of G y) y (log_of w y) m) }
{}

/// In every lawful world a member has, of each text that it is entitled to, the bytes that the sender sent. With every
/// lawful log it has a text of texts alone.
pub fn authentic_texts()
    ensures as_sent { AuthenticTexts }
    ensures of_texts_alone { TextsAlone }
{}

/// With every lawful log, and so in every lawful world, what a member makes that answers at once is valid over its
/// past, by the first to the sixth rule, as far as header and cards tell: what its commands look at over its whole
/// history is what the rules ask over the past.
pub fn made_messages_are_valid()
    ensures alone { MadeIsValid }
    ensures in_worlds { MadeIsValidInWorlds }
{}

/// With every lawful log, and so in every lawful world, a member knows its own ratchet, whatever others sent it: the
/// payload of its adds and add-acks is always there.
pub fn own_ratchet_is_known()
    ensures alone { OwnRatchetKnown }
    ensures in_worlds { OwnRatchetKnownInWorlds }
{}
