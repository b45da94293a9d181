//! Forms of the definitions that code meets cheaply, each with the law that it is the definition. Each function does
//! nothing; its contract is the law.

ghost use Rattle.std.specs.Prelude.{◌≡◌, ◌≢◌, ◌⊎◌, ◌↔◌, ◌++◌, ◌∷◌, [], ℕ, Bool, List, Some, None, Option, reverse};
ghost use Rattle.group_model.specs.Sets.{Bytes, Id, In, IsDistinct};
ghost use Rattle.group_model.specs.Messages.{Message, History, past, with_past, IsHistory, IsHead, AreHeads};
ghost use Rattle.group_model.specs.Membership.{IsMembershipRule, InView, AreAddressees, NamedOnce, Named, ids_named};
ghost use Rattle.group_model.specs.Validity.{Answers, MayFollow, AllValid, IsUnforked, AreUnforked};
ghost use Rattle.group_model.specs.Primitives.{KeyPair, Primitives};
ghost use Rattle.group_model.specs.KeyTerms.{empty_ratchet, turned_known, chain_after};
ghost use Rattle.group_model.specs.Packets.{Packet, Given, part_for};
ghost use Rattle.group_model.specs.Logs.{LogEntry, Joined, Took, Made, header_of, Log};
ghost use Rattle.group_model.specs.Knowledge.{prior_of, prior_chain, sent_part, heard, events, answer_by};
ghost use Rattle.group_model.specs.Knowledge.{motion_known, seed_known, forwarded, ratchet_before, known};
ghost use Rattle.group_model.specs.Knowledge.{answer_known, learnt_at, chain_known};
ghost use Rattle.group_model.specs.Marks.{HasNumber, marked, MarksPast, IsPlace, IsCrowd};

/// A past is the marked messages of its history where exactly its messages are marked, and each past has such marks,
/// which are one set. Each message has one number, and each number is one message's.
pub fn past_by_marks()
    ensures there_are { (h : History) (ids : List Id) → IsHistory h → (marks : ℕ → Bool) × MarksPast h ids marks }
    ensures past { (h : History) (ids : List Id) (marks : ℕ → Bool) → IsHistory h → MarksPast h ids marks
        → marked marks h ≡ past h ids }
    ensures one_set { (h : History) (ids : List Id) (a b : ℕ → Bool) (i : ℕ) → MarksPast h ids a → MarksPast h ids b
        → a i ≡ b i }
    ensures numbered { (h : History) (m : Message) → In m h → (i : ℕ) × HasNumber h i m }
    ensures one_number { (h : History) (m : Message) (i j : ℕ) → IsHistory h → HasNumber h i m → HasNumber h j m
        → i ≡ j }
    ensures one_message { (h : History) (m n : Message) (i : ℕ) → HasNumber h i m → HasNumber h i n → m ≡ n }
{}

/// Inside a past each of its messages has the past and the view that it has in the whole history. A message is in the
/// past of another exactly where it is one of the predecessors or in the past of one.
pub fn past_inside_a_past()
    ensures past { (h : History) (ids : List Id) (a : Message) → IsHistory h → In a (past h ids)
        → past (past h ids) a.predecessors ≡ past h a.predecessors }
    ensures view { (rule : History → List Id) (h : History) (ids : List Id) (a : Message) (x : Id) → IsHistory h
        → In a (past h ids) → InView rule (past h ids) a x ↔ InView rule h a x }
    ensures by_a_predecessor { (h : History) (m a : Message) → IsHistory h → In a (past h m.predecessors)
        ↔ ((b : Message) × In b h × In b.id m.predecessors × ((a ≡ b) ⊎ In a (past h b.predecessors))) }
{}

/// A head is a message that is no other's predecessor. Heads and addressees are one list each.
pub fn heads_by_predecessors()
    ensures heads { (h : History) (a : Message)
        → IsHead h a ↔ (In a h × ((b : Message) → In b h → In a.id b.predecessors → ⊥)) }
    ensures one_list { (h : History) (a b : List Id) → AreHeads h a → AreHeads h b → a ≡ b }
    ensures one_list_of_addressees { (rule : History → List Id) (h : History) (m : Message) (a b : List Id)
        → AreAddressees rule h m a → AreAddressees rule h m b → a ≡ b }
{}

/// The addressees of a message depend neither on its id nor on its body's digest, so a message whose body is still to
/// be made has them too.
pub fn addressees_before_the_body()
    ensures { (rule : History → List Id) → IsMembershipRule rule → (h : History) (m : Message) (i : Id) (b : Bytes)
        (ids : List Id) → IsHistory (m ∷ h) → IsHistory (record m { id = i; body = b } ∷ h)
        → AreAddressees rule (m ∷ h) m ids
        → AreAddressees rule (record m { id = i; body = b } ∷ h) (record m { id = i; body = b }) ids }
{}

/// The ids that a history names, in the order in which it names them, are places: each id has one, it is one id's, and
/// a later message leaves it. The bits of the ids in a list are one set.
pub fn places_stay()
    ensures named { (h : History) (x : Id) → In x (ids_named h) ↔ Named h x }
    ensures distinct { (h : History) → IsDistinct (ids_named h) }
    ensures there_is { (ids : List Id) (x : Id) → In x ids → (p : ℕ) × IsPlace ids p x }
    ensures one_place { (ids : List Id) (x : Id) (p q : ℕ) → IsDistinct ids → IsPlace ids p x → IsPlace ids q x
        → p ≡ q }
    ensures one_id { (ids : List Id) (x y : Id) (p : ℕ) → IsPlace ids p x → IsPlace ids p y → x ≡ y }
    ensures one_crowd { (ids members : List Id) (a b : ℕ → Bool) (p : ℕ) → IsCrowd ids a (λ x. In x members)
        → IsCrowd ids b (λ x. In x members) → a p ≡ b p }
    ensures stays { (h : History) (m : Message) (x : Id) (p : ℕ) → IsPlace (ids_named h) p x
        → IsPlace (ids_named (m ∷ h)) p x }
{}

/// A list that grows at its end, oldest message first, is a history that grows at its head.
pub fn pushes_go_to_the_head()
    ensures { (list : List Message) (m : Message) → reverse (list ++ m ∷ []) ≡ m ∷ reverse list }
{}

/// In a valid history in which nothing is forked the messages of a sender are a chain: each has the older ones in its
/// past. So an operation is answered by each member at most once, and each id is named once.
pub fn senders_are_chains()
    ensures older_in_past { (rule : History → List Id) (inviter : Id → Option Id) (h : History) (m a : Message)
        → MayFollow rule inviter h m → AllValid rule inviter h → AreUnforked h → IsUnforked h m → In a h
        → a.sender ≡ m.sender
        → In a (past h m.predecessors) }
    ensures numbered_once { (h : History) (a b : Message) → AreUnforked h → In a h → In b h → a.sender ≡ b.sender
        → a.seq ≡ b.seq → a ≡ b }
    ensures answered_once { (rule : History → List Id) (inviter : Id → Option Id) (h : History) (a b : Message) (i : Id)
        → IsHistory h → AllValid rule inviter h → AreUnforked h → In a h → In b h → a.sender ≡ b.sender
        → Answers a.kind i
        → Answers b.kind i → a ≡ b }
    ensures named_once { (rule : History → List Id) (inviter : Id → Option Id) (h : History) → IsHistory h
        → AllValid rule inviter h → AreUnforked h → NamedOnce h }
{}

/// What an entry adds to what is known of a ratchet, of the input of an answer and of a text chain, and what it leaves.
pub fn knowledge_by_entries()
    ensures ratchet_of_sender { (K : Primitives) (card : KeyPair) (self : Id) (e : LogEntry) (l : Log) (s : Id)
        → (header_of e).sender ≡ s → known K card self (e ∷ l) s
        ≡ turned_known K (motion_known K (header_of e).kind s (seed_known K card self e l)
        (λ i. answer_known K card self l i s (forwarded K card self e l)))
        (ratchet_before K card self e l (prior_of e (known K card self l s) s)) }
    ensures ratchet_of_others { (K : Primitives) (card : KeyPair) (self : Id) (e : LogEntry) (l : Log) (s : Id)
        → (header_of e).sender ≢ s → known K card self (e ∷ l) s ≡ prior_of e (known K card self l s) s }
    ensures input_of_entry { (K : Primitives) (card : KeyPair) (self : Id) (e : LogEntry) (l : Log) (i s : Id)
        (f : Option Bytes) → (header_of e).id ≡ i → answer_known K card self (e ∷ l) i s f
        ≡ answer_by K (header_of e).kind s (seed_known K card self e l)
        (ratchet_before K card self e l (prior_of e (known K card self l (header_of e).sender) (header_of e).sender))
        f }
    ensures input_of_others { (K : Primitives) (card : KeyPair) (self : Id) (e : LogEntry) (l : Log) (i s : Id)
        (f : Option Bytes) → (header_of e).id ≢ i
        → answer_known K card self (e ∷ l) i s f ≡ answer_known K card self l i s f }
    ensures chain_of_sender { (K : Primitives) (card : KeyPair) (self : Id) (e : LogEntry) (l : Log) (s : Id)
        → (header_of e).sender ≡ s → chain_known K card self (e ∷ l) s
        ≡ chain_after K (header_of e).kind (learnt_at K card self e l) (prior_chain e (chain_known K card self l s)) }
    ensures chain_of_others { (K : Primitives) (card : KeyPair) (self : Id) (e : LogEntry) (l : Log) (s : Id)
        → (header_of e).sender ≢ s → chain_known K card self (e ∷ l) s ≡ prior_chain e (chain_known K card self l s) }
    ensures start { (K : Primitives) (card : KeyPair) (self i s : Id) (f : Option Bytes)
        → (known K card self [] s ≡ Some empty_ratchet) × (answer_known K card self [] i s f ≡ f)
        × (chain_known K card self [] s ≡ None) }
{}

/// What a log adds to the events of a pair: a part that was heard, or a part that was sent.
pub fn events_by_entries()
    ensures none { (K : Primitives) (card : KeyPair) (self y : Id) → events K card self y [] ≡ [] }
    ensures joined { (K : Primitives) (card : KeyPair) (self y : Id) (p : Packet) (l : Log)
        → events K card self y (Joined p ∷ l) ≡ heard K card self y p (events K card self y l) }
    ensures took { (K : Primitives) (card : KeyPair) (self y : Id) (p : Packet) (l : Log)
        → events K card self y (Took p ∷ l) ≡ heard K card self y p (events K card self y l) }
    ensures made { (K : Primitives) (card : KeyPair) (self y : Id) (p : Packet) (t : Given) (l : Log)
        → events K card self y (Made p t ∷ l) ≡ sent_part K y t (part_for p.parts y) (events K card self y l) }
{}
