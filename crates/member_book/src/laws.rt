//! Laws of the book. Each function does nothing; its contract is the law.

ghost use Rattle.member_book.specs.Standing.{StartKeeps, StepKeeps, LearnsSame, OpensSame, SealsSame, SendsSame};
ghost use Rattle.member_book.specs.Standing.{PartsSame};
ghost use Rattle.member_book.specs.Laws.{EntryKeeps, LogKeeps, MakesSame, NoneToSelf, OwnKnown, BookAgrees, BookReads};
ghost use Rattle.member_book.specs.Calls.{CallsMake, SendsEach, SpendFirst};
ghost use Rattle.member_book.specs.Places.{PlacesServe, MeetServes, KeepsEach};
ghost use Rattle.member_book.specs.PairStates.{PairState, PairStands, at_start, after_send, after_open, next_part};
ghost use Rattle.member_book.specs.PairStates.{opens_to};
ghost use Rattle.std.specs.Prelude.{◌≡◌, List, [], ◌∷◌, Some};
ghost use Rattle.group_model.specs.Sets.{Bytes, Id};
ghost use Rattle.group_model.specs.Primitives.{KeyPair, Content, Primitives};
ghost use Rattle.group_model.specs.Settings.{Owner};
ghost use Rattle.group_model.specs.Logs.{Log};
ghost use Rattle.group_model.specs.Knowledge.{events};
ghost use Rattle.group_model.specs.Pairing.{Part, Draws, PairEvent, Sent, Opened, part_to, opened};

/// The book of no entry stands for the empty log, and after an entry that fits a book that stood for a log stands for
/// the longer one. It gives the update secret that the log tells.
pub fn a_step_keeps_the_book()
    ensures start { StartKeeps }
    ensures step { StepKeeps }
    ensures learns { LearnsSame }
{}

/// A text opens, is sealed, and each part is made, by the book as by the log that it stands for.
pub fn the_book_carries_what_is_sent()
    ensures opens { OpensSame }
    ensures seals { SealsSame }
    ensures sends { SendsSame }
    ensures parts { PartsSame }
{}

/// The book of every lawful log stands for it; its member knows its own ratchet and text chain, and sends itself
/// nothing.
pub fn the_book_stands_for_its_log()
    ensures entry { EntryKeeps }
    ensures log { LogKeeps }
    ensures makes { MakesSame }
    ensures own_place { NoneToSelf }
    ensures own_known { OwnKnown }
{}

/// In every lawful world the book gives, of each message that its member is entitled to, the update secret of the
/// maker's terms, and of each text its bytes.
pub fn books_agree()
    ensures secrets { BookAgrees }
    ensures texts { BookReads }
{}

/// The calls of a step, one after the other, make the book after its entry.
pub fn calls_make_the_book()
    ensures calls { CallsMake }
    ensures sends { SendsEach }
    ensures spends { SpendFirst }
{}

/// A book by places serves as one by ids: each call at a place is that at its id, and meeting an id changes nothing.
pub fn places_serve()
    ensures calls { PlacesServe }
    ensures meets { MeetServes }
    ensures keeps { KeepsEach }
{}

/// A pairing's state is enough: it stands for the events of the pair at the start, after each send and after each part
/// that its kept key opens, so there is one for each pairing of each log; and where it stands, its next part and what a
/// part opens to are those of the events.
pub fn a_state_serves_a_pairing()
    ensures starts { (card : KeyPair) (theirs : Bytes) → PairStands card theirs [] (at_start card.secret theirs) }
    ensures sends { (card : KeyPair) (theirs : Bytes) (es : List PairEvent) (k : PairState) (d : Draws)
        → PairStands card theirs es k → PairStands card theirs (Sent d ∷ es) (after_send k d) }
    ensures opens { (K : Primitives) (card : KeyPair) (theirs : Bytes) (es : List PairEvent) (k : PairState)
        (part : Part) (content : Content) → PairStands card theirs es k → opens_to K k part ≡ Some content
        → PairStands card theirs (Opened part content ∷ es) (after_open k part.made_by_sender part.number content) }
    ensures of_logs { (O : Owner) (y : Id) (l : Log) → (k : PairState)
        × PairStands O.card (O.public_key y) (events O.primitives O.card O.id y l) k }
    ensures next { (K : Primitives) (card : KeyPair) (theirs : Bytes) (es : List PairEvent) (k : PairState) (d : Draws)
        (payload : Bytes) → PairStands card theirs es k → next_part K k d payload ≡ part_to K theirs es d payload }
    ensures opened { (K : Primitives) (card : KeyPair) (theirs : Bytes) (es : List PairEvent) (k : PairState)
        (part : Part) → PairStands card theirs es k → opens_to K k part ≡ opened K card es part }
{}
