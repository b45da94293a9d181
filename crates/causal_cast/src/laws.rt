//! Laws of the verdicts. Each function does nothing; its contract is the law.

ghost use Rattle.std.specs.Prelude.{◌≡◌, ◌↔◌, ◌∷◌, List};
ghost use Rattle.causal_history.specs.Rows.{history_of};
ghost use Rattle.group_model.specs.Sets.{Id};
ghost use Rattle.group_model.specs.Messages.{History, Message, IsHistory};
ghost use Rattle.group_model.specs.Membership.{IsAddressee};
ghost use Rattle.group_model.specs.Packets as model;
ghost use Rattle.group_model.specs.Settings.{Owner};
ghost use Rattle.group_model.specs.Logs.{Log};
ghost use Rattle.group_model.specs.LawfulLogs.{TakesPacket};
ghost use Rattle.member_view.specs.Causes.{IsFirst};
ghost use Rattle.wire_codec.specs.Packets.{Packet};
ghost use Rattle.causal_cast.specs.Judging.{Judging};
ghost use Rattle.causal_cast.specs.Taken.{IsSeenBy};
ghost use Rattle.causal_cast.specs.Verdicts.{IsOfJudge, MayBeTaken, verdicts};
ghost use Rattle.causal_cast.specs.declared.verdict.Verdict.{Verdict};
ghost use Rattle.causal_cast.specs.declared.verdict.Verdict.TheVariants as answers;

/// One verdict is the first that holds, and it is none of a packet that can't be read or of a member without a group.
pub fn verdicts_are_one()
    ensures one { (J : Judging) (packet : Packet) (a b : Verdict) → IsFirst (verdicts J packet) a
        → IsFirst (verdicts J packet) b → a ≡ b }
    ensures of_judge { (J : Judging) (packet : Packet) (a : Verdict) → IsFirst (verdicts J packet) a → IsOfJudge a }
{}

/// A packet that is ready over a history is one that may be taken, and every log that has this history may take it.
pub fn what_is_ready_may_be_taken()
    ensures ready { (J : Judging) (packet : Packet) → IsHistory (history_of J.rows)
        → IsFirst (verdicts J packet) answers.Ready → MayBeTaken J packet }
    ensures lawful { (J : Judging) (packet : Packet) (O : Owner) (l : Log) (p : model.Packet) → MayBeTaken J packet
        → IsSeenBy J packet O l p → TakesPacket O l p }
{}

/// Whom a message sends parts to is the same over its history and over the history with the message itself.
pub fn addressees_are_of_the_past()
    ensures { (rule : History → List Id) (h : History) (m : Message) → IsHistory (m ∷ h) → (y : Id)
        → IsAddressee rule (m ∷ h) m m.kind y ↔ IsAddressee rule h m m.kind y }
{}
