ghost use Rattle.std.specs.Prelude.{◌≡◌, ◌⊎◌, [], ◌∷◌, ◌++◌, OnOk, OnErr, IfOk, IfErr};
ghost use Rattle.std.specs.FinMap.{insert};
ghost use Rattle.group_fields.specs.Plan.{next_call};
ghost use Rattle.mail_trait.specs.Post.{SameElsewhere, whole_put, failed_put};
ghost use Rattle.mail_trait.specs.Sink.{AppendsPrefix};
ghost use Rattle.mailbox_cli.specs.Call.{IsFaultOf};

use crate::ended::Ended;
use mail_trait::{Entropy, MailError, Post, Sink};

/// Draws random bytes, with one call of the source.
pub(crate) fn draw<E: Entropy>(entropy: &mut E) -> Result<[u8; 32], Ended>
    ensures drawn { E.told → IfOk result (λ random. E.given entropy.new ≡ E.given entropy.old ++ random ∷ []) }
    ensures kept { E.told → OnErr result (E.given entropy.new ≡ E.given entropy.old) }
    ensures asked { E.told → E.asked entropy.new ≡ next_call (E.asked entropy.old) }
    ensures counts { OnOk result (E.counts entropy.new ≡ E.counts entropy.old) }
    ensures cause { IfErr result (λ ended. IsFaultOf 6 (E.counts entropy.old) (E.counts entropy.new) ended) }
{
    let mut random = [0; 32];
    match entropy.seed32(&mut random) {
        Ok(()) => Ok(random),
        Err(MailError::Failed) => Err(Ended::ENTROPY_FAULT),
        Err(MailError::Memory) => Err(Ended::NO_MEMORY),
    }
}

/// Puts bytes into the mail folder, with one put.
pub(crate) fn put<P: Post>(name: &str, bytes: &[u8], post: &mut P) -> Result<(), Ended>
    ensures files { P.told → OnOk result (P.files post.new ≡ insert (P.files post.old) name.now bytes.now) }
    ensures seen { P.told → OnOk result (P.puts post.new ≡ P.puts post.old ++ whole_put name.now bytes.now ∷ []) }
    ensures others { P.told → SameElsewhere name.now (P.files post.old) (P.files post.new) }
    ensures failed { P.told → OnErr result ((P.puts post.new ≡ P.puts post.old ++ failed_put name.now bytes.now ∷ [])
        ⊎ ((P.puts post.new ≡ P.puts post.old) × (P.files post.new ≡ P.files post.old))) }
    ensures counts { OnOk result (P.counts post.new ≡ P.counts post.old) }
    ensures cause { IfErr result (λ ended. IsFaultOf 5 (P.counts post.old) (P.counts post.new) ended) }
{
    match post.put(name, bytes) {
        Ok(()) => Ok(()),
        Err(MailError::Failed) => Err(Ended::POST_FAULT),
        Err(MailError::Memory) => Err(Ended::NO_MEMORY),
    }
}

/// Writes bytes to the output.
pub(crate) fn print<S: Sink>(text: &[u8], out: &mut S) -> Result<(), Ended>
    ensures written { S.told → OnOk result (S.written out.new ≡ S.written out.old ++ text.now) }
    ensures part { S.told → AppendsPrefix text.now (S.written out.old) (S.written out.new) }
    ensures counts { OnOk result (S.counts out.new ≡ S.counts out.old) }
    ensures cause { IfErr result (λ ended. IsFaultOf 7 (S.counts out.old) (S.counts out.new) ended) }
{
    match out.write(text) {
        Ok(()) => Ok(()),
        Err(MailError::Failed) => Err(Ended::SINK_FAULT),
        Err(MailError::Memory) => Err(Ended::NO_MEMORY),
    }
}
