ghost use Rattle.std.specs.Prelude.{◌≡◌, IfOk, string_bytes};
ghost use Rattle.mailbox_cli.specs.Lines.{refusal_line, status_of};
ghost use Rattle.mailbox_cli.specs.Parts.{Refuses, Says};

use crate::devices::print;
use crate::ended::{Ended, Refusal};
use group_fields::Memory;
use mail_trait::Sink;
use std::alloc::Global;

/// The status of a refusal.
fn status_of(refusal: Refusal) -> u8
    ensures { result ≡ status_of refusal }
{
    match refusal {
        Refusal::Words => 2,
        Refusal::NotMade | Refusal::AlreadyMade | Refusal::NoUsableKey => 3,
        Refusal::NotJournal(_) => 8,
    }
}

/// The line of a refusal.
fn line_of(alloc: Global, refusal: Refusal) -> Result<String, Memory>
    ensures { IfOk result (λ text. string_bytes text ≡ refusal_line refusal) }
{
    match refusal {
        Refusal::Words => format!(in alloc; "refused words\n"),
        Refusal::NotMade => format!(in alloc; "refused not-made\n"),
        Refusal::AlreadyMade => format!(in alloc; "refused already-made\n"),
        Refusal::NoUsableKey => format!(in alloc; "refused no-usable-key\n"),
        Refusal::NotJournal(place) => format!(in alloc; "not a journal {place}\n"),
    }
}

/// Prints a line and answers so. Where that fails, the fault stands in its place.
pub(crate) fn say<S: Sink>(text: &[u8], ended: Ended, out: &mut S) -> Ended
    ensures { Says ⟦<S as Sink>⟧ text.now ended.status ended.refusal out.old out.new result }
{
    match print(text, out) {
        Ok(()) => ended,
        Err(fault) => fault,
    }
}

/// Prints the line of a refusal and answers so. Where that fails, the fault stands in its place.
pub(crate) fn refuse<S: Sink>(alloc: Global, refusal: Refusal, out: &mut S) -> Ended
    ensures { Refuses ⟦<S as Sink>⟧ refusal out.old out.new result }
{
    match line_of(alloc, refusal) {
        Err(_) => Ended::NO_MEMORY,
        Ok(text) => {
            let ended = Ended {
                status: status_of(refusal),
                refusal: Some(refusal),
            };
            say(text.as_bytes(), ended, out)
        }
    }
}
