ghost use Rattle.std.specs.Prelude.{◌≡◌, ◌≢◌, ◌≤◌, [], map, Some, None, IfOk, IfErr, IsOkAnd, MatchOption, MatchResult};
ghost use Rattle.std.specs.Prelude.{string_bytes};
ghost use Rattle.std.specs.IoError.{error_kind};
ghost use Rattle.std.specs.Vec.Iter.{into_iter_items};
ghost use Rattle.std.specs.declared.io.ErrorKind.TheVariants.{OutOfMemory};
ghost use Rattle.mailbox_cli.specs.Lines.{failure_of};
ghost use Rattle.mailbox_cli.specs.Words.{command_in, journal_in, mail_in};

use crate::ended::Ended;
use group_fields::{Memory, Text};
use std::alloc::{AllocError, Global};
use std::env::Args;
use std::io;
use std::io::ErrorKind;

/// The words that were given, the program's name in front, or none where one of them is not UTF-8.
pub(crate) fn given_words(alloc: Global, arguments: io::Result<Args>) -> Result<Vec<Text>, Memory>
    ensures given { IfOk arguments (λ all. IfOk result (λ words.
        words.items ≡ map string_bytes (into_iter_items all))) }
    ensures not_text { IfErr arguments (λ error. error_kind error ≢ OutOfMemory
        → IsOkAnd result (λ words. words.items ≡ [])) }
{
    match arguments {
        Ok(arguments) => texts_of(alloc, arguments),
        Err(error) => {
            if error.kind() == ErrorKind::OutOfMemory {
                return Err(AllocError);
            }
            Ok(Vec::new(alloc))
        }
    }
}

/// Each argument as a text.
fn texts_of(alloc: Global, mut arguments: Args) -> Result<Vec<Text>, Memory>
    ensures { IfOk result (λ texts. texts.items ≡ map string_bytes (into_iter_items arguments)) }
{
    let mut texts = Vec::new(alloc);
    while let Some(argument) = arguments.next() {
        texts.push(Text::from(argument))?;
    }
    Ok(texts)
}

/// The path of the journal, that of the mail folder, and the words of the command: the words behind the program's name.
/// Fewer than two of these name no path, and spell no command.
pub(crate) fn parts_of(words: &[Text]) -> (&str, &str, &[Text])
    ensures journal { result.0.now ≡ journal_in words.now }
    ensures mail { result.1.now ≡ mail_in words.now }
    ensures command { result.2.now ≡ command_in words.now }
{
    match words {
        [_, journal, mail, command @ ..] => (journal.as_str(), mail.as_str(), command),
        _ => ("", "", &[]),
    }
}

/// How a run ended, and why each device failed last, where the adapter over it knows the system's reason.
#[derive(Debug, Drop)]
pub(crate) struct Outcome {
    pub(crate) ended: Ended,
    pub(crate) disk: Option<ErrorKind>,
    pub(crate) post: Option<ErrorKind>,
    pub(crate) entropy: Option<ErrorKind>,
    pub(crate) output: Option<ErrorKind>,
}

/// The status of the process: that of the run, or 9 where memory ran out before it.
pub(crate) fn exit_status(outcome: &Result<Outcome, Memory>) -> u8
    ensures { MatchResult outcome.now (λ outcome. result ≡ outcome.ended.status) (λ _. result ≡ 9) }
{
    match outcome {
        Ok(outcome) => outcome.ended.status,
        Err(_) => 9,
    }
}

/// The system's reason for the failure that the status names.
pub(crate) fn reason_of(outcome: &Result<Outcome, Memory>) -> Option<ErrorKind>
    ensures disk { IfOk outcome.now (λ outcome. outcome.ended.status ≡ 4 → result ≡ outcome.disk) }
    ensures post { IfOk outcome.now (λ outcome. outcome.ended.status ≡ 5 → result ≡ outcome.post) }
    ensures entropy { IfOk outcome.now (λ outcome. outcome.ended.status ≡ 6 → result ≡ outcome.entropy) }
    ensures output { IfOk outcome.now (λ outcome. outcome.ended.status ≡ 7 → result ≡ outcome.output) }
{
    match outcome {
        Ok(outcome) => match outcome.ended.status {
            4 => outcome.disk,
            5 => outcome.post,
            6 => outcome.entropy,
            7 => outcome.output,
            _ => None,
        },
        Err(_) => None,
    }
}

/// What a person is told where a device failed or memory ran out.
pub(crate) fn failure_text(status: u8) -> Option<&'static str>
    ensures { MatchOption result (failure_of status ≡ None) (λ text. failure_of status ≡ Some text.now) }
{
    match status {
        4 => Some("the journal could not be read or written"),
        5 => Some("the mail folder could not be read or written"),
        6 => Some("no random bytes could be read"),
        7 => Some("the output could not be written"),
        9 => Some("memory ran out"),
        _ => None,
    }
}
