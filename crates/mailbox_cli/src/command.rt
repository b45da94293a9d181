ghost use Rattle.std.specs.Prelude.{◌≡◌, ◌++◌, ◌+◌, ◌*◌, ◌<◌, ◌∷◌, List, ℕ, [], length, Option, Some, None, IfSome};
ghost use Rattle.std.specs.Prelude.{IfNone, MatchOption, nat_eq};
ghost use Rattle.mailbox_cli.specs.Words.{command_of, init_of, without_values, values_of, is_option, id_of, byte_of};
ghost use Rattle.mailbox_cli.specs.Words.{digit_of};

use group_fields::{Digest, MemberId, Text};

/// A command of the program.
#[derive(Clone, Copy, Debug, PartialEq, Eq)]
pub enum Command {
    /// Makes the member. Its inviter is the one member that can add it to a group; without one nobody can.
    Init(Option<MemberId>),
    /// Puts the member's card into the mail folder.
    Card,
}

/// The command that the words spell, by the grammar of the words.
pub fn read_command(words: &[Text]) -> Option<Command>
    ensures { result ≡ command_of words.now }
{
    let (first, rest) = words.split_first()?;
    let (before, after) = read_values(rest)?;
    match first.as_str() {
        "init" => read_init(before, after),
        "card" => without_values(Command::Card, before, after),
        _ => None,
    }
}

/// A command that takes no value, with the values in two parts.
fn without_values(command: Command, before: &[Text], after: &[Text]) -> Option<Command>
    ensures { result ≡ without_values command (before.now ++ after.now) }
{
    match before {
        [] => match after {
            [] => Some(command),
            [_, ..] => None,
        },
        [_, ..] => None,
    }
}

/// `init` with the values in two parts.
fn read_init(before: &[Text], after: &[Text]) -> Option<Command>
    ensures { result ≡ init_of (before.now ++ after.now) }
{
    match before {
        [] => match after {
            [] => Some(Command::Init(None)),
            [id] => read_inviter(id),
            [_, _, ..] => None,
        },
        [id] => match after {
            [] => read_inviter(id),
            [_, ..] => None,
        },
        [_, _, ..] => None,
    }
}

/// `init` with an inviter.
fn read_inviter(id: &Text) -> Option<Command>
    ensures { result ≡ init_of (id.now ∷ []) }
{
    Some(Command::Init(Some(read_id(id.as_bytes())?)))
}

/// The values among the words behind the first: those before `--` and those behind it.
fn read_values(words: &[Text]) -> Option<(&[Text], &[Text])>
    ensures none { IfNone result (values_of words.now ≡ None) }
    ensures some { IfSome result (λ parts. values_of words.now ≡ Some (parts.0.now ++ parts.1.now)) }
{
    for (index, word) in words.iter().enumerate() {
        if word.as_str() == "--" {
            return Some((&words[..index], &words[index + 1..]));
        }
        if looks_like_option(word.as_bytes()) {
            return None;
        }
    }
    Some((words, &[]))
}

/// Whether a word of two or more bytes begins with a hyphen.
fn looks_like_option(word: &[u8]) -> bool
    ensures { result ≡ is_option word.now }
{
    matches!(word, [b'-', _, ..])
}

/// The id that 64 lower-case hexadecimal digits spell.
fn read_id(word: &[u8]) -> Option<MemberId>
    ensures none { IfNone result (id_of word.now ≡ None) }
    ensures some { IfSome result (λ id. id_of word.now ≡ Some id.0.0) }
{
    if word.len() != 64 {
        return None;
    }
    let mut id = [0; 32];
    for index in 0..32 {
        id[index] = read_byte(word[2 * index], word[2 * index + 1])?;
    }
    Some(MemberId(Digest(id)))
}

/// The byte that two digits spell, the high one first.
fn read_byte(high: u8, low: u8) -> Option<u8>
    ensures { result ≡ byte_of high low }
{
    let first = read_digit(high)?;
    let second = read_digit(low)?;
    Some(16 * first + second)
}

/// The value of a lower-case hexadecimal digit.
fn read_digit(digit: u8) -> Option<u8>
    ensures value { result ≡ digit_of digit }
    ensures small { IfSome result (λ value. value < 16) }
{
    match digit {
        b'0'..=b'9' => Some(digit - b'0'),
        b'a'..=b'f' => Some(digit - b'a' + 10),
        _ => None,
    }
}
