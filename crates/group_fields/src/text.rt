ghost use Rattle.std.specs.Prelude.{◌≡◌, List, ℕ, string_bytes, IfOk};

use crate::Memory;
use std::alloc::Global;
use std::marker::Model;

/// A UTF-8 text that owns its memory. Contracts see the list of its bytes.
#[derive(Debug, Drop)]
pub struct Text {
    characters: String,
}

impl Model for Text {
    ghost Value = { List ℕ };

    ghost view = { λ text. string_bytes text.characters };
}

impl Text {
    /// A copy of a text.
    pub fn copy_of(alloc: Global, characters: &str) -> Result<Text, Memory>
        ensures { IfOk result (λ text. text ≡ characters.now) }
    {
        Ok(Text {
            characters: String::from_str(alloc, characters)?,
        })
    }

    /// The string that holds the text, which takes no memory.
    pub fn into_string(self) -> String
        ensures { string_bytes result ≡ self }
    {
        let Text { characters } = self;
        characters
    }

    pub fn as_str(&self) -> &str
        ensures { result.now ≡ self.now }
    {
        self.characters.as_str()
    }

    pub fn as_bytes(&self) -> &[u8]
        ensures { result.now ≡ self.now }
    {
        self.characters.as_bytes()
    }
}

/// The text of a string, which takes no memory.
impl From<String> for Text {
    ghost from_gives = { λ string text. text ≡ string_bytes string };

    fn from(characters: String) -> Text {
        Text { characters }
    }
}
