//! The inputs of answers that a member keeps.

ghost use Rattle.std.specs.Prelude.{◌≡◌, [], Some, None, OnOk, OnErr};
ghost use Rattle.secret_book.specs.HeldBooks.{keep_in, kept_by};

use group_fields::MessageId;
use std::alloc::{AllocError, Global};
use std::collections::BTreeMap;
use std::marker::Model;

/// An answer to an operation, by who makes it.
#[derive(Clone, Copy, PartialEq, Eq, PartialOrd, Ord)]
struct Answer {
    of: MessageId,
    place: u8,
}

/// Of each answer its input, where it is kept. Contracts see the list of them.
#[derive(Drop)]
pub(crate) struct KeptSecrets {
    secrets: BTreeMap<Answer, [u8; 32]>,
}

impl Model for KeptSecrets {
    ghost use Rattle.std.specs.Prelude.{List};
    ghost use Rattle.secret_book.specs.HeldBooks.{KeptSecret};
    ghost use Rattle.secret_book.specs.Kept.{kept_rows};

    ghost Value = { List KeptSecret };

    ghost view = { λ kept. kept_rows kept.secrets.entries };
}

impl KeptSecrets {
    /// Nothing is kept.
    pub(crate) fn new(alloc: Global) -> KeptSecrets
        ensures { result ≡ [] }
    {
        KeptSecrets {
            secrets: BTreeMap::new(alloc),
        }
    }

    /// Keeps a secret for the answer of a place to an operation.
    pub(crate) fn keep(
        &mut self,
        of: MessageId,
        place: u8,
        secret: [u8; 32],
    ) -> Result<(), AllocError>
        ensures kept { OnOk result (kept_by self.new ≡ keep_in (kept_by self.old) of.0.0 place (Some secret)) }
        ensures unchanged { OnErr result (self.new ≡ self.old) }
    {
        self.secrets.insert(Answer { of, place }, secret)?;
        Ok(())
    }

    /// Takes what is kept for the answer of a place to an operation.
    pub(crate) fn spend(&mut self, of: &MessageId, place: u8) -> Option<[u8; 32]>
        ensures secret { result ≡ kept_by self.old of.now.0.0 place }
        ensures spent { kept_by self.new ≡ keep_in (kept_by self.old) of.now.0.0 place None }
    {
        self.secrets.remove(&Answer { of: *of, place })
    }
}
