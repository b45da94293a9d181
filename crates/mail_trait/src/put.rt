ghost use Rattle.std.specs.Prelude.{◌≡◌, ◌++◌, ◌∷◌, [], IfOk, OnOk, OnErr};
ghost use Rattle.mail_trait.specs.Post.{put_of};

use group_fields::{Bytes, Memory, Text};
use std::alloc::Global;

/// One put of a mail folder: the name, the bytes, and whether they were put whole. Where they weren't, the name may
/// have any of them, or none.
#[derive(Debug, Drop)]
pub struct Put {
    pub name: Text,
    pub bytes: Bytes,
    pub is_whole: bool,
}

/// Appends a copy of a put to the list. Where memory lacks, the list stays as it was.
pub(crate) fn note_put(
    puts: &mut Vec<Put>,
    alloc: Global,
    name: &str,
    bytes: &[u8],
    is_whole: bool,
) -> Result<(), Memory>
    ensures noted { OnOk result (puts.new.items ≡ puts.old.items ++ put_of name.now bytes.now is_whole ∷ []) }
    ensures unchanged { OnErr result (puts.new.items ≡ puts.old.items) }
{
    let put = Put {
        name: Text::copy_of(alloc, name)?,
        bytes: Bytes::copy_of(alloc, bytes)?,
        is_whole,
    };
    puts.push(put)?;
    Ok(())
}
