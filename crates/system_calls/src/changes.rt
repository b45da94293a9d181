ghost use Rattle.std.specs.Prelude.{◌≡◌, ◌∷◌, ◌++◌, [], ◌≤◌, ◌+◌, Some, None, Bool, IfOk, OnOk, OnErr};
ghost use Rattle.std.specs.Prelude.{◌≢◌, List, ℕ};
ghost use Rattle.std.specs.Option.{option_map};
ghost use Rattle.system_calls.specs.Stored.{named, MayName};
ghost use Rattle.system_calls.specs.MemFiles.{changed, all_changed, seen_as, ChangesBy, Unchanged};

use crate::StoredFile;
use group_fields::{Memory, Text};
use std::alloc::Global;

/// What became of one path.
#[derive(Debug, Drop)]
pub(crate) enum Change {
    /// This is under it.
    Put(Text, StoredFile),
    /// Nothing is under it.
    Gone(Text),
    /// It went from one path to another, and is there now.
    Moved(Text, Text, StoredFile),
    /// Its name would survive a loss of power.
    Named(Text),
}

/// What is under a path after one change more: the file as it was put, and whether its name would survive.
fn after<'a>(
    seen: Option<(&'a StoredFile, bool)>,
    change: &'a Change,
    path: &str,
) -> Option<(&'a StoredFile, bool)>
    ensures { seen_as result ≡ changed path.now (seen_as seen.entry) change.now }
{
    match change {
        Change::Put(other, file) if other.as_str() == path => Some((file, file.is_named)),
        Change::Gone(other) if other.as_str() == path => None,
        Change::Moved(_, to, file) if to.as_str() == path => Some((file, file.is_named)),
        Change::Moved(from, _, _) if from.as_str() == path => None,
        Change::Named(other) if other.as_str() == path => seen.map(|(file, _)| (file, true)),
        _ => seen,
    }
}

/// What is under a path after all changes, the oldest first.
pub(crate) fn look<'a>(changes: &'a [Change], path: &str) -> Option<(&'a StoredFile, bool)>
    ensures { seen_as result ≡ all_changed path.now None changes.now }
{
    let mut seen = None;
    for change in changes {
        seen = after(seen, change, path);
    }
    seen
}

/// Adds one change.
pub(crate) fn add(changes: &mut Vec<Change>, change: Change) -> Result<(), Memory>
    ensures ok { OnOk result (ChangesBy change changes.old.items changes.new.items) }
    ensures err { OnErr result (Unchanged changes.old.items changes.new.items) }
{
    changes.push(change)?;
    Ok(())
}

/// Puts a file under a path.
pub(crate) fn put(
    changes: &mut Vec<Change>,
    alloc: Global,
    path: &str,
    file: StoredFile,
) -> Result<(), Memory>
    ensures there { OnOk result (all_changed path.now None changes.new.items ≡ Some file) }
    ensures others { (other : List ℕ) → other ≢ path.now →
        all_changed other None changes.new.items ≡ all_changed other None changes.old.items }
    ensures err { OnErr result (Unchanged changes.old.items changes.new.items) }
{
    let path = Text::copy_of(alloc, path)?;
    add(changes, Change::Put(path, file))
}

/// Leaves nothing under a path.
pub(crate) fn take_away(changes: &mut Vec<Change>, alloc: Global, path: &str) -> Result<(), Memory>
    ensures gone { OnOk result (all_changed path.now None changes.new.items ≡ None) }
    ensures others { (other : List ℕ) → other ≢ path.now →
        all_changed other None changes.new.items ≡ all_changed other None changes.old.items }
    ensures err { OnErr result (Unchanged changes.old.items changes.new.items) }
{
    let path = Text::copy_of(alloc, path)?;
    add(changes, Change::Gone(path))
}

/// Lets the name of a path survive.
pub(crate) fn name(changes: &mut Vec<Change>, alloc: Global, path: &str) -> Result<(), Memory>
    ensures named { OnOk result (all_changed path.now None changes.new.items
        ≡ option_map named (all_changed path.now None changes.old.items)) }
    ensures names { (other : List ℕ) → MayName (all_changed other None changes.old.items)
        (all_changed other None changes.new.items) }
    ensures err { OnErr result (Unchanged changes.old.items changes.new.items) }
{
    let path = Text::copy_of(alloc, path)?;
    add(changes, Change::Named(path))
}

/// Moves a file from one path to another.
pub(crate) fn move_to(
    changes: &mut Vec<Change>,
    alloc: Global,
    from: &str,
    to: &str,
    file: StoredFile,
) -> Result<(), Memory>
    ensures there { OnOk result (all_changed to.now None changes.new.items ≡ Some file) }
    ensures gone { OnOk result (from.now ≢ to.now → all_changed from.now None changes.new.items ≡ None) }
    ensures others { (other : List ℕ) → other ≢ from.now → other ≢ to.now →
        all_changed other None changes.new.items ≡ all_changed other None changes.old.items }
    ensures err { OnErr result (Unchanged changes.old.items changes.new.items) }
{
    let from = Text::copy_of(alloc, from)?;
    let to = Text::copy_of(alloc, to)?;
    add(changes, Change::Moved(from, to, file))
}
