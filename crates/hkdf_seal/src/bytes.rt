// Parts of a buffer.

ghost use Rattle.std.specs.Prelude.{◌≡◌, ◌≤◌, ◌+◌, ◌++◌, length, take, drop};

// Writes a part at a place.
pub(crate) fn put(into: &mut [u8], at: usize, part: &[u8])
    requires { at + length part.now ≤ length into.old }
    ensures { into.new ≡ take at into.old ++ (part.now ++ drop (at + length part.now) into.old) }
{
    into[at..at + part.len()].copy_from_slice(part);
}
