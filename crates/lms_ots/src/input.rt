// The inputs of the hashes: each is made up in one buffer on the stack.

ghost use Rattle.std.specs.Prelude.{◌≡◌, ◌≤◌, ◌+◌, ◌++◌, ◌∷◌, length, take, drop};
ghost use Rattle.lms_ots.specs.OneTime.{element_at, prefix};

pub(crate) const PREFIX: usize = 22;

pub(crate) const INPUT: usize = 55;

/// Writes a part into a buffer, from a place on.
pub fn put(into: &mut [u8], at: usize, part: &[u8])
    requires { at + length part.now ≤ length into.old }
    ensures { into.new ≡ take at into.old ++ (part.now ++ drop (at + length part.now) into.old) }
{
    into[at..at + part.len()].copy_from_slice(part);
}

/// The 32 bytes from a place on.
pub fn element_at(bytes: &[u8], place: usize) -> [u8; 32]
    requires { place + 32 ≤ length bytes.now }
    ensures { result ≡ element_at bytes.now place }
{
    let mut element = [0; 32];
    element.copy_from_slice(&bytes[place..place + 32]);
    element
}

/// The bytes that the input of a hash of RFC 8554, sections 4 and 5, begins with: the identifier, a number of four bytes and a
/// word of two, both big-endian.
pub fn prefix(identifier: &[u8; 16], number: u32, word: u16) -> [u8; 22]
    ensures { result ≡ prefix identifier.now number word }
{
    let mut bytes = [0; PREFIX];
    put(&mut bytes, 0, identifier);
    put(&mut bytes, 16, &number.to_be_bytes());
    put(&mut bytes, 20, &word.to_be_bytes());
    bytes
}

// A prefix, one byte, and a value: one block of SHA-256 with its padding.
pub(crate) fn step_input(start: &[u8; 22], byte: u8, value: &[u8; 32]) -> [u8; 55]
    ensures { result ≡ start.now ++ byte ∷ value.now }
{
    let mut input = [0; INPUT];
    put(&mut input, 0, start);
    put(&mut input, PREFIX, &[byte]);
    put(&mut input, PREFIX + 1, value);
    input
}
