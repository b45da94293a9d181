ghost use Rattle.std.specs.Prelude.{◌≡◌, ◌+◌, ◌-◌, ◌<◌, ◌≤◌, ◌↔◌, length, take, drop, IsNone, IfSome, IfNone};
ghost use Rattle.group_fields.specs.Reading.{Reading};

use std::marker::Model;

/// A reader that takes fields from the front of a byte string and lends them out of it.
/// Contracts see the whole string and the place of the next byte.
#[derive(Debug, Drop)]
pub struct Cursor<'a> {
    bytes: &'a [u8],
    next: usize,
}

impl<'a> Model for Cursor<'a> {
    ghost use Rattle.std.specs.Prelude.{◌≤◌, length};
    ghost use Rattle.group_fields.specs.Reading.{Reading};

    ghost Value = { Reading };

    ghost view = { λ cursor. record { whole = cursor.bytes.now; place = cursor.next } };

    ghost invariant = { λ cursor. cursor.next ≤ length cursor.bytes.now };
}

impl<'a> Cursor<'a> {
    /// A reader at the first byte.
    pub fn new(bytes: &'a [u8]) -> Cursor<'a>
        ensures { result ≡ record { whole = bytes.now; place = 0 } }
    {
        Cursor { bytes, next: 0 }
    }

    /// The place of the next byte, which is at most the string's length.
    pub fn place(&self) -> usize
        ensures place { result ≡ self.now.place }
        ensures within { result ≤ length self.now.whole }
    {
        self.next
    }

    /// The bytes from a place up to the next byte.
    pub fn since(&self, place: usize) -> &'a [u8]
        requires { place ≤ self.now.place }
        ensures { result.now ≡ take (self.now.place - place) (drop place self.now.whole) }
    {
        &self.bytes[place..self.next]
    }

    /// The next `count` bytes, where as many are left. Otherwise the reader stays where it is.
    pub fn take(&mut self, count: usize) -> Option<&'a [u8]>
        ensures part { IfSome result (λ part. part.now ≡ take count (drop self.old.place self.old.whole)) }
        ensures moved { IfSome result (λ part. self.new ≡ record { whole = self.old.whole; place = self.old.place + count }) }
        ensures none { IsNone result ↔ (length self.old.whole - self.old.place < count) }
        ensures same { IfNone result (self.new ≡ self.old) }
    {
        if self.bytes.len() - self.next < count {
            return None;
        }
        let part = &self.bytes[self.next..self.next + count];
        self.next += count;
        Some(part)
    }
}
