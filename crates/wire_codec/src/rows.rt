ghost use Rattle.std.specs.Prelude.{◌≡◌, ◌<◌, ◌≤◌, ◌+◌, ◌∷◌, [], Some, drop, length, slice_get, take};
ghost use Rattle.std.specs.Prelude.{IfErr, IfOk, IfSome, IfNone};
ghost use Rattle.std.specs.Int.{from_be_bytes, w16};
ghost use Rattle.group_fields.specs.Fields.{place_of};
ghost use Rattle.group_fields.specs.Headers.{header};
ghost use Rattle.group_fields.specs.LayoutReads.{Takes, read_whole, whole_seen};
ghost use Rattle.wire_codec.specs.Packets.{counted_rows, greatest_size, row};
ghost use Rattle.wire_codec.specs.Readings.{IsIn, Passes};
ghost use Rattle.wire_codec.specs.Repeated.{repeated};

use crate::faults::fault_behind;
use group_fields::{Cursor, FieldFault, HeaderView, end, take_bytes, take_header, take_u16};
use std::marker::Model;

// The most headers of a history that an add hands on.
const GREATEST_ROWS: u16 = 4095;

/// A walk over headers that are lent out of the bytes in which they stand, each behind its length. Contracts see the
/// list of those that are left.
#[derive(Debug, Drop)]
pub struct Rows<'a> {
    bytes: &'a [u8],
    count: u16,
}

impl<'a> Model for Rows<'a> {
    ghost use Rattle.std.specs.Prelude.{List};
    ghost use Rattle.group_fields.specs.declared.header.Header.{Header};
    ghost use Rattle.wire_codec.specs.Packets.{row};
    ghost use Rattle.wire_codec.specs.Readings.{AreRows};
    ghost use Rattle.wire_codec.specs.Repeated.{items_in};

    ghost Value = { List Header };

    ghost view = { λ rows. items_in row rows.count rows.bytes.now };

    ghost invariant = { λ rows. AreRows rows.count rows.bytes.now };
}

impl<'a> Rows<'a> {
    /// How many are left.
    pub fn count(&self) -> u16
        ensures { result ≡ length self.now }
    {
        self.count
    }

    /// The next header.
    pub fn next(&mut self) -> Option<HeaderView<'a>>
        ensures some { IfSome result (λ header. self.old ≡ header ∷ self.new) }
        ensures none { IfNone result (self.old ≡ []) }
        ensures end { IfNone result (self.new ≡ []) }
    {
        if self.count == 0 {
            return None;
        }
        let mut cursor = Cursor::new(self.bytes);
        let header = take_row(&mut cursor).unwrap();
        let size = cursor.place();
        self.bytes = &self.bytes[size..];
        self.count -= 1;
        Some(header)
    }

    /// Passes one header by its length, without reading it.
    pub fn skip(&mut self)
        requires { 0 < length self.old }
        ensures { self.new ≡ drop 1 self.old }
    {
        let size = row_size(self.bytes);
        self.bytes = &self.bytes[size..];
        self.count -= 1;
    }

    // The header at an index below the count.
    pub(crate) fn row(&self, index: u16) -> HeaderView<'a>
        requires { index < length self.now }
        ensures { slice_get self.now index ≡ Some result }
    {
        let mut rows = self.again();
        for _ in 0..index {
            rows.skip();
        }
        rows.next().unwrap()
    }

    // The same headers once more.
    pub(crate) fn again(&self) -> Rows<'a>
        ensures { result ≡ self.now }
    {
        Rows {
            bytes: self.bytes,
            count: self.count,
        }
    }
}

// The bytes of the first header and of its length.
fn row_size(bytes: &[u8]) -> usize
    requires { 2 ≤ length bytes.now }
    ensures { result ≡ 2 + from_be_bytes w16 (take 2 bytes.now) }
{
    2 + u16::from_be_bytes([bytes[0], bytes[1]]) as usize
}

// A header, and nothing may be left over.
#[tactic(auto, using(group_fields::proofs::WholeReads::whole_end, group_fields::proofs::WholeReads::whole_stop))]
fn read_whole_header(bytes: &[u8]) -> Result<HeaderView<'_>, FieldFault>
    ensures exact { read_whole header 0 bytes.now ≡ whole_seen (λ header. header) result }
    ensures within { IfErr result (λ fault. place_of fault ≤ length bytes.now) }
{
    let mut cursor = Cursor::new(bytes);
    let header = take_header(&mut cursor)?;
    end(&mut cursor)?;
    Ok(header)
}

// A header with its length before it.
pub(crate) fn take_row<'a>(cursor: &mut Cursor<'a>) -> Result<HeaderView<'a>, FieldFault>
    requires { IsIn greatest_size cursor.old }
    ensures { Takes (λ header. header) row cursor.old cursor.new result }
{
    let size = take_u16(cursor, 0, u16::MAX)?;
    let place = cursor.place() as u32;
    let bytes = take_bytes(cursor, size as usize)?;
    match read_whole_header(bytes) {
        Ok(header) => Ok(header),
        Err(fault) => Err(fault_behind(place, fault)),
    }
}

// Passes so many headers, each behind its length.
fn pass_rows(cursor: &mut Cursor<'_>, count: u16) -> Result<(), FieldFault>
    requires { IsIn greatest_size cursor.old }
    ensures { Passes (repeated count row) cursor.old cursor.new result }
{
    for _ in 0..count {
        take_row(cursor)?;
    }
    Ok(())
}

// So many headers, each behind its length.
fn take_rows<'a>(cursor: &mut Cursor<'a>, count: u16) -> Result<Rows<'a>, FieldFault>
    requires { IsIn greatest_size cursor.old }
    ensures takes { Takes (λ rows. rows) (repeated count row) cursor.old cursor.new result }
    ensures count { IfOk result (λ rows. length rows ≡ count) }
{
    let from = cursor.place();
    pass_rows(cursor, count)?;
    let _end = cursor.place();
    Ok(Rows {
        bytes: cursor.since(from),
        count,
    })
}

// A count, and so many headers, each behind its length.
pub(crate) fn take_counted_rows<'a>(cursor: &mut Cursor<'a>) -> Result<Rows<'a>, FieldFault>
    requires { IsIn greatest_size cursor.old }
    ensures { Takes (λ rows. rows) counted_rows cursor.old cursor.new result }
{
    let count = take_u16(cursor, 0, GREATEST_ROWS)?;
    let rows = take_rows(cursor, count)?;
    Ok(rows)
}
