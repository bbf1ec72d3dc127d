// The numbers of a sheet, one by one: put into bytes that have room for them, or only counted. Where the room may be short, it
// must be known before the first byte is put.
ghost use Rattle.std.specs.Prelude.{◌≡◌, ◌≤◌, length};
ghost use Rattle.pattern.specs.Rising.{Rising};
ghost use Rattle.pattern.specs.Order.{pairs};
ghost use Rattle.listing.specs.Held.{over};
ghost use Rattle.listing.specs.Limits.{max_size};
ghost use Rattle.listing.specs.Formed.{parts_of};
ghost use Rattle.sheet.specs.Sheet.{record_with, rows_bytes, columns_bytes, order_bytes, sheet};

use crate::sink::{Bytes, Count, Sink};
use listing::formed::Formed;

// The rows of one column, without their count.
fn put_rows<S: Sink>(rows: &[u16], sink: &mut S)
    requires { Rising max_size rows.now × S.room sink.old (length (rows_bytes rows.now)) }
    ensures { S.after sink.old (rows_bytes rows.now) sink.new }
{
    let mut least = 0;
    for row in rows {
        let r = *row as u32;
        sink.put(r - least);
        least = r + 1;
    }
}

// All columns.
fn put_columns<S: Sink>(columns: Formed, sink: &mut S)
    requires { S.room sink.old (length (columns_bytes (parts_of columns))) }
    ensures { S.after sink.old (columns_bytes (parts_of columns.entry)) sink.new }
{
    for c in 0..columns.size {
        let rows = columns.part(c);
        sink.put(rows.len() as u32);
        put_rows(rows, sink);
    }
}

// The order.
fn put_order<S: Sink>(size: usize, order_rows: &[u16], order_cols: &[u16], sink: &mut S)
    requires { (size ≤ max_size) × (size ≤ length order_rows.now) × (size ≤ length order_cols.now)
        × S.room sink.old (length (order_bytes (pairs size order_rows.now order_cols.now))) }
    ensures { S.after sink.old (order_bytes (pairs size order_rows.now order_cols.now)) sink.new }
{
    for (row, col) in order_rows[..size].iter().zip(&order_cols[..size]) {
        sink.put(*row as u32);
        sink.put(*col as u32);
    }
}

// The whole sheet.
fn put_record<S: Sink>(columns: Formed, order_rows: &[u16], order_cols: &[u16], sink: &mut S)
    requires { (columns.size ≤ length order_rows.now) × (columns.size ≤ length order_cols.now)
        × S.room sink.old (length (sheet (record_with columns order_rows.now order_cols.now))) }
    ensures { S.after sink.old (sheet (record_with columns.entry order_rows.now order_cols.now)) sink.new }
{
    sink.put(columns.size as u32);
    put_columns(columns, sink);
    put_order(columns.size, order_rows, order_cols, sink);
}

// How many bytes the whole sheet has.
pub fn measure(columns: Formed, order_rows: &[u16], order_cols: &[u16]) -> usize
    requires { (columns.size ≤ length order_rows.now) × (columns.size ≤ length order_cols.now) }
    ensures { result ≡ length (sheet (record_with columns.entry order_rows.now order_cols.now)) }
{
    let mut count = Count { bytes: 0 };
    put_record(columns, order_rows, order_cols, &mut count);
    count.bytes
}

// The whole sheet, at the head of the bytes; replies how many it has.
pub fn put_sheet(columns: Formed, order_rows: &[u16], order_cols: &[u16], bytes: &mut [u8]) -> usize
    requires { (columns.size ≤ length order_rows.now) × (columns.size ≤ length order_cols.now)
        × (length (sheet (record_with columns order_rows.now order_cols.now)) ≤ length bytes.old) }
    ensures { (result ≡ length (sheet (record_with columns.entry order_rows.now order_cols.now)))
        × (bytes.new ≡ over (sheet (record_with columns.entry order_rows.now order_cols.now)) bytes.old) }
{
    let mut sink = Bytes { bytes, len: 0 };
    put_record(columns, order_rows, order_cols, &mut sink);
    sink.len
}
