// The sheet for C: written from the lists of a register, and read into them.
ghost use Rattle.register.specs.Lent.{lists};
ghost use Rattle.cabi.specs.Sheets.{GivesSheet, GivesRegister};

use listing::listing::Listed;
use register::lent::{Lent, LentMut};
use sheet::{read_sheet, write_sheet};

// Writes the sheet of a register to the head of the bytes, or refuses.
#[unsafe(no_mangle)]
pub extern "C" fn scrollbobbin_write_sheet<'a>(
    size: usize,
    col_starts: &'a [u16],
    col_rows: &'a [u16],
    row_starts: &'a [u16],
    row_cols: &'a [u16],
    order_rows: &'a [u16],
    order_cols: &'a [u16],
    bytes: &mut [u8],
    count: &mut usize,
) -> usize
    ensures { GivesSheet size
        (lists col_starts.now col_rows.now row_starts.now row_cols.now
        order_rows.now order_cols.now)
        bytes.old
        result count.new bytes.new }
{
    let lists = Lent {
        columns: Listed {
            starts: col_starts,
            entries: col_rows,
        },
        rows: Listed {
            starts: row_starts,
            entries: row_cols,
        },
        order_rows,
        order_cols,
    };
    match write_sheet(size, lists, bytes) {
        Ok(n) => {
            *count = n;
            0
        }
        Err(refusal) => {
            *count = 0;
            refusal.number()
        }
    }
}

// Reads a sheet into the lists, or refuses.
#[unsafe(no_mangle)]
pub extern "C" fn scrollbobbin_read_sheet<'a>(
    bytes: &[u8],
    col_starts: &'a mut [u16],
    col_rows: &'a mut [u16],
    row_starts: &'a mut [u16],
    row_cols: &'a mut [u16],
    order_rows: &'a mut [u16],
    order_cols: &'a mut [u16],
    size: &mut usize,
) -> usize
    ensures { GivesRegister
        (lists col_starts.old col_rows.old row_starts.old row_cols.old
        order_rows.old order_cols.old)
        bytes.now
        result size.new
        (lists col_starts.new col_rows.new row_starts.new row_cols.new
        order_rows.new order_cols.new) }
{
    let mut lists = LentMut {
        col_starts,
        col_rows,
        row_starts,
        row_cols,
        order_rows,
        order_cols,
    };
    match read_sheet(bytes, &mut lists) {
        Ok(m) => {
            *size = m;
            0
        }
        Err(refusal) => {
            *size = 0;
            refusal.number()
        }
    }
}
