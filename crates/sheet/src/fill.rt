// The last passes over a sheet that is accepted: its register goes into the lent lists.
ghost use Rattle.std.specs.Prelude.{[], ◌≡◌, ◌+◌, ◌≤◌, ◌<◌, length};
ghost use Rattle.pattern.specs.Flat.{flat};
ghost use Rattle.listing.specs.Held.{over, put, Held};
ghost use Rattle.listing.specs.Limits.{max_size};
ghost use Rattle.register.specs.Takes.{Takes};
ghost use Rattle.register.specs.Loan.{held, SameLists};
ghost use Rattle.sheet.specs.Number.{got};
ghost use Rattle.sheet.specs.Passes.{thing, Got, blank};
ghost use Rattle.sheet.specs.Reading.{rows_at, columns_at, order_at, record_read};
ghost use Rattle.sheet.specs.Sheet.{firsts, seconds, total, held_record};

use crate::items::{known, known_pair};
use listing::formed::Formed;
use listing::listing::Listed;
use listing::turn::turn;
use register::lent::LentMut;

// The n rows of a column go to place k of the entries on; replies the place after them in the bytes.
fn fill_rows(bytes: &[u8], place: usize, n: u32, entries: &mut [u16], k: usize) -> usize
    requires { Got [] (rows_at bytes.now max_size n place) × (k + n ≤ length entries.old) }
    ensures { (rows_at bytes.now max_size n place ≡ got (thing [] (rows_at bytes.now max_size n place)) result)
        × (entries.new ≡ put k (thing [] (rows_at bytes.now max_size n place)) entries.old) }
{
    let mut at = place;
    let mut least = 0;
    for entry in &mut entries[k..k + n as usize] {
        let gap = known(bytes, at);
        let r = least + gap.value;
        *entry = r as u16;
        least = r + 1;
        at = gap.next;
    }
    at
}

// The column listing; replies the place after it in the bytes.
fn fill_columns(bytes: &[u8], place: usize, m: u32, cs: &mut [u16], cr: &mut [u16]) -> usize
    requires { (m ≤ max_size) × Got [] (columns_at bytes.now m place) × (m < length cs.old)
        × (length (flat (thing [] (columns_at bytes.now m place))) ≤ length cr.old) }
    ensures { (columns_at bytes.now m place ≡ got (thing [] (columns_at bytes.now m place)) result)
        × Held (thing [] (columns_at bytes.now m place)) cs.old cr.old cs.new cr.new }
{
    let mut at = place;
    let mut entries: u32 = 0;
    for c in 0..m {
        cs[c as usize] = entries as u16;
        let n = known(bytes, at);
        at = fill_rows(bytes, n.next, n.value, cr, entries as usize);
        entries += n.value;
    }
    cs[m as usize] = entries as u16;
    at
}

// The order.
fn fill_order(bytes: &[u8], place: usize, m: u32, rows: &mut [u16], cols: &mut [u16])
    requires { (m ≤ max_size) × Got [] (order_at bytes.now m place) × (m ≤ length rows.old) × (m ≤ length cols.old) }
    ensures { (rows.new ≡ over (firsts (thing [] (order_at bytes.now m place))) rows.old)
        × (cols.new ≡ over (seconds (thing [] (order_at bytes.now m place))) cols.old) }
{
    let mut at = place;
    for t in 0..m {
        let pair = known_pair(bytes, at);
        rows[t as usize] = pair.row as u16;
        cols[t as usize] = pair.column as u16;
        at = pair.next;
    }
}

// The whole register of a sheet without faults.
pub fn fill(bytes: &[u8], lists: &mut LentMut)
    requires { Got blank (record_read bytes.now)
        × Takes (thing blank (record_read bytes.now)).size (total (thing blank (record_read bytes.now))) (held lists.old) }
    ensures same { SameLists lists.old lists.new }
    ensures filled { held lists.new ≡ held_record (thing blank (record_read bytes.now)) (held lists.old) }
{
    let m = known(bytes, 0);
    let order = fill_columns(bytes, m.next, m.value, lists.col_starts, lists.col_rows);
    fill_order(bytes, order, m.value, lists.order_rows, lists.order_cols);
    let col_starts = &mut *lists.col_starts;
    let col_rows = &mut *lists.col_rows;
    let row_starts = &mut *lists.row_starts;
    let row_cols = &mut *lists.row_cols;
    let columns = Formed {
        size: m.value as usize,
        listed: Listed {
            starts: col_starts,
            entries: col_rows,
        },
    };
    turn(columns, row_starts, row_cols);
}
