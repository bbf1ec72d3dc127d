// The turned listing: from a listing by columns the one by rows, or the other way round. The entries of each row are counted,
// the counts are added up to starts, and the columns are read in order, each row's cursor taking the next place.
ghost use Rattle.std.specs.Prelude.{◌≡◌, ◌+◌, ◌≤◌, ◌<◌, length};
ghost use Rattle.pattern.specs.Flat.{start_of};
ghost use Rattle.pattern.specs.Places.{at};
ghost use Rattle.pattern.specs.Series.{tally};
ghost use Rattle.pattern.specs.Turned.{row_of};
ghost use Rattle.listing.specs.Limits.{max_size, max_total};
ghost use Rattle.listing.specs.Held.{Held};
ghost use Rattle.listing.specs.Formed.{parts_of, total_of, turned_of};
ghost use Rattle.listing.specs.Walk.{Cursors, Walked, Kept, Laid};

use crate::MAX_SIZE;
use crate::formed::Formed;
use crate::wide::wide;

// One more for each row of column j.
fn count_column(columns: Formed, j: usize, counts: &mut [u16; MAX_SIZE])
    requires { (j < columns.size) × Cursors columns.size (λ _. 0) (λ r. row_of (parts_of columns) r j) counts.old }
    ensures { Cursors columns.entry.size (λ _. 0) (λ r. row_of (parts_of columns.entry) r (j + 1)) counts.new }
{
    for row in columns.part(j) {
        counts[wide(*row)] += 1;
    }
}

// How many columns each row has.
fn count_rows(columns: Formed, counts: &mut [u16; MAX_SIZE])
    requires { Cursors columns.size (λ _. 0) (λ r. row_of (parts_of columns) r 0) counts.old }
    ensures { Cursors columns.entry.size (λ _. 0) (λ r. row_of (parts_of columns.entry) r columns.entry.size) counts.new }
{
    for j in 0..columns.size {
        count_column(columns, j, counts);
    }
}

// The starts of parts with these counts; each count becomes a cursor at its start.
fn lay_starts(m: usize, next: &mut [u16; MAX_SIZE], starts: &mut [u16])
    requires { (m ≤ max_size) × (m < length starts.old) × (length next.old ≡ max_size) × (tally (at next.old) m ≤ max_total) }
    ensures { Laid m next.old starts.old next.new starts.new }
{
    let mut sum: u16 = 0;
    for r in 0..m {
        let n = next[r];
        starts[r] = sum;
        next[r] = sum;
        sum += n;
    }
    starts[m] = sum;
}

// Column j goes to the cursor of each of its rows.
fn fill_column(columns: Formed, j: usize, next: &mut [u16; MAX_SIZE], cols: &mut [u16])
    requires room { (j < columns.size) × (total_of columns ≤ length cols.old) }
    requires walked { Walked columns.size (start_of (turned_of columns)) cols.old (λ r. row_of (parts_of columns) r j) next.old }
    ensures { Walked columns.entry.size (start_of (turned_of columns.entry)) cols.new
        (λ r. row_of (parts_of columns.entry) r (j + 1)) next.new
        × Kept (total_of columns.entry) cols.old cols.new }
{
    for row in columns.part(j) {
        let r = wide(*row);
        let p = next[r];
        cols[wide(p)] = j as u16;
        next[r] = p + 1;
    }
}

// Every column goes to the cursors of its rows.
fn fill_rows(columns: Formed, next: &mut [u16; MAX_SIZE], cols: &mut [u16])
    requires room { total_of columns ≤ length cols.old }
    requires walked { Walked columns.size (start_of (turned_of columns)) cols.old (λ r. row_of (parts_of columns) r 0) next.old }
    ensures { Walked columns.entry.size (start_of (turned_of columns.entry)) cols.new
        (λ r. row_of (parts_of columns.entry) r columns.entry.size) next.new
        × Kept (total_of columns.entry) cols.old cols.new }
{
    for j in 0..columns.size {
        fill_column(columns, j, next, cols);
    }
}

// Writes the turned listing of a good one, and nothing past it.
pub fn turn(columns: Formed, into_starts: &mut [u16], into_entries: &mut [u16])
    requires { (columns.size < length into_starts.old) × (total_of columns ≤ length into_entries.old) }
    ensures { Held (turned_of columns.entry)
        into_starts.old into_entries.old into_starts.new into_entries.new }
{
    let mut next = [0u16; MAX_SIZE];
    count_rows(columns, &mut next);
    lay_starts(columns.size, &mut next, into_starts);
    fill_rows(columns, &mut next, into_entries);
}
