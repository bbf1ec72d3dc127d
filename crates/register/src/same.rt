// Whether a row listing is well formed and lists the entries of a column listing: the columns are read in order, and each of a column's rows must have that column as the next that it lists. A row
// then lists what its columns are, which rises, so that the row listing is not gone over by itself. On the way the
// greatest place of each column's rows is taken, for the order.
ghost use Rattle.std.specs.Prelude.{◌≡◌, ℕ, ◌+◌, ◌≤◌, ◌<◌, T, length, set};
ghost use Rattle.pattern.specs.Pattern.{has};
ghost use Rattle.pattern.specs.Places.{at};
ghost use Rattle.pattern.specs.Rising.{Rising};
ghost use Rattle.pattern.specs.Series.{greatest};
ghost use Rattle.listing.specs.Limits.{max_size, max_total};
ghost use Rattle.listing.specs.Says.{Told, Says};
ghost use Rattle.listing.specs.Formed.{parts_of};
ghost use Rattle.listing.specs.Listing.{Room, Starts};
ghost use Rattle.listing.specs.Walk.{AllNext, Past, RowsTurned};
ghost use Rattle.register.specs.Order.{Tops};

use crate::Register;
use listing::formed::Formed;
use listing::listing::Listed;
use listing::lists::copy;
use listing::wide::wide;

// Each row's cursor at the row's start.
fn set_out(m: usize, starts: &[u16], next: &mut [u16; Register::MAX_SIZE])
    requires { (m ≤ max_size) × (m < length starts.now) }
    ensures { (r : ℕ) → r < m → at next.new r ≡ at starts.now r }
{
    copy(&starts[..m], 0, next);
}

// Reads column j, which has these rows. Each row's cursor goes past j, which must stand there. No end of a row is asked for: each
// cursor is held to it when all columns have been read.
fn meet(
    rows: &[u16],
    cols: &[u16],
    j: usize,
    places: &[u16; Register::MAX_SIZE],
    next: &mut [u16; Register::MAX_SIZE],
    tops: &mut [u16; Register::MAX_SIZE],
) -> bool
    requires in_range { (j < max_size) × Rising max_size rows.now }
    requires cursors_low { (r : ℕ) → T (has rows.now r) → at next.old r ≤ max_total + max_size }
    ensures { Told result
        (Past cols.now j rows.now next.old next.new
        × (tops.new ≡ set tops.old j (greatest (at places.now) rows.now)))
        (¬ AllNext cols.now j rows.now next.old) }
{
    let mut top: u16 = 0;
    for row in rows {
        let r = wide(*row);
        let p = wide(next[r]);
        if cols.len() <= p {
            return false;
        }
        if wide(cols[p]) != j {
            return false;
        }
        next[r] = (p + 1) as u16;
        let place = places[r];
        // A branch, since it is foretold: with `max` a check takes a fifth longer.
        if top < place {
            top = place;
        }
    }
    tops[j] = top;
    true
}

// Whether each row's cursor is at the row's end.
fn all_met(m: usize, starts: &[u16], next: &[u16; Register::MAX_SIZE]) -> bool
    requires { (m ≤ max_size) × (m < length starts.now) }
    ensures { Says result ((r : ℕ) → r < m → at next.now r ≡ at starts.now (r + 1)) }
{
    next[..m] == starts[1..m + 1]
}

// Whether the row listing is the columns turned; and the columns' greatest places. The list `next` is lent for the cursors. That two
// lists keep their lengths is said for a caller that has them as fields of a struct: it does not learn it from their type.
pub fn same(
    columns: Formed,
    rows: Listed,
    next: &mut [u16; Register::MAX_SIZE],
    places: &[u16; Register::MAX_SIZE],
    tops: &mut [u16; Register::MAX_SIZE],
) -> bool
    requires { Room columns.size rows.starts.now rows.entries.now × Starts columns.size rows.starts.now }
    ensures told { Told result
        (RowsTurned columns.entry.size (parts_of columns.entry) rows.entry.starts.now rows.entry.entries.now
        × Tops columns.entry.size places.now (parts_of columns.entry) tops.new)
        (¬ RowsTurned columns.entry.size (parts_of columns.entry) rows.entry.starts.now rows.entry.entries.now) }
    ensures lengths { (length next.new ≡ max_size) × (length tops.new ≡ max_size) }
{
    set_out(columns.size, rows.starts, next);
    for j in 0..columns.size {
        if !meet(columns.part(j), rows.entries, j, places, next, tops) {
            return false;
        }
    }
    all_met(columns.size, rows.starts, next)
}
