// The greedy peel of the spiked pattern: at each place of the new order the column of the least old place all of whose rows but
// one have a place already, with that row. Before c's place nothing changes, and nothing past the places of the new rows, so the
// peel is of the window between them alone. A column that has been taken has no row left, so a count of one is all that tells an
// available column.
ghost use Rattle.std.specs.Prelude.{◌≡◌, ℕ, ◌+◌, ◌-◌, ◌≤◌, ◌<◌, T, length, set};
ghost use Rattle.pattern.specs.Order.{Sound, Triangular};
ghost use Rattle.pattern.specs.Pattern.{has, Entry};
ghost use Rattle.pattern.specs.Places.{at, place};
ghost use Rattle.pattern.specs.Rising.{Rising};
ghost use Rattle.pattern.specs.Turned.{SameEntries};
ghost use Rattle.listing.specs.Limits.{max_size};
ghost use Rattle.listing.specs.Says.{Told};
ghost use Rattle.listing.specs.Formed.{parts_of};
ghost use Rattle.register.specs.Order.{Placed};
ghost use Rattle.judge.specs.Peel.{unplaced, RowsLow, window_end, Freed, Flagged, SomeLeft, IsLeft, Counted, Searched, NextOne, HitsFrom, Strikes, Struck, Peeled};
ghost use Rattle.judge.specs.Spiked.{spiked_of, spiked_part_of};

use crate::spiked::Spiked;
use listing::formed::Formed;
use listing::wide::wide;
use register::Register;
use register::places::{NOWHERE, top_place};
use register::scratch::Scratch;

// What stands in the scratch list for a row of the new column that has no place: a number, as NOWHERE is and for the same reason.
const NEW: u16 = 1001;

// The end of the window: the place after p and after those of all new rows.
pub fn window_end(p: usize, new: &[u16], places: &[u16; Register::MAX_SIZE]) -> usize
    requires { (p < max_size) × RowsLow new.now × ((x : ℕ) → T (has new.now x) → at places.now x < max_size) }
    ensures { result ≡ window_end places.now new.now p }
{
    p.max(top_place(places, new)) + 1
}

// The numbers from place p up to `end` have no place any more.
fn free(p: usize, end: usize, numbers: &[u16], places: &mut [u16; Register::MAX_SIZE])
    requires { (p ≤ end) × (end ≤ length numbers.now) × ((t : ℕ) → t < end → at numbers.now t < max_size) }
    ensures { Freed (at numbers.now) p end places.old places.new }
{
    for &x in &numbers[p..end] {
        places[wide(x)] = NOWHERE;
    }
}

// Tells the new rows from the others that have no place.
fn flag(new: &[u16], places: &mut [u16; Register::MAX_SIZE])
    requires { RowsLow new.now }
    ensures { Flagged new.now places.old places.new }
{
    for &row in new {
        let x = wide(row);
        if places[x] == NOWHERE {
            places[x] = NEW;
        }
    }
}

// How many rows have no place.
fn rows_left(rows: &[u16], places: &[u16; Register::MAX_SIZE]) -> u16
    requires { RowsLow rows.now × (length rows.now ≤ max_size) }
    ensures { result ≡ unplaced places.now rows.now }
{
    let mut sum: u16 = 0;
    for &x in rows {
        if NOWHERE <= places[wide(x)] {
            sum += 1;
        }
    }
    sum
}

// How many rows of each column from old place p up to `end` have no place, by its old place.
fn count_left(
    pattern: Spiked,
    order_cols: &[u16],
    p: usize,
    end: usize,
    places: &[u16; Register::MAX_SIZE],
    counts: &mut [u16; Register::MAX_SIZE],
)
    requires window { (p ≤ end) × (end ≤ max_size) × (end ≤ length order_cols.now) }
    requires in_size { (t : ℕ) → t < end → at order_cols.now t < pattern.columns.size }
    ensures { Counted (λ t. spiked_part_of pattern.entry (at order_cols.now t)) places.now p end counts.new }
{
    for t in p..end {
        counts[t] = rows_left(pattern.part(wide(order_cols[t])), places);
    }
}

// The first place from `from` up to `end` that has a count of one, if there is one.
fn next_one(end: usize, counts: &[u16; Register::MAX_SIZE], from: usize) -> Option<usize>
    requires { (from ≤ end) × (end ≤ max_size) }
    ensures { NextOne end counts.now from result }
{
    for t in from..end {
        if counts[t] == 1 {
            return Some(t);
        }
    }
    None
}

// The first row that has no place, where there is one.
fn row_left(rows: &[u16], places: &[u16; Register::MAX_SIZE]) -> usize
    requires { SomeLeft places.now rows.now }
    ensures { IsLeft places.now rows.now result }
{
    for &row in rows {
        let x = wide(row);
        if NOWHERE <= places[x] {
            return x;
        }
    }
    unreachable!()
}

// One less at place t. A search that had come to `from` has then come to the place in reply.
fn lower(counts: &mut [u16; Register::MAX_SIZE], t: usize, from: usize) -> usize
    requires { (t < max_size) × (0 < at counts.old t) }
    ensures { (counts.new ≡ set counts.old t (at counts.old t - 1)) × (result ≤ from)
        × ((p : ℕ) → p ≤ t → Searched counts.old p from → Searched counts.new p result) }
{
    let left = counts[t] - 1;
    counts[t] = left;
    if left == 1 && t < from {
        return t;
    }
    from
}

// One less at the old place of each column of the list but c, where it is before `end`. The reply is as that of `lower`.
fn strike(
    cols: &[u16],
    c: usize,
    end: usize,
    old: &[u16; Register::MAX_SIZE],
    counts: &mut [u16; Register::MAX_SIZE],
    from: usize,
) -> usize
    requires { Strikes cols.now c end old.now counts.old }
    ensures { Struck cols.now c end old.now counts.old (length cols.now) counts.new
        × (result ≤ from) × ((p : ℕ) → HitsFrom p cols.now c end old.now → Searched counts.old p from → Searched counts.new p result) }
{
    let mut t = from;
    for &col in cols {
        let y = wide(col);
        if y != c {
            let place = wide(old[y]);
            if place < end {
                t = lower(counts, place, t);
            }
        }
    }
    t
}

// Whether the peel takes every column; then the scratch lists, which had the old place of each row and of each column, have the new
// ones. The replaced column has the old place p. The scratch list for work has the counts.
pub fn peel(
    pattern: Spiked,
    rows: Formed,
    order_rows: &[u16],
    order_cols: &[u16],
    p: usize,
    scratch: &mut Scratch,
) -> bool
    requires rows { (rows.size ≡ pattern.columns.size) × SameEntries (parts_of pattern.columns) (parts_of rows) }
    requires order { (pattern.columns.size ≤ length order_rows.now) × (pattern.columns.size ≤ length order_cols.now)
        × Sound (Entry (parts_of pattern.columns)) pattern.columns.size (at order_rows.now) (at order_cols.now) }
    requires placed { (p ≡ place (at order_cols.now) pattern.columns.size pattern.column)
        × Placed pattern.columns.size (at order_cols.now) scratch.old.col_places
        × Placed pattern.columns.size (at order_rows.now) scratch.old.row_places }
    ensures { Told result
        (Peeled pattern.entry.columns.size (spiked_of pattern.entry) (at order_cols.now) scratch.new.row_places scratch.new.col_places)
        (¬ Triangular (Entry (spiked_of pattern.entry)) pattern.entry.columns.size) }
{
    let counts = &mut scratch.work;
    let places = &mut scratch.row_places;
    let old = &mut scratch.col_places;
    let end = window_end(p, pattern.new, places);
    free(p, end, order_rows, places);
    flag(pattern.new, places);
    count_left(pattern, order_cols, p, end, places, counts);
    let mut t = p;
    for n in p..end {
        let Some(one) = next_one(end, counts, t) else {
            return false;
        };
        let y = wide(order_cols[one]);
        let x = row_left(pattern.part(y), places);
        let is_new = places[x] == NEW;
        places[x] = n as u16;
        let columns = rows.part(x);
        t = strike(columns, pattern.column, end, old, counts, one);
        if is_new {
            t = lower(counts, p, t);
        }
        old[y] = n as u16;
    }
    true
}
