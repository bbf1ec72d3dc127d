// Whether an order is sound for a column listing: the places of its rows are entered in a scratch
// list, the greatest place of each column's rows in another, and one pass over the columns in their order sees to the rest.
ghost use Rattle.std.specs.Prelude.{◌≡◌, ℕ, ◌≤◌, ◌<◌, length};
ghost use Rattle.pattern.specs.Order.{Sound};
ghost use Rattle.pattern.specs.Pattern.{Entry};
ghost use Rattle.pattern.specs.Places.{at, Once};
ghost use Rattle.listing.specs.Limits.{max_size};
ghost use Rattle.listing.specs.Says.{Told, Says};
ghost use Rattle.listing.specs.Formed.{parts_of};
ghost use Rattle.register.specs.Order.{Placed, Tops, AtTop};

use crate::Register;
use crate::places::{NOWHERE, top_place};
use listing::formed::Formed;
use listing::wide::wide;

// Enters the place of each number. False where one is m or more, or has a place already.
pub fn enter(m: usize, numbers: &[u16], places: &mut [u16; Register::MAX_SIZE]) -> bool
    requires in_range { (m ≤ max_size) × (m ≤ length numbers.now) }
    requires none_placed { (x : ℕ) → x < max_size → at places.old x ≡ max_size }
    ensures told { Told result (Placed m (at numbers.now) places.new) (¬ Once (at numbers.now) m m) }
    ensures length { length places.new ≡ max_size }
{
    for (t, number) in numbers[..m].iter().enumerate() {
        let x = wide(*number);
        if m <= x {
            return false;
        }
        if places[x] < NOWHERE {
            return false;
        }
        places[x] = t as u16;
    }
    true
}

// No number has a place.
pub fn clear(places: &mut [u16; Register::MAX_SIZE])
    ensures { (x : ℕ) → x < max_size → at places.new x ≡ max_size }
{
    places.fill(NOWHERE);
}

// The greatest place of a row of each column.
fn lay_tops(
    columns: Formed,
    places: &[u16; Register::MAX_SIZE],
    tops: &mut [u16; Register::MAX_SIZE],
)
    requires { (x : ℕ) → x < columns.size → at places.now x < columns.size }
    ensures { Tops columns.entry.size places.now (parts_of columns.entry) tops.new }
{
    for c in 0..columns.size {
        tops[c] = top_place(places, columns.part(c)) as u16;
    }
}

// Whether each column is in range and has rows, of which the last in the order stands at the column's own place. So no
// column stands twice: a column has one such place.
pub fn topped(m: usize, cs: &[u16], cols: &[u16], tops: &[u16; Register::MAX_SIZE]) -> bool
    requires { (m ≤ max_size) × (m < length cs.now) × (m ≤ length cols.now) }
    ensures { Says result ((t : ℕ) → t < m → AtTop m cs.now tops.now (at cols.now t) t) }
{
    for (t, column) in cols[..m].iter().enumerate() {
        let c = wide(*column);
        if m <= c {
            return false;
        }
        if cs[c + 1] <= cs[c] {
            return false;
        }
        if wide(tops[c]) != t {
            return false;
        }
    }
    true
}

// Whether the order is sound for the columns. The two lists are lent for the places of rows and of columns.
pub fn sound(
    columns: Formed,
    rows: &[u16],
    cols: &[u16],
    places: &mut [u16; Register::MAX_SIZE],
    tops: &mut [u16; Register::MAX_SIZE],
) -> bool
    requires { (columns.size ≤ length rows.now) × (columns.size ≤ length cols.now) }
    ensures says { Says result
        (Sound (Entry (parts_of columns.entry)) columns.entry.size (at rows.now) (at cols.now)) }
    ensures lengths { (length places.new ≡ max_size) × (length tops.new ≡ max_size) }
{
    clear(places);
    if !enter(columns.size, rows, places) {
        return false;
    }
    lay_tops(columns, places, tops);
    topped(columns.size, columns.listed.starts, cols, tops)
}
