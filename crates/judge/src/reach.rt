// Reach(c) by old places: in a sound order a row's entries lie at its own place and later ones, so that one sweep by rising place
// finds all, and the marks of the places up to where it has come are final.
ghost use Rattle.std.specs.Prelude.{◌≡◌, ℕ, ◌≤◌, ◌<◌, length};
ghost use Rattle.pattern.specs.Order.{Sound};
ghost use Rattle.pattern.specs.Places.{at};
ghost use Rattle.listing.specs.Limits.{max_mark};
ghost use Rattle.listing.specs.Formed.{parts_of};
ghost use Rattle.register.specs.Marks.{flagged};
ghost use Rattle.register.specs.Order.{Placed};
ghost use Rattle.judge.specs.Reach.{ByRows, Swept};

use crate::marks::mark_places;
use listing::formed::Formed;
use listing::wide::wide;
use register::Register;
use register::marks::Marks;

// Sweeps the places from `from` up to `to`: of each marked one, marks the old places of the columns of its row. `old` has the old
// place of each column.
pub fn sweep(
    rows: Formed,
    order_rows: &[u16],
    old: &[u16; Register::MAX_SIZE],
    from: usize,
    to: usize,
    marks: &mut [bool; Marks::ROOM],
)
    requires order_rows { (rows.size ≤ length order_rows.now) × ((t : ℕ) → t < rows.size → at order_rows.now t < rows.size) }
    requires window { (from ≤ to) × (to ≤ rows.size) × ((y : ℕ) → y < rows.size → at old.now y < rows.size) }
    ensures { (length marks.new ≡ max_mark) × ((col : ℕ → ℕ) (c : ℕ) → Placed rows.entry.size col old.now
        → Sound (ByRows (parts_of rows.entry)) rows.entry.size (at order_rows.now) col
        → Swept rows.entry.size (parts_of rows.entry) (at order_rows.now) col c from (flagged marks.old)
        → Swept rows.entry.size (parts_of rows.entry) (at order_rows.now) col c to (flagged marks.new)) }
{
    for t in from..to {
        if marks[t] {
            mark_places(rows.part(wide(order_rows[t])), old, marks);
        }
    }
}
