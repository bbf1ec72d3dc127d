// The judgment on a replacement: the verdict, with the new places of rows and columns or the eta rows. No list of the register
// changes. The new rows that are paired with reached columns tell the verdict but where there is one of them: none, and no full choice
// is left; two, and two are left, of which a triangular pattern has one. Their places lie before the window's end, so the rest of the
// reach is swept for the eta rows alone.
ghost use Rattle.std.specs.Prelude.{◌≡◌, ℕ, ◌≤◌, ◌<◌, length};
ghost use Rattle.pattern.specs.Places.{at, place};
ghost use Rattle.pattern.specs.Rising.{Rising};
ghost use Rattle.pattern.specs.Series.{greatest};
ghost use Rattle.listing.specs.Limits.{max_size};
ghost use Rattle.register.specs.Loan.{seen};
ghost use Rattle.register.specs.Marks.{flagged};
ghost use Rattle.register.specs.Order.{Placed};
ghost use Rattle.judge.specs.Call.{call};
ghost use Rattle.judge.specs.Judge.{Judgeable, Judges, BumpAndEta};

use crate::Judgment;
use crate::marks::{hits, lay};
use crate::peel::{peel, window_end};
use crate::reach::sweep;
use crate::spiked::Spiked;
use listing::formed::Formed;
use register::Register;
use register::lent::Lent;
use register::marks::Marks;
use register::places::{place_all, top_place};
use register::scratch::Scratch;

// What ELIMINATION tells: the bump, and the rows paired with the reached columns but c's, which is at place p. The places are those
// of the rows.
fn eliminate(
    m: usize,
    new: &[u16],
    p: usize,
    marks: &[bool; Marks::ROOM],
    places: &[u16; Register::MAX_SIZE],
    eta: &mut [u16],
) -> Judgment
    requires in_range { (m ≤ max_size) × (m ≤ length eta.old) × ((x : ℕ) → x < m → at places.now x < m) }
    requires new_rise { Rising m new.now × (p ≤ greatest (at places.now) new.now) }
    ensures { BumpAndEta m places.now new.now p (flagged marks.now) eta.old result eta.new }
{
    let eta_count = lay(marks, m, places, p, eta);
    let bump = top_place(places, new) - p + 1;
    Judgment::Elimination { bump, eta_count }
}

// The judgment on column c, at place p, with the new rows. The scratch lists have the places of the rows and of the columns, and
// after PERMUTED their new ones. The peel spoils the places where it fails, so that they are laid anew.
pub fn judge<'a>(
    m: usize,
    lists: Lent<'a>,
    c: usize,
    new: &'a [u16],
    p: usize,
    scratch: &mut Scratch,
    eta: &mut [u16],
) -> Judgment
    requires judgeable { Judgeable (call m (seen lists) c new.now eta.old) × (m ≤ length eta.old) }
    requires placed { (p ≡ place (at lists.order_cols.now) m c) × Placed m (at lists.order_cols.now) scratch.old.col_places
        × Placed m (at lists.order_rows.now) scratch.old.row_places }
    ensures { Judges (call m (seen lists.entry) c new.now eta.old)
        scratch.new.row_places scratch.new.col_places eta.new result }
{
    let empty = Register::empty_marks();
    let mut marks = empty.marks;
    marks[p] = true;
    let rows = Formed {
        size: m,
        listed: lists.rows,
    };
    let order_rows = lists.order_rows;
    let order_cols = lists.order_cols;
    let end = window_end(p, new, &scratch.row_places);
    sweep(rows, order_rows, &scratch.col_places, p, end, &mut marks);
    let met = hits(&marks, new, &scratch.row_places);
    if met == 0 {
        return Judgment::Singular;
    }
    if met == 1 {
        let columns = Formed {
            size: m,
            listed: lists.columns,
        };
        let pattern = Spiked {
            columns,
            column: c,
            new,
        };
        if peel(pattern, rows, order_rows, order_cols, p, scratch) {
            return Judgment::Permuted;
        }
        place_all(m, order_rows, &mut scratch.row_places);
        place_all(m, order_cols, &mut scratch.col_places);
    }
    sweep(rows, order_rows, &scratch.col_places, end, m, &mut marks);
    eliminate(m, new, p, &marks, &scratch.row_places, eta)
}
