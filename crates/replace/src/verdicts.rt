// What PERMUTED and ELIMINATION change: the pattern in both listings, and the order. The scratch list for work is lent to the store.
ghost use Rattle.std.specs.Prelude.{[], ◌≡◌, ℕ, ◌<◌, length};
ghost use Rattle.pattern.specs.Choice.{NoChoice};
ghost use Rattle.pattern.specs.Flat.{start_of};
ghost use Rattle.pattern.specs.Pattern.{Entry};
ghost use Rattle.pattern.specs.Places.{at, place};
ghost use Rattle.pattern.specs.Rising.{Rising};
ghost use Rattle.pattern.specs.Turned.{turned};
ghost use Rattle.pattern.specs.Verdict.{size, Spike};
ghost use Rattle.listing.specs.Held.{Held};
ghost use Rattle.listing.specs.Limits.{max_size};
ghost use Rattle.register.specs.Checks.{Fits};
ghost use Rattle.register.specs.Lent.{columns, SoundLists};
ghost use Rattle.register.specs.Loan.{held, SameLists};
ghost use Rattle.store.specs.Store.{exchanged};
ghost use Rattle.judge.specs.Call.{call, asked};
ghost use Rattle.judge.specs.Judge.{Judgeable};
ghost use Rattle.replace.specs.Change.{PermutesLists, ClearsLists};
ghost use Rattle.replace.specs.ReplaceChecks.{NewFits};

use crate::arrange::{lay_order, move_last};
use listing::listed_mut::ListedMut;
use listing::lists::first;
use listing::wide::wide;
use register::Register;
use register::lent::LentMut;
use register::scratch::Scratch;
use store::join::join;
use store::store::store;

// Stores in both listings column c with the new rows, and row r struck out; where no row is to be cleared, r is m.
fn exchange(
    m: usize,
    lists: &mut LentMut,
    c: usize,
    r: usize,
    new: &[u16],
    work: &mut [u16; Register::MAX_SIZE],
)
    requires sound { SoundLists m (held lists.old) × (c < m) × Rising m new.now }
    requires entry { r < m → Entry (columns m (held lists.old)) r c }
    requires room { Fits (start_of (exchanged m (columns m (held lists.old)) c r new.now) m) lists.old.col_rows.now lists.old.row_cols.now }
    ensures same_lists { SameLists lists.old lists.new }
    ensures columns_held { Held (exchanged m (columns m (held lists.old)) c r new.now)
        lists.old.col_starts.now lists.old.col_rows.now lists.new.col_starts.now lists.new.col_rows.now }
    ensures rows_held { Held (turned m (exchanged m (columns m (held lists.old)) c r new.now))
        lists.old.row_starts.now lists.old.row_cols.now lists.new.row_starts.now lists.new.row_cols.now }
    ensures order_kept { (lists.new.order_rows.now ≡ lists.old.order_rows.now) × (lists.new.order_cols.now ≡ lists.old.order_cols.now) }
    ensures work_long { length work.new ≡ max_size }
{
    let mut columns = ListedMut {
        starts: &mut *lists.col_starts,
        entries: &mut *lists.col_rows,
    };
    let mut rows = ListedMut {
        starts: &mut *lists.row_starts,
        entries: &mut *lists.row_cols,
    };
    store(m, &mut columns, &mut rows, c, r, new, work);
}

// PERMUTED: the spiked pattern is stored, and the order laid from the new places of its rows and of its columns.
pub fn permute(m: usize, lists: &mut LentMut, c: usize, new: &[u16], scratch: &mut Scratch)
    requires judgeable { Judgeable (call m (held lists.old) c new.now []) × NewFits (call m (held lists.old) c new.now []) }
    requires places_low { ((x : ℕ) → x < m → at scratch.old.row_places x < m) × ((x : ℕ) → x < m → at scratch.old.col_places x < m) }
    ensures same_lists { SameLists lists.old lists.new }
    ensures permutes { PermutesLists (call m (held lists.old) c new.now []) scratch.old.row_places scratch.old.col_places
        (held lists.new) }
{
    exchange(m, lists, c, m, new, &mut scratch.work);
    lay_order(m, &scratch.row_places, lists.order_rows);
    lay_order(m, &scratch.col_places, lists.order_cols);
}

// ELIMINATION: the spiked pattern is stored with the row of place p cleared and given column c alone, and the pair goes to the last
// place. The list of the rows' places is used for the new rows with that row among them.
pub fn clear(m: usize, lists: &mut LentMut, c: usize, new: &[u16], p: usize, scratch: &mut Scratch)
    requires judgeable { Judgeable (call m (held lists.old) c new.now []) × NewFits (call m (held lists.old) c new.now []) }
    requires choice_left { ¬ NoChoice (Spike (asked (call m (held lists.old) c new.now [])))
        (size (asked (call m (held lists.old) c new.now []))) }
    requires placed { p ≡ place (at lists.old.order_cols.now) m c }
    ensures same_lists { SameLists lists.old lists.new }
    ensures clears { ClearsLists (call m (held lists.old) c new.now []) p (held lists.new) }
{
    let r = wide(lists.order_rows[p]);
    let n = join(new, r, &mut scratch.row_places);
    let rows = first(&scratch.row_places, n);
    exchange(m, lists, c, r, rows, &mut scratch.work);
    move_last(m, p, lists.order_rows);
    move_last(m, p, lists.order_cols);
}
