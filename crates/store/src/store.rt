// A column exchanged in both listings. In each the old column, and a row where one is to be cleared, are deleted in one pass
// forward, and then the new column is inserted: so nothing past the new total is ever written.
ghost use Rattle.std.specs.Prelude.{[], ◌∷◌, ◌≡◌, ℕ, ◌+◌, ◌≤◌, ◌<◌, length};
ghost use Rattle.pattern.specs.Flat.{start_of};
ghost use Rattle.pattern.specs.Pattern.{Entry};
ghost use Rattle.pattern.specs.Places.{at};
ghost use Rattle.pattern.specs.Rising.{Rising};
ghost use Rattle.pattern.specs.Turned.{turned, SameEntries};
ghost use Rattle.listing.specs.Limits.{max_size, max_total};
ghost use Rattle.listing.specs.Listing.{between, part, Within};
ghost use Rattle.listing.specs.Loan.{parts_in, GoodIn, SameListed, Holds};
ghost use Rattle.store.specs.Store.{emptied, filled, exchanged, spread, Changing, LetIn, Piece};

use crate::join::below;
use crate::moves::shift;
use crate::starts::{lower, raise};
use listing::MAX_SIZE;
use listing::formed::Formed;
use listing::listed_mut::ListedMut;
use listing::listing::Listed;
use listing::lists::{copy, first};
use listing::look::Span;
use listing::wide::wide;

// What is deleted of part k: all of part c, and of another part the number r, which it has.
fn piece(listed: Listed, c: usize, r: usize, k: usize) -> Span
    requires { (k + 1 < length listed.starts.now) × Within listed.starts.now listed.entries.now k }
    ensures { Piece c r k listed.entry.starts.now listed.entry.entries.now result.from result.to }
{
    let from = wide(listed.starts[k]);
    if k == c {
        return Span {
            from,
            to: wide(listed.starts[k + 1]),
        };
    }
    let q = from + below(listed.part(k), r);
    Span { from: q, to: q + 1 }
}

// Deletes all of part c, and the number r where it is. These are the parts that change; what stands between two deleted pieces
// goes down as one.
fn take_out(m: usize, listed: &mut ListedMut, c: usize, r: usize, these: &[u16])
    requires { GoodIn m listed.old × Changing m (parts_in m listed.old) c r these.now }
    ensures { Holds (emptied m (parts_in m listed.old) c r) listed.old listed.new }
{
    let mut from = 0;
    let mut k = 0;
    let mut gone = 0;
    for j in these {
        let j = wide(*j);
        let out = piece(listed.view(), c, r, j);
        shift(listed.entries, from, out.from, from - gone);
        lower(listed.starts, k, j + 1, gone);
        gone += out.to - out.from;
        from = out.to;
        k = j + 1;
    }
    let end = wide(listed.starts[m]);
    shift(listed.entries, from, end, from - gone);
    lower(listed.starts, k, m + 1, gone);
}

// Writes the columns that change, at the head of a list: those of row r, or column c alone where no row is to be cleared. Replies
// how many they are.
fn changing(rows: Formed, c: usize, r: usize, list: &mut [u16; MAX_SIZE]) -> usize
    requires { c < rows.size }
    ensures { (result ≤ length list.new) × (length list.new ≡ max_size)
        × (r < rows.entry.size → between 0 result list.new ≡ part rows.entry.listed.starts.now rows.entry.listed.entries.now r)
        × (rows.entry.size ≤ r → between 0 result list.new ≡ c ∷ []) }
{
    if rows.size <= r {
        list[0] = c as u16;
        return 1;
    }
    let columns = rows.part(r);
    copy(columns, 0, list);
    columns.len()
}

// Gives column c, which has no entry, the rows; the columns after it make room.
fn insert(m: usize, columns: &mut ListedMut, c: usize, rows: &[u16])
    requires good { GoodIn m columns.old × (c < m) × (at columns.old.starts.now (c + 1) ≡ at columns.old.starts.now c) }
    requires room { (start_of (filled m (parts_in m columns.old) c rows.now) m ≤ max_total)
        × (start_of (filled m (parts_in m columns.old) c rows.now) m ≤ length columns.old.entries.now) }
    ensures { Holds (filled m (parts_in m columns.old) c rows.now) columns.old columns.new }
{
    let n = rows.len();
    let from = wide(columns.starts[c]);
    let to = wide(columns.starts[m]);
    shift(columns.entries, from, to, from + n);
    raise(columns.starts, c, m, n);
    copy(rows, from, columns.entries);
}

// What a pass from the last part down has not come to yet: the entries before place `end`, and the starts up to start `top`.
#[derive(Clone, Copy)]
struct Rest {
    end: usize,
    top: usize,
}

// Lets the number c into part k, below which i more parts are to get it: so it goes i places above its place there, and the later
// entries of the rest go one place further than that. Replies the rest that is left: before that place, and up to start k.
fn let_in(listed: &mut ListedMut, c: usize, k: usize, rest: Rest, i: usize) -> Rest
    requires within { (c < max_size) × (k < rest.top) × (rest.top < length listed.old.starts.now)
        × Within listed.old.starts.now listed.old.entries.now k }
    requires room { (at listed.old.starts.now (k + 1) ≤ rest.end) × (rest.end + i < length listed.old.entries.now)
        × ((j : ℕ) → j ≤ rest.top → at listed.old.starts.now j + (i + 1) ≤ max_total) }
    ensures { SameListed listed.old listed.new × (result.top ≡ k)
        × LetIn c k rest.end rest.top i listed.old.starts.now listed.old.entries.now
        listed.new.starts.now listed.new.entries.now result.end }
{
    let q = wide(listed.starts[k]) + below(listed.view().part(k), c);
    shift(listed.entries, q, rest.end, q + (i + 1));
    listed.entries[q + i] = c as u16;
    raise(listed.starts, k, rest.top, i + 1);
    Rest { end: q, top: k }
}

// Gives the number c to each of these parts, none of which has it: the last part first, so that each entry moves once.
fn spread(m: usize, listed: &mut ListedMut, c: usize, these: &[u16])
    requires good { GoodIn m listed.old × (c < m) × Rising m these.now × ((k : ℕ) → ¬ Entry (parts_in m listed.old) c k) }
    requires room { (at listed.old.starts.now m + length these.now ≤ max_total)
        × (at listed.old.starts.now m + length these.now ≤ length listed.old.entries.now) }
    ensures { Holds (spread m c these.now (parts_in m listed.old)) listed.old listed.new }
{
    let mut rest = Rest {
        end: wide(listed.starts[m]),
        top: m,
    };
    for i in (0..these.len()).rev() {
        let k = wide(these[i]);
        rest = let_in(listed, c, k, rest, i);
    }
}

// Row r is struck out of every column, and column c is given the new rows; where no row is to be cleared, r is m. In the row
// listing, which goes first, row r is emptied and column c struck out of every row, and then the new rows are given column c. The
// list is lent for the columns that change.
pub fn store(
    m: usize,
    columns: &mut ListedMut,
    rows: &mut ListedMut,
    c: usize,
    r: usize,
    new_rows: &[u16],
    list: &mut [u16; MAX_SIZE],
)
    requires good { GoodIn m columns.old × GoodIn m rows.old × SameEntries (parts_in m columns.old) (parts_in m rows.old)
        × (c < m) × Rising m new_rows.now }
    requires entry { r < m → Entry (parts_in m columns.old) r c }
    requires room { (start_of (exchanged m (parts_in m columns.old) c r new_rows.now) m ≤ max_total)
        × (start_of (exchanged m (parts_in m columns.old) c r new_rows.now) m ≤ length columns.old.entries.now)
        × (start_of (exchanged m (parts_in m columns.old) c r new_rows.now) m ≤ length rows.old.entries.now) }
    ensures columns_held { Holds (exchanged m (parts_in m columns.old) c r new_rows.now) columns.old columns.new }
    ensures rows_held { Holds (turned m (exchanged m (parts_in m columns.old) c r new_rows.now)) rows.old rows.new }
{
    let readable = Formed {
        size: m,
        listed: rows.view(),
    };
    let n = changing(readable, c, r, list);
    take_out(m, rows, r, c, columns.view().part(c));
    spread(m, rows, c, new_rows);
    take_out(m, columns, c, r, first(list, n));
    insert(m, columns, c, new_rows);
}
