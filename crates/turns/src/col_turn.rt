// The lines 'col c rows', and the start after the last of them.
ghost use Rattle.std.specs.Prelude.{List, ◌≡◌, ℕ, ◌+◌, ◌≤◌, ◌<◌, length};
ghost use Rattle.listing.specs.Held.{over};
ghost use Rattle.listing.specs.Limits.{max_size, max_total};
ghost use Rattle.text.specs.Prints.{HasRoom};
ghost use Rattle.text.specs.Text.{max_numbers, max_count};
ghost use Rattle.register.specs.Takes.{Takes};
ghost use Rattle.register.specs.Lent.{Lists, lists as six};
ghost use Rattle.register.specs.Loan.{held, SameLists};
ghost use Rattle.replies.specs.Replies.{max_reply};
ghost use Rattle.turns.specs.Steps.{Steady, Makes, ColCount};
ghost use Rattle.turns.specs.Turns.{lent, run, still_fits, with_column, StartDoes, LineDoes};
ghost use Rattle.turns.specs.declared.Turn.TheVariants as turn;

use crate::steps::{bad, next_line, refuse};
use crate::{State, Turn};
use listing::listing::Listed;
use listing::lists::copy;
use register::lent::LentMut;
use register::{Refusal, Register};
use text::lines::{Heard, hear, keep};
use text::output::Output;

const COL: [u8; 3] = *b"col";

// How many numbers the line 'col c rows' of this column has, its own number among them.
fn col_count(line: &[u8], column: usize) -> Option<usize>
    ensures { ColCount line.now column result }
{
    let Heard { first, count } = hear(line, &COL)?;
    if count == 0 || first != column {
        return None;
    }
    Some(count)
}

// The rows of a column go behind those before them, where they fit; replies whether they do.
fn store(fits: bool, column: usize, rows: &[u16], cs: &mut [u16], cr: &mut [u16]) -> bool
    requires { (column + 1 < length cs.old) × (length rows.now ≤ max_numbers) × (max_total ≤ length cr.old) }
    ensures { (rs rc or oc : List ℕ) →
        (result ≡ still_fits (six cs.old cr.old rs rc or oc) column rows.now fits)
        × (six cs.new cr.new rs rc or oc ≡ with_column (six cs.old cr.old rs rc or oc) column rows.now result) }
{
    if !fits {
        return false;
    }
    let total = cs[column] as usize;
    let sum = total + rows.len();
    if Register::MAX_TOTAL < sum {
        return false;
    }
    copy(rows, total, cr);
    cs[column + 1] = sum as u16;
    true
}

// After the last column: the desk is opened, or the start refused.
fn open(state: State, size: usize, fits: bool, lists: &mut LentMut, out: &mut Output) -> State
    requires { (state.number < max_count) × HasRoom max_reply out.old }
    ensures same_lists { SameLists lists.old lists.new }
    ensures makes { (before : Lists) (new eta numbers line : List ℕ) → Makes
        (StartDoes (run state (lent before eta numbers line)) size new (held lists.old) fits)
        out.old (run result (lent (held lists.new) eta (over new numbers) line)) out.new }
{
    if !fits {
        return refuse(state, Refusal::MalformedListing.number(), out);
    }
    let col_starts = &mut *lists.col_starts;
    let col_rows = &mut *lists.col_rows;
    let row_starts = &mut *lists.row_starts;
    let row_cols = &mut *lists.row_cols;
    let order_rows = &mut *lists.order_rows;
    let order_cols = &mut *lists.order_cols;
    let columns = Listed {
        starts: col_starts,
        entries: col_rows,
    };
    match (Register { size }).start(columns, row_starts, row_cols, order_rows, order_cols) {
        Err(refusal) => refuse(state, refusal.number(), out),
        Ok(()) => next_line(state, Turn::Put { size }),
    }
}

// The column in its turn. The eta list has no part in it.
pub fn col_line(
    state: State,
    size: usize,
    column: usize,
    fits: bool,
    line: &[u8],
    numbers: &mut [u16],
    lists: &mut LentMut,
    out: &mut Output,
) -> State
    requires { Steady state line.now out.old × (column < size) × (size ≤ max_size) × (max_numbers ≤ length numbers.old)
        × Takes max_size max_total (held lists.old) }
    ensures same_lists { SameLists lists.old lists.new }
    ensures makes { (eta : List ℕ) → Makes
        (LineDoes (turn.Column size column fits) (run state (lent (held lists.old) eta numbers.old line.now)))
        out.old (run result (lent (held lists.new) eta numbers.new line.now)) out.new }
{
    let line = &line[..state.used];
    let Some(count) = col_count(line, column) else {
        return bad(state, out);
    };
    keep(line, &COL, numbers);
    let now_fits = store(
        fits,
        column,
        &numbers[1..count],
        lists.col_starts,
        lists.col_rows,
    );
    if column + 1 < size {
        return next_line(
            state,
            Turn::Column {
                size,
                column: column + 1,
                fits: now_fits,
            },
        );
    }
    open(state, size, now_fits, lists, out)
}
