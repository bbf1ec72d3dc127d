// The build paper's checks 1 to 8 of a replacement, in the order of their numbers.
ghost use Rattle.std.specs.Prelude.{◌≡◌, ◌≤◌, ◌<◌, length};
ghost use Rattle.pattern.specs.Places.{at};
ghost use Rattle.listing.specs.Limits.{max_size};
ghost use Rattle.listing.specs.Listing.{Starts};
ghost use Rattle.listing.specs.Says.{Says};
ghost use Rattle.register.specs.Checks.{Fits};
ghost use Rattle.register.specs.Loan.{seen};
ghost use Rattle.register.specs.Order.{PlacesKnown};
ghost use Rattle.register.specs.Reply.{fault};
ghost use Rattle.judge.specs.Call.{call};
ghost use Rattle.replace.specs.ReplaceChecks.{new_total, ColumnChecks, CallFault};

use listing::listing::rising;
use listing::wide::wide;
use register::check::check;
use register::lent::Lent;
use register::scratch::Scratch;
use register::{Refusal, Register};

// Check 8: the total with n new rows in the stead of column c's.
fn fits(m: usize, lists: Lent, c: usize, n: usize) -> bool
    requires { (c < m) × (m < length lists.columns.starts.now) × Starts m lists.columns.starts.now × (n ≤ max_size) }
    ensures { Says result (Fits (new_total m lists.entry.columns.starts.now c n)
        lists.entry.columns.entries.now lists.entry.rows.entries.now) }
{
    let starts = lists.columns.starts;
    let total = wide(starts[m]) - (wide(starts[c + 1]) - wide(starts[c])) + n;
    total <= Register::MAX_TOTAL
        && total <= lists.columns.entries.len()
        && total <= lists.rows.entries.len()
}

// Checks 6 to 8. New rows that rise below m are at most m.
fn column_fault(m: usize, lists: Lent, c: usize, new: &[u16]) -> Result<(), Refusal>
    requires { (m ≤ max_size) × (m < length lists.columns.starts.now) × Starts m lists.columns.starts.now }
    ensures { ColumnChecks m c new.now lists.entry.columns.starts.now lists.entry.columns.entries.now lists.entry.rows.entries.now
        (λ n. n) (λ n. n ≡ 0) (fault result) }
{
    if m <= c {
        return Err(Refusal::ColumnNumber);
    }
    if !rising(m, new) {
        return Err(Refusal::NewColumn);
    }
    if !fits(m, lists, c, new.len()) {
        return Err(Refusal::NoRoom);
    }
    Ok(())
}

// Checks 1 to 8. A size over the limit comes before a short eta list; where the size is 0, no list is short.
pub fn check_call(
    m: usize,
    lists: Lent,
    c: usize,
    new: &[u16],
    eta: &[u16],
    scratch: &mut Scratch,
) -> Result<(), Refusal>
    ensures call_fault { CallFault (call m (seen lists.entry) c new.now eta.now) (fault result) }
    ensures places_known { fault result ≡ 0 → PlacesKnown m (at lists.entry.order_rows.now) (at lists.entry.order_cols.now)
        scratch.new.work scratch.new.row_places scratch.new.col_places }
{
    if Register::MAX_SIZE < m {
        return Err(Refusal::Size);
    }
    if eta.len() < m {
        return Err(Refusal::ShortList);
    }
    check(m, lists, scratch)?;
    column_fault(m, lists, c, new)
}
