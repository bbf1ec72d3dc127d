// The register for C: numbers and lists alone. A list comes as a pointer and a length, as include/scrollbobbin.h has it.

#![tactic(auto)]

mod sheets;

ghost use Rattle.std.specs.Prelude.{◌≡◌, ◌+◌};
ghost use Rattle.listing.specs.Look.{Spans};
ghost use Rattle.register.specs.Checks.{FirstFault};
ghost use Rattle.register.specs.Lent.{lists};
ghost use Rattle.judge.specs.Call.{call};
ghost use Rattle.replace.specs.Reply.{reply};
ghost use Rattle.cabi.specs.Code.{code};
ghost use Rattle.cabi.specs.Replace.{Gives};

use judge::Judgment;
use listing::listing::Listed;
use register::lent::{Lent, LentMut};
use register::{Refusal, Register};
use replace::replace;

// A replacement's reply as three numbers.
#[derive(Drop)]
struct Told {
    result: usize,
    bump: usize,
    eta_count: usize,
}

// Bump and eta count are 0 but in ELIMINATION.
fn plain(res: usize) -> Told
    ensures { (result.result ≡ res) × (result.bump ≡ 0) × (result.eta_count ≡ 0) }
{
    Told {
        result: res,
        bump: 0,
        eta_count: 0,
    }
}

// The register's reply, by C's numbers.
fn tell(replaced: Result<Judgment, Refusal>) -> Told
    ensures { (result.result ≡ code (reply replaced).answer) × (result.bump ≡ (reply replaced).bump) × (result.eta_count ≡ (reply replaced).eta_count) }
{
    match replaced {
        Err(refusal) => plain(refusal.number()),
        Ok(Judgment::Singular) => plain(100),
        Ok(Judgment::Permuted) => plain(101),
        Ok(Judgment::Elimination { bump, eta_count }) => Told {
            result: 102,
            bump,
            eta_count,
        },
    }
}

// 0 for a sound register, else the number of its first fault.
#[unsafe(no_mangle)]
pub extern "C" fn scrollbobbin_check<'a>(
    size: usize,
    col_starts: &'a [u16],
    col_rows: &'a [u16],
    row_starts: &'a [u16],
    row_cols: &'a [u16],
    order_rows: &'a [u16],
    order_cols: &'a [u16],
) -> usize
    ensures { FirstFault size
        (lists col_starts.now col_rows.now row_starts.now row_cols.now
        order_rows.now order_cols.now)
        result }
{
    let lists = Lent {
        columns: Listed {
            starts: col_starts,
            entries: col_rows,
        },
        rows: Listed {
            starts: row_starts,
            entries: row_cols,
        },
        order_rows,
        order_cols,
    };
    match (Register { size }).check(lists) {
        Ok(()) => 0,
        Err(refusal) => refusal.number(),
    }
}

// The rows of one column: where they begin in the column listing's rows, and how many they are.
#[unsafe(no_mangle)]
pub extern "C" fn scrollbobbin_look<'a>(
    size: usize,
    col_starts: &'a [u16],
    col_rows: &'a [u16],
    column: usize,
    begin: &mut usize,
) -> usize
    ensures { Spans size column col_starts.now col_rows.now (begin.new, begin.new + result) }
{
    let columns = Listed {
        starts: col_starts,
        entries: col_rows,
    };
    let span = (Register { size }).span(columns, column);
    *begin = span.from;
    span.to - span.from
}

// Replaces one column by the new rows, or refuses.
#[unsafe(no_mangle)]
pub extern "C" fn scrollbobbin_replace<'a>(
    size: usize,
    col_starts: &'a mut [u16],
    col_rows: &'a mut [u16],
    row_starts: &'a mut [u16],
    row_cols: &'a mut [u16],
    order_rows: &'a mut [u16],
    order_cols: &'a mut [u16],
    column: usize,
    new_rows: &[u16],
    eta: &mut [u16],
    bump: &mut usize,
    eta_count: &mut usize,
) -> usize
    ensures { Gives
        (call size
        (lists col_starts.old col_rows.old row_starts.old row_cols.old
        order_rows.old order_cols.old)
        column new_rows.now eta.old)
        result bump.new eta_count.new
        (lists col_starts.new col_rows.new row_starts.new row_cols.new
        order_rows.new order_cols.new)
        eta.new }
{
    let lists = &mut LentMut {
        col_starts,
        col_rows,
        row_starts,
        row_cols,
        order_rows,
        order_cols,
    };
    let told = tell(replace(size, lists, column, new_rows, eta));
    *bump = told.bump;
    *eta_count = told.eta_count;
    told.result
}
