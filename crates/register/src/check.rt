// The build paper's checks 1 to 5 of a lent register, in the order of their numbers.
ghost use Rattle.std.specs.Prelude.{◌≡◌};
ghost use Rattle.pattern.specs.Places.{at};
ghost use Rattle.pattern.specs.Ladder.{Unless};
ghost use Rattle.listing.specs.Falls.{PartsRise};
ghost use Rattle.listing.specs.Limits.{Sized};
ghost use Rattle.listing.specs.Listing.{Room, Starts};
ghost use Rattle.listing.specs.Says.{Says};
ghost use Rattle.register.specs.Checks.{Contents, FirstFault};
ghost use Rattle.register.specs.Lent.{Long};
ghost use Rattle.register.specs.Loan.{seen};
ghost use Rattle.register.specs.Order.{PlacesKnown};
ghost use Rattle.register.specs.Reply.{fault};

use crate::lent::Lent;
use crate::order::{clear, enter, topped};
use crate::same::same;
use crate::scratch::Scratch;
use crate::{Refusal, Register};
use listing::formed::Formed;
use listing::listing::Listed;
use listing::wide::wide;

// Check 2: the lengths.
fn long_enough(m: usize, lists: Lent) -> bool
    ensures { Says result (Long m (seen lists.entry)) }
{
    if lists.columns.starts.len() <= m {
        return false;
    }
    if lists.columns.entries.len() < wide(lists.columns.starts[m]) {
        return false;
    }
    if lists.rows.starts.len() <= m {
        return false;
    }
    if lists.rows.entries.len() < wide(lists.rows.starts[m]) {
        return false;
    }
    m <= lists.order_rows.len() && m <= lists.order_cols.len()
}

// The fault of a row listing with right starts that is not the columns turned: it is malformed, or lists other entries.
fn unlike(m: usize, rows: Listed) -> Result<(), Refusal>
    requires { Room m rows.starts.now rows.entries.now × Starts m rows.starts.now }
    ensures { Unless (PartsRise m rows.entry.starts.now rows.entry.entries.now) 3 (λ n. n ≡ 4) (fault result) }
{
    if !rows.parts_rise(m) {
        return Err(Refusal::MalformedListing);
    }
    Err(Refusal::ListingsDiffer)
}

// Checks 3 to 5: what the lists hold. The entries are gone over once for the rows' listing and the order together; where that
// fails, what it failed for is found by itself. Where nothing is refused, the scratch lists have the places of the rows and of
// the columns: a column's own place is the greatest of its rows'.
fn contents(m: usize, lists: Lent, scratch: &mut Scratch) -> Result<(), Refusal>
    requires { Sized m × Long m (seen lists) }
    ensures contents { Contents m (seen lists.entry) (λ n. n) (λ n. n ≡ 0) (fault result) }
    ensures places_known { fault result ≡ 0 → PlacesKnown m (at lists.entry.order_rows.now) (at lists.entry.order_cols.now)
        scratch.new.work scratch.new.row_places scratch.new.col_places }
{
    if !lists.columns.formed(m) {
        return Err(Refusal::MalformedListing);
    }
    if !lists.rows.starts_right(m) {
        return Err(Refusal::MalformedListing);
    }
    clear(&mut scratch.row_places);
    let entered = enter(m, lists.order_rows, &mut scratch.row_places);
    let columns = Formed {
        size: m,
        listed: lists.columns,
    };
    if !same(
        columns,
        lists.rows,
        &mut scratch.work,
        &scratch.row_places,
        &mut scratch.col_places,
    ) {
        return unlike(m, lists.rows);
    }
    if !entered {
        return Err(Refusal::OrderUnsound);
    }
    if !topped(
        m,
        lists.columns.starts,
        lists.order_cols,
        &scratch.col_places,
    ) {
        return Err(Refusal::OrderUnsound);
    }
    Ok(())
}

// Checks 1 to 5.
pub fn check(m: usize, lists: Lent, scratch: &mut Scratch) -> Result<(), Refusal>
    ensures first_fault { FirstFault m (seen lists.entry) (fault result) }
    ensures places_known { fault result ≡ 0 → PlacesKnown m (at lists.entry.order_rows.now) (at lists.entry.order_cols.now)
        scratch.new.work scratch.new.row_places scratch.new.col_places }
{
    if m == 0 {
        return Err(Refusal::Size);
    }
    if Register::MAX_SIZE < m {
        return Err(Refusal::Size);
    }
    if !long_enough(m, lists) {
        return Err(Refusal::ShortList);
    }
    contents(m, lists, scratch)
}
