// Whether lent lists are long enough.
ghost use Rattle.listing.specs.Says.{Says};
ghost use Rattle.register.specs.Takes.{Takes};
ghost use Rattle.register.specs.Loan.{seen};

use crate::lent::Lent;

// Whether the lists have room for a register of this size with so many entries. Check 2 is another question: it goes by each
// listing's own last start.
pub fn takes(size: usize, total: usize, lists: Lent) -> bool
    ensures { Says result (Takes size total (seen lists.entry)) }
{
    size < lists.columns.starts.len()
        && total <= lists.columns.entries.len()
        && size < lists.rows.starts.len()
        && total <= lists.rows.entries.len()
        && size <= lists.order_rows.len()
        && size <= lists.order_cols.len()
}
