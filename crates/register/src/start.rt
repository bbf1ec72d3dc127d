// A register started from its column listing, in the order that pairs row t with column t: the row
// listing and the order are written where the checks pass.
ghost use Rattle.std.specs.Prelude.{◌≡◌, ◌≤◌, length};
ghost use Rattle.pattern.specs.Order.{Sound};
ghost use Rattle.pattern.specs.Pattern.{Entry};
ghost use Rattle.listing.specs.Formed.{parts_of};
ghost use Rattle.listing.specs.Held.{over};
ghost use Rattle.listing.specs.Limits.{max_size};
ghost use Rattle.listing.specs.Says.{Says};
ghost use Rattle.register.specs.Lent.{lists};
ghost use Rattle.register.specs.Loan.{seen};
ghost use Rattle.register.specs.Reply.{fault};
ghost use Rattle.register.specs.Start.{started, own_places, StartFault, StartsWith};

use crate::lent::Lent;
use crate::order::sound;
use crate::room::takes;
use crate::scratch::Scratch;
use crate::{Refusal, Register};
use listing::formed::Formed;
use listing::listing::Listed;
use listing::turn::turn;
use listing::wide::wide;

// Each of the first m places gets its own number.
pub fn lay_own(m: usize, list: &mut [u16])
    requires { (m ≤ max_size) × (m ≤ length list.old) }
    ensures { list.new ≡ over (own_places m) list.old }
{
    for (t, number) in list[..m].iter_mut().enumerate() {
        *number = t as u16;
    }
}

// Whether the order t:t is sound for the columns. The lists for it are one struct, as a replacement's are: so where both calls are
// taken into one function, as into a run of the tryout, they have one place on the stack.
fn own_sound(columns: Formed, scratch: &mut Scratch) -> bool
    ensures { Says result (Sound (Entry (parts_of columns.entry)) columns.entry.size (λ t. t) (λ t. t)) }
{
    lay_own(columns.size, &mut scratch.work);
    sound(
        columns,
        &scratch.work,
        &scratch.work,
        &mut scratch.row_places,
        &mut scratch.col_places,
    )
}

// The first fault of a start.
fn start_fault(m: usize, lists: Lent) -> Result<(), Refusal>
    ensures { StartFault m (seen lists.entry) (fault result) }
{
    if m == 0 {
        return Err(Refusal::Size);
    }
    if Register::MAX_SIZE < m {
        return Err(Refusal::Size);
    }
    if lists.columns.starts.len() <= m {
        return Err(Refusal::ShortList);
    }
    if !takes(m, wide(lists.columns.starts[m]), lists) {
        return Err(Refusal::ShortList);
    }
    if !lists.columns.formed(m) {
        return Err(Refusal::MalformedListing);
    }
    let columns = Formed {
        size: m,
        listed: lists.columns,
    };
    let mut scratch = Scratch {
        work: [0u16; Register::MAX_SIZE],
        row_places: [0u16; Register::MAX_SIZE],
        col_places: [0u16; Register::MAX_SIZE],
    };
    if !own_sound(columns, &mut scratch) {
        return Err(Refusal::OrderUnsound);
    }
    Ok(())
}

// Starts a register.
pub fn start<'a>(
    m: usize,
    columns: Listed<'a>,
    row_starts: &'a mut [u16],
    row_cols: &'a mut [u16],
    order_rows: &'a mut [u16],
    order_cols: &'a mut [u16],
) -> Result<(), Refusal>
    ensures { StartsWith m
        (lists columns.entry.starts.now columns.entry.entries.now row_starts.old row_cols.old order_rows.old order_cols.old)
        (started (fault result)
        (lists columns.entry.starts.now columns.entry.entries.now row_starts.new row_cols.new order_rows.new order_cols.new)) }
{
    let lists = Lent {
        columns,
        rows: Listed {
            starts: row_starts,
            entries: row_cols,
        },
        order_rows,
        order_cols,
    };
    start_fault(m, lists)?;
    let columns = Formed {
        size: m,
        listed: columns,
    };
    turn(columns, row_starts, row_cols);
    lay_own(m, order_rows);
    lay_own(m, order_cols);
    Ok(())
}
