// A register of one square sparse pattern, kept in six lists that the caller lends.

#![tactic(auto)]

pub mod check;
pub mod lent;
pub mod marks;
mod order;
pub mod places;
pub mod room;
mod same;
pub mod scratch;
mod start;

ghost use Rattle.std.specs.Prelude.{◌≡◌};
ghost use Rattle.listing.specs.Look.{Spans, Looked};
ghost use Rattle.register.specs.Checks.{FirstFault};
ghost use Rattle.register.specs.Lent.{lists, Fresh};
ghost use Rattle.register.specs.Loan.{seen};
ghost use Rattle.register.specs.Marks.{unmarked};
ghost use Rattle.register.specs.Reply.{number, fault};
ghost use Rattle.register.specs.Start.{started, StartsWith};

use crate::lent::Lent;
use crate::marks::Marks;
use crate::scratch::Scratch;
use crate::start::lay_own;
use listing::listing::Listed;
use listing::look::{Span, sight};
use listing::{MAX_SIZE, MAX_TOTAL};

// What a call refuses, by the build paper's numbers. The last four are the sheet reader's alone.
#[derive(Clone, Copy, Debug, PartialEq, Eq)]
pub enum Refusal {
    Size = 1,
    ShortList,
    MalformedListing,
    ListingsDiffer,
    OrderUnsound,
    ColumnNumber,
    NewColumn,
    NoRoom,
    SheetCut,
    SheetNumber,
    SheetRange,
    SheetSurplus,
}

impl Refusal {
    // The refusal's number in the build paper.
    pub fn number(self) -> usize
        ensures { result ≡ number self }
    {
        self as usize
    }
}

// A register by its size; its lists stay with the caller.
#[derive(Drop)]
pub struct Register {
    pub size: usize,
}

impl Register {
    pub const MAX_SIZE: usize = MAX_SIZE;

    pub const MAX_TOTAL: usize = MAX_TOTAL;

    // No column is marked.
    pub fn empty_marks() -> Marks
        ensures { result ≡ unmarked }
    {
        Marks::none()
    }

    // Place t pairs row t with column t: both lists of the order t:t, for every size.
    pub fn fresh_order() -> [u16; Register::MAX_SIZE]
        ensures { Fresh result }
    {
        let mut order = [0u16; Register::MAX_SIZE];
        lay_own(Register::MAX_SIZE, &mut order);
        order
    }

    // The first fault of a register in six lent lists, by the build paper's checks 1 to 5, or that it is sound.
    pub fn check(self, lists: Lent) -> Result<(), Refusal>
        ensures { FirstFault self.size (seen lists.entry) (fault result) }
    {
        let mut scratch = Scratch {
            work: [0u16; Register::MAX_SIZE],
            row_places: [0u16; Register::MAX_SIZE],
            col_places: [0u16; Register::MAX_SIZE],
        };
        check::check(self.size, lists, &mut scratch)
    }

    // Starts a register from its column listing, in the order that pairs row t with column t: after checks 1, 2, 3 and 5 of that
    // listing the row listing and the order are written. The columns are read alone, so the four lists that are written come by
    // themselves, and not in a `LentMut`.
    pub fn start(
        self,
        columns: Listed,
        row_starts: &mut [u16],
        row_cols: &mut [u16],
        order_rows: &mut [u16],
        order_cols: &mut [u16],
    ) -> Result<(), Refusal>
        ensures { StartsWith self.size
            (lists columns.entry.starts.now columns.entry.entries.now row_starts.old row_cols.old
            order_rows.old order_cols.old)
            (started (fault result)
            (lists columns.entry.starts.now columns.entry.entries.now row_starts.new row_cols.new
            order_rows.new order_cols.new)) }
    {
        start::start(
            self.size, columns, row_starts, row_cols, order_rows, order_cols,
        )
    }

    // From which place and up to which the rows of one column stand in the caller's list.
    pub fn span(self, columns: Listed, column: usize) -> Span
        ensures { Spans self.size column columns.entry.starts.now columns.entry.entries.now (result.from, result.to) }
    {
        sight(self.size, columns, column)
    }

    // The rows of one column, as a part of the caller's own list.
    pub fn look<'a>(self, col_starts: &[u16], col_rows: &'a [u16], column: usize) -> &'a [u16]
        ensures { Looked self.size column col_starts.now col_rows.now result.now }
    {
        let columns = Listed {
            starts: col_starts,
            entries: col_rows,
        };
        let span = self.span(columns, column);
        &col_rows[span.from..span.to]
    }
}
