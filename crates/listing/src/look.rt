// Where a look's part stands in the caller's list.
ghost use Rattle.listing.specs.Look.{Spans};

use crate::MAX_SIZE;
use crate::listing::Listed;
use crate::wide::wide;

#[derive(Clone, Copy)]
pub struct Span {
    pub from: usize,
    pub to: usize,
}

pub fn sight(m: usize, columns: Listed, column: usize) -> Span
    ensures { Spans m column columns.entry.starts.now columns.entry.entries.now (result.from, result.to) }
{
    let nowhere = Span { from: 0, to: 0 };
    if m == 0 {
        return nowhere;
    }
    if MAX_SIZE < m {
        return nowhere;
    }
    if m <= column {
        return nowhere;
    }
    if columns.starts.len() <= m {
        return nowhere;
    }
    let from = wide(columns.starts[column]);
    let to = wide(columns.starts[column + 1]);
    if to < from {
        return nowhere;
    }
    if columns.entries.len() < to {
        return nowhere;
    }
    Span { from, to }
}
