// Registers of size 2 with the columns 0:{0} and 1:{0,1} in the order 0:0 1:1, and one fault each: in the column listing, in
// the row listing, or in the order.
use crate::report::check;
use listing::listing::Listed;
use register::lent::Lent;
use std::io;

// The register without a fault.
fn sound() -> Lent<'static> {
    Lent {
        columns: Listed {
            starts: &[0, 1, 3],
            entries: &[0, 0, 1],
        },
        rows: Listed {
            starts: &[0, 2, 3],
            entries: &[0, 1, 1],
        },
        order_rows: &[0, 1],
        order_cols: &[0, 1],
    }
}

// Other columns, and the rows and the order as they were.
fn columns<'a>(
    rt: &impl Print,
    label: &str,
    starts: &'a [u16],
    entries: &'a [u16],
) -> io::Result<()> {
    let columns = Listed { starts, entries };
    check(rt, label, 2, Lent { columns, ..sound() })
}

// Other rows.
fn rows<'a>(rt: &impl Print, label: &str, starts: &'a [u16], entries: &'a [u16]) -> io::Result<()> {
    let rows = Listed { starts, entries };
    check(rt, label, 2, Lent { rows, ..sound() })
}

// Another order.
fn order<'a>(
    rt: &impl Print,
    label: &str,
    order_rows: &'a [u16],
    order_cols: &'a [u16],
) -> io::Result<()> {
    let lists = Lent {
        order_rows,
        order_cols,
        ..sound()
    };
    check(rt, label, 2, lists)
}

// Replies 0 and 2.
pub fn short(rt: &impl Print) -> io::Result<()> {
    order(rt, "sound", &[0, 1], &[0, 1])?;
    columns(rt, "columns in longer lists", &[0, 1, 3, 9], &[0, 0, 1, 9])?;
    rows(rt, "rows in longer lists", &[0, 2, 3, 9], &[0, 1, 1, 9])?;
    order(rt, "order in longer lists", &[0, 1, 9], &[0, 1, 9])?;
    columns(rt, "empty lists for the columns", &[], &[])?;
    rows(rt, "empty lists for the rows", &[], &[])?;
    order(rt, "empty lists for the order", &[], &[])?;
    columns(rt, "two column starts", &[0, 1], &[0, 0, 1])?;
    rows(rt, "two row starts", &[0, 2], &[0, 1, 1])?;
    order(rt, "one row in the order", &[0], &[0, 1])?;
    order(rt, "one column in the order", &[0, 1], &[0])?;
    columns(
        rt,
        "last column start past its list",
        &[0, 1, 4],
        &[0, 0, 1],
    )?;
    rows(rt, "last row start past its list", &[0, 2, 4], &[0, 1, 1])
}

// Check 2 is for both listings before check 3 for one.
pub fn short_and_malformed(rt: &impl Print) -> io::Result<()> {
    let lists = Lent {
        columns: Listed {
            starts: &[1, 0, 3],
            entries: &[0, 0, 1],
        },
        rows: Listed {
            starts: &[0, 2, 4],
            entries: &[0, 1, 1],
        },
        ..sound()
    };
    check(rt, "the same, and malformed columns", 2, lists)
}

// Reply 3.
pub fn malformed(rt: &impl Print) -> io::Result<()> {
    columns(rt, "first start not 0", &[1, 1, 3], &[0, 0, 1])?;
    rows(rt, "starts that fall", &[0, 3, 2], &[0, 1, 1])?;
    columns(rt, "middle start past its list", &[0, 9, 3], &[0, 0, 1])?;
    columns(rt, "equal rows", &[0, 1, 3], &[0, 1, 1])?;
    columns(rt, "falling rows", &[0, 1, 3], &[0, 1, 0])?;
    columns(rt, "row number 2", &[0, 1, 3], &[0, 0, 2])?;
    rows(rt, "column number 2", &[0, 2, 3], &[0, 2, 1])
}

// Reply 4, and reply 5 of the order alone.
pub fn unsound(rt: &impl Print) -> io::Result<()> {
    rows(rt, "row listing lacks an entry", &[0, 1, 2], &[0, 1])?;
    columns(rt, "column listing lacks an entry", &[0, 1, 2], &[0, 1])?;
    rows(rt, "as many entries, others", &[0, 1, 3], &[1, 0, 1])?;
    order(rt, "a row twice in the order", &[0, 0], &[0, 1])?;
    order(rt, "a column twice in the order", &[0, 1], &[1, 1])?;
    order(rt, "row number 2 in the order", &[0, 2], &[0, 1])?;
    order(rt, "column number 2 in the order", &[0, 1], &[2, 1])?;
    order(rt, "the order turned round", &[1, 0], &[1, 0])
}

// Reply 5 of a pattern that has no such order.
pub fn empty(rt: &impl Print) -> io::Result<()> {
    let lists = Lent {
        columns: Listed {
            starts: &[0, 1, 2],
            entries: &[0, 0],
        },
        rows: Listed {
            starts: &[0, 2, 2],
            entries: &[0, 1],
        },
        ..sound()
    };
    check(rt, "a pair that is no entry", 2, lists)?;
    let lists = Lent {
        columns: Listed {
            starts: &[0, 0, 2],
            entries: &[0, 1],
        },
        rows: Listed {
            starts: &[0, 1, 2],
            entries: &[1, 1],
        },
        ..sound()
    };
    check(rt, "an empty column", 2, lists)
}
