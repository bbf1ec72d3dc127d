// The limits: sizes, and totals of 12,000 and 12,001.
ghost use Rattle.std.specs.Prelude.{◌≤◌};

use crate::report::check;
use listing::listing::Listed;
use register::Register;
use register::lent::Lent;
use std::io;

// The lists of a register of size 1.
fn size(rt: &impl Print, label: &str, m: usize) -> io::Result<()> {
    let listed = Listed {
        starts: &[0, 1],
        entries: &[0],
    };
    let lists = Lent {
        columns: listed,
        rows: listed,
        order_rows: &[0],
        order_cols: &[0],
    };
    check(rt, label, m, lists)
}

pub fn sizes(rt: &impl Print) -> io::Result<()> {
    size(rt, "size 0", 0)?;
    size(rt, "size 1", 1)?;
    size(rt, "size 1,000 in short lists", 1000)?;
    size(rt, "size 1,001", 1001)?;
    size(rt, "size 65,536", 65536)?;
    size(rt, "size 65,537", 65537)
}

// The numbers from a up to b go into the list from place n on, as far as it reaches; the next place.
fn run(list: &mut [u16; 12001], n: usize, a: usize, b: usize) -> usize
    requires { n ≤ 12001 }
    ensures { result ≤ 12001 }
{
    let mut at = n;
    for x in a..b {
        if at < 12001 {
            list[at] = (x % 65536) as u16;
            at += 1;
        }
    }
    at
}

// A full triangle of 148 columns, the diagonal behind it, and `more` further rows in column 999: 11,878 entries and `more`.
fn columns(more: usize, starts: &mut [u16; 1001], rows: &mut [u16; 12001]) {
    let mut n = 0;
    for c in 0..1000 {
        starts[c] = n as u16;
        n = run(rows, n, 0, if c == 999 { more } else { 0 });
        n = run(rows, n, if c < 148 { 0 } else { c }, c + 1);
    }
    starts[1000] = n as u16;
}

// The same by rows.
fn rows(more: usize, starts: &mut [u16; 1001], cols: &mut [u16; 12001]) {
    let mut n = 0;
    for r in 0..1000 {
        starts[r] = n as u16;
        n = run(cols, n, r, if r < 148 { 148 } else { r + 1 });
        n = run(cols, n, 999, if r < more { 1000 } else { 999 });
    }
    starts[1000] = n as u16;
}

// A listing with its entry list cut to the given length.
fn cut<'a>(starts: &'a [u16], entries: &'a [u16], length: usize) -> Listed<'a> {
    let length = length.min(entries.len());
    Listed {
        starts,
        entries: &entries[..length],
    }
}

// A register of size 1,000 in the order t:t, with entry lists cut to the given length.
fn total(rt: &impl Print, label: &str, more: usize, length: usize) -> io::Result<()> {
    let mut cs = [0u16; 1001];
    let mut cr = [0u16; 12001];
    let mut rs = [0u16; 1001];
    let mut rc = [0u16; 12001];
    columns(more, &mut cs, &mut cr);
    rows(more, &mut rs, &mut rc);
    let order = Register::fresh_order();
    let lists = Lent {
        columns: cut(&cs, &cr, length),
        rows: cut(&rs, &rc, length),
        order_rows: &order,
        order_cols: &order,
    };
    check(rt, label, 1000, lists)
}

pub fn totals(rt: &impl Print) -> io::Result<()> {
    total(rt, "size 1,000, total 12,000", 122, 12000)?;
    total(rt, "total 12,001", 123, 12001)?;
    total(rt, "total 12,001 in 12,000 places", 123, 12000)
}
