// The first pass over a sheet: every fault of its numbers, and where its parts begin. Nothing is kept but counts.
ghost use Rattle.std.specs.Prelude.{List, ◌≡◌, ℕ, ◌≤◌, length};
ghost use Rattle.pattern.specs.Flat.{flat};
ghost use Rattle.listing.specs.Limits.{max_size, max_total};
ghost use Rattle.sheet.specs.Passes.{gauged, Scans};
ghost use Rattle.sheet.specs.Reading.{rows_at, column_at, columns_at, pair_at, order_at};
ghost use Rattle.sheet.specs.Reply.{told};

use crate::Fault;
use crate::items::{below, count, row, size};
use crate::number::Step;
use register::Refusal;

// What the first pass finds where there is no fault: the size, the total and the places at which the columns and the order begin.
#[derive(Drop)]
pub struct Scanned {
    pub size: u32,
    pub total: u32,
    pub columns: usize,
    pub order: usize,
}

// The n rows of a column: their number, and the place after them.
fn scan_rows(bytes: &[u8], place: usize, m: u32, n: u32) -> Result<Step, Fault>
    requires { m ≤ max_size }
    ensures { told result ≡ gauged length (rows_at bytes.now m n place) }
{
    let mut at = place;
    let mut least = 0;
    for _ in 0..n {
        let r = row(bytes, at, m, least)?;
        least = r.value + 1;
        at = r.next;
    }
    Ok(Step { value: n, next: at })
}

// A column: the number of its rows, and the place after them.
#[tactic(auto, unfolding(crate::specs::Reading::column_at, crate::specs::Reading::onward, crate::specs::Passes::gauged))]
fn scan_column(bytes: &[u8], place: usize, m: u32, entries: u32) -> Result<Step, Fault>
    requires { (m ≤ max_size) × (entries ≤ max_total) }
    ensures { told result ≡ gauged length (column_at bytes.now m entries place) }
{
    let n = count(bytes, place, m, entries)?;
    scan_rows(bytes, n.next, m, n.value)
}

// All columns: the total, and the place after them.
fn scan_columns(bytes: &[u8], place: usize, m: u32) -> Result<Step, Fault>
    requires { m ≤ max_size }
    ensures { told result ≡ gauged (λ (P : List (List ℕ)). length (flat P)) (columns_at bytes.now m place) }
{
    let mut at = place;
    let mut entries = 0;
    for _ in 0..m {
        let column = scan_column(bytes, at, m, entries)?;
        entries += column.value;
        at = column.next;
    }
    Ok(Step {
        value: entries,
        next: at,
    })
}

// The row and the column of one place of the order: the column, and the place after it.
#[tactic(auto, unfolding(crate::specs::Reading::pair_at, crate::specs::Reading::onward, crate::specs::Passes::gauged))]
fn scan_pair(bytes: &[u8], place: usize, m: u32) -> Result<Step, Fault>
    ensures { told result ≡ gauged (λ (p : ℕ × ℕ). p.1) (pair_at bytes.now m 0 place) }
{
    let row = below(bytes, place, m)?;
    below(bytes, row.next, m)
}

// The order: the number of its places, and the place after it.
fn scan_order(bytes: &[u8], place: usize, m: u32) -> Result<Step, Fault>
    ensures { told result ≡ gauged length (order_at bytes.now m place) }
{
    let mut at = place;
    for _t in 0..m {
        at = scan_pair(bytes, at, m)?.next;
    }
    Ok(Step { value: m, next: at })
}

// The whole sheet.
#[tactic(auto, unfolding(crate::specs::Reading::record_read, crate::specs::Reading::onward, crate::specs::Passes::gauged))]
pub fn scan(bytes: &[u8]) -> Result<Scanned, Fault>
    ensures { Scans bytes.now result }
{
    let Step {
        value: m,
        next: columns,
    } = size(bytes)?;
    let Step {
        value: total,
        next: order,
    } = scan_columns(bytes, columns, m)?;
    let end = scan_order(bytes, order, m)?.next;
    if end != bytes.len() {
        return Err(Fault {
            reply: Refusal::SheetSurplus,
            place: end,
        });
    }
    Ok(Scanned {
        size: m,
        total,
        columns,
        order,
    })
}
