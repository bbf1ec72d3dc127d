// The numbers of a sheet with their ranges: the size, a count, a row of a column, a row or a column of the order.
ghost use Rattle.std.specs.Prelude.{◌≡◌, ℕ, ◌≤◌, ltb};
ghost use Rattle.listing.specs.Limits.{max_size, max_total};
ghost use Rattle.sheet.specs.Number.{got, number};
ghost use Rattle.sheet.specs.Passes.{Got, Short};
ghost use Rattle.sheet.specs.Reading.{number_that, size_at, row_at, count_at, pair_at};
ghost use Rattle.sheet.specs.Reply.{told};

use crate::Fault;
use crate::number::{Step, few_groups, read_number};
use register::{Refusal, Register};

// A number below the limit, or a range fault. The order's rows and columns are such, with the size as the limit.
#[tactic(auto, unfolding(crate::specs::Reading::number_that, crate::specs::Reading::onward))]
pub fn below(bytes: &[u8], place: usize, limit: u32) -> Result<Step, Fault>
    ensures { told result ≡ number_that bytes.now (λ (v : ℕ). ltb v limit) 11 place }
{
    let read = read_number(bytes, place)?;
    if limit <= read.value {
        return Err(Fault {
            reply: Refusal::SheetRange,
            place,
        });
    }
    Ok(read)
}

// The size.
#[tactic(auto, unfolding(crate::specs::Reading::number_that, crate::specs::Reading::onward))]
pub fn size(bytes: &[u8]) -> Result<Step, Fault>
    ensures { told result ≡ size_at bytes.now 0 }
{
    let read = read_number(bytes, 0)?;
    if read.value == 0 || Register::MAX_SIZE < read.value as usize {
        return Err(Fault {
            reply: Refusal::Size,
            place: 0,
        });
    }
    Ok(read)
}

// A column's count, after so many entries of the columns before it.
pub fn count(bytes: &[u8], place: usize, m: u32, entries: u32) -> Result<Step, Fault>
    requires { (m ≤ max_size) × (entries ≤ max_total) }
    ensures { told result ≡ count_at bytes.now m entries place }
{
    let room = Register::MAX_TOTAL as u32 - entries;
    if room < m {
        return below(bytes, place, room + 1);
    }
    below(bytes, place, m + 1)
}

// A row of a column, which is at least `least`.
#[tactic(auto, unfolding(crate::specs::Reading::row_at, crate::specs::Reading::number_that, crate::specs::Reading::onward))]
pub fn row(bytes: &[u8], place: usize, m: u32, least: u32) -> Result<Step, Fault>
    requires { (m ≤ max_size) × (least ≤ m) }
    ensures { told result ≡ row_at bytes.now m least place }
{
    let gap = below(bytes, place, m - least)?;
    Ok(Step {
        value: least + gap.value,
        next: gap.next,
    })
}

// The number that begins at this place, where it is known to have one group or two.
#[tactic(auto, using(crate::proofs::FewGroups::few_groups, crate::proofs::FewGroups::few_read, crate::proofs::FewGroups::last_read))]
pub fn known(bytes: &[u8], place: usize) -> Step
    requires { Short bytes.now place }
    ensures { number bytes.now place ≡ got result.value result.next }
{
    if place + 1 == bytes.len() {
        return Step {
            value: bytes[place] as u32,
            next: place + 1,
        };
    }
    few_groups(bytes, place)
}

// A row and a column of the order, and the place after them.
#[derive(Drop)]
pub struct Pair {
    pub row: u32,
    pub column: u32,
    pub next: usize,
}

// The row and the column of one place of the order, where they are known to be no fault.
#[tactic(auto, unfolding(crate::specs::Reading::pair_at, crate::specs::Reading::number_that, crate::specs::Reading::onward))]
pub fn known_pair(bytes: &[u8], place: usize) -> Pair
    requires { Got {A = ℕ × ℕ} (0, 0) (pair_at bytes.now max_size 0 place) }
    ensures { pair_at bytes.now max_size 0 place ≡ got (result.row, result.column) result.next }
{
    let row = known(bytes, place);
    let column = known(bytes, row.next);
    Pair {
        row: row.value,
        column: column.value,
        next: column.next,
    }
}
