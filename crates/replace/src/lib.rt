// Replacement of a column: the checks, the judgment, the change.

#![tactic(auto)]

mod arrange;
mod change;
mod check;
mod verdicts;

ghost use Rattle.register.specs.Loan.{held, SameLists};
ghost use Rattle.judge.specs.Call.{call};
ghost use Rattle.replace.specs.Replace.{outcome, Replaces};
ghost use Rattle.replace.specs.Reply.{reply};

use crate::change::change;
use crate::check::check_call;
use judge::Judgment;
use register::lent::LentMut;
use register::scratch::Scratch;
use register::{Refusal, Register};

// Replaces one column by the new rows, after the build paper's checks 1 to 8. The three scratch lists are lent to the checks, which
// leave the places of rows and columns there, and then to the change.
pub fn replace(
    size: usize,
    lists: &mut LentMut,
    column: usize,
    new_rows: &[u16],
    eta: &mut [u16],
) -> Result<Judgment, Refusal>
    ensures same_lists { SameLists lists.old lists.new }
    ensures replaces { Replaces (call size (held lists.old) column new_rows.now eta.old)
        (outcome (reply result) (held lists.new) eta.new) }
{
    let mut scratch = Scratch {
        work: [0u16; Register::MAX_SIZE],
        row_places: [0u16; Register::MAX_SIZE],
        col_places: [0u16; Register::MAX_SIZE],
    };
    check_call(size, lists.view(), column, new_rows, eta, &mut scratch)?;
    Ok(change(size, lists, column, new_rows, eta, &mut scratch))
}
