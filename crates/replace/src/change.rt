// The judgment, and then the change of the lists that the verdict asks for.
ghost use Rattle.std.specs.Prelude.{◌≤◌, length};
ghost use Rattle.pattern.specs.Places.{at};
ghost use Rattle.register.specs.Loan.{held, SameLists};
ghost use Rattle.register.specs.Order.{Placed};
ghost use Rattle.judge.specs.Call.{call};
ghost use Rattle.judge.specs.Judge.{Judgeable};
ghost use Rattle.replace.specs.ReplaceChecks.{NewFits};
ghost use Rattle.replace.specs.Replace.{outcome, Answered};
ghost use Rattle.replace.specs.Reply.{said};

use crate::verdicts::{clear, permute};
use judge::Judgment;
use judge::judge::judge;
use listing::wide::wide;
use register::lent::LentMut;
use register::scratch::Scratch;

// Judges a call that no check refuses, and makes the change. The scratch lists have the places of the rows and of the columns.
pub fn change(
    m: usize,
    lists: &mut LentMut,
    c: usize,
    new: &[u16],
    eta: &mut [u16],
    scratch: &mut Scratch,
) -> Judgment
    requires judgeable { Judgeable (call m (held lists.old) c new.now eta.old) × (m ≤ length eta.old) }
    requires new_fits { NewFits (call m (held lists.old) c new.now eta.old) }
    requires placed { Placed m (at lists.old.order_cols.now) scratch.old.col_places
        × Placed m (at lists.old.order_rows.now) scratch.old.row_places }
    ensures same_lists { SameLists lists.old lists.new }
    ensures answered { Answered (call m (held lists.old) c new.now eta.old) (outcome (said result) (held lists.new) eta.new) }
{
    let p = wide(scratch.col_places[c]);
    let judgment = judge(m, lists.view(), c, new, p, scratch, eta);
    match judgment {
        Judgment::Singular => {}
        Judgment::Permuted => {
            permute(m, lists, c, new, scratch);
        }
        Judgment::Elimination { bump, eta_count } => {
            clear(m, lists, c, new, p, scratch);
        }
    }
    judgment
}
