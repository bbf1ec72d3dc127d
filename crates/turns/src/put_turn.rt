// The line 'put c rows'.
ghost use Rattle.std.specs.Prelude.{◌≤◌, length};
ghost use Rattle.text.specs.Text.{max_numbers};
ghost use Rattle.register.specs.Loan.{held, SameLists};
ghost use Rattle.turns.specs.Steps.{Steady, Makes};
ghost use Rattle.turns.specs.Turns.{lent, run, LineDoes};
ghost use Rattle.turns.specs.declared.Turn.TheVariants as turn;

use crate::steps::{bad, next_line};
use crate::{State, Turn};
use register::lent::LentMut;
use replace::replace;
use replies::put_reply;
use text::lines::{Heard, hear, keep};
use text::output::Output;

const PUT: [u8; 3] = *b"put";

// The replacement is made, and its reply printed.
pub fn put_line(
    state: State,
    size: usize,
    line: &[u8],
    numbers: &mut [u16],
    lists: &mut LentMut,
    eta: &mut [u16],
    out: &mut Output,
) -> State
    requires { Steady state line.now out.old × (max_numbers ≤ length numbers.old) }
    ensures same_lists { SameLists lists.old lists.new }
    ensures makes { Makes
        (LineDoes (turn.Put size) (run state (lent (held lists.old) eta.old numbers.old line.now)))
        out.old (run result (lent (held lists.new) eta.new numbers.new line.now)) out.new }
{
    let line = &line[..state.used];
    let Some(
        Heard {
            first: column,
            count,
        },
    ) = hear(line, &PUT)
    else {
        return bad(state, out);
    };
    if count == 0 {
        return bad(state, out);
    }
    keep(line, &PUT, numbers);
    let replaced = replace(size, lists, column, &numbers[1..count], eta);
    let lent = lists.view();
    put_reply(
        size,
        column,
        replaced,
        lent.order_rows,
        lent.order_cols,
        eta,
        out,
    );
    next_line(state, Turn::Put { size })
}
