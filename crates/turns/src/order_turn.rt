// The line 'order m'.
ghost use Rattle.std.specs.Prelude.{List, ℕ, ◌<◌, length};
ghost use Rattle.register.specs.Lent.{lists};
ghost use Rattle.turns.specs.Steps.{Steady, Makes};
ghost use Rattle.turns.specs.Turns.{lent, run, LineDoes};
ghost use Rattle.turns.specs.declared.Turn.TheVariants as turn;

use crate::steps::{bad, next_line, refuse};
use crate::{State, Turn};
use register::{Refusal, Register};
use text::lines::{Heard, hear};
use text::output::Output;

const ORDER: [u8; 5] = *b"order";

// A size in the limits is followed by the columns; the first of them starts at 0. No other list has a part in it.
pub fn order_line(state: State, line: &[u8], cs: &mut [u16], out: &mut Output) -> State
    requires { Steady state line.now out.old × (0 < length cs.old) }
    ensures { (cr rs rc or oc eta numbers : List ℕ) → Makes
        (LineDoes turn.Order (run state (lent (lists cs.old cr rs rc or oc) eta numbers line.now)))
        out.old
        (run result (lent (lists cs.new cr rs rc or oc) eta numbers line.now)) out.new }
{
    let Some(Heard { first: size, count }) = hear(&line[..state.used], &ORDER) else {
        return bad(state, out);
    };
    if count != 1 {
        return bad(state, out);
    }
    if size == 0 || Register::MAX_SIZE < size {
        return refuse(state, Refusal::Size.number(), out);
    }
    cs[0] = 0;
    next_line(
        state,
        Turn::Column {
            size,
            column: 0,
            fits: true,
        },
    )
}
