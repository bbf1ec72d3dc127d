// One byte of a run, and all bytes of a chunk.
ghost use Rattle.std.specs.Prelude.{false, ◌≡◌, length};
ghost use Rattle.listing.specs.Says.{Says};
ghost use Rattle.text.specs.Prints.{HasRoom};
ghost use Rattle.register.specs.Loan.{seen, held, SameLists};
ghost use Rattle.replies.specs.Replies.{max_reply};
ghost use Rattle.turns.specs.Steps.{Steady, Makes};
ghost use Rattle.turns.specs.Turns.{lent, run, LineDoes};
ghost use Rattle.script.specs.Feed.{TurnRight, Roomy, Ready, fed_out, Feeds};
ghost use Rattle.script.specs.Tryout.{has_ended, Byte};

use crate::{Fed, ended};
use register::Register;
use register::lent::{Lent, LentMut};
use register::room::takes;
use replies::MAX_REPLY;
use text::output::Output;
use turns::col_turn::col_line;
use turns::order_turn::order_line;
use turns::put_turn::put_line;
use turns::steps::bad;
use turns::{State, Turn};

// Whether the wanted column is one of the register's, which is in the limits.
fn turn_right(turn: Turn) -> bool
    ensures { Says result (TurnRight turn) }
{
    match turn {
        Turn::Column { size, column, .. } => column < size && size <= Register::MAX_SIZE,
        Turn::Order | Turn::Put { .. } | Turn::Ended => true,
    }
}

// Whether a run can take n bytes.
pub fn ready(n: usize, state: State, line: &[u8], numbers: &[u16], lists: Lent, eta: &[u16]) -> bool
    ensures { Says result (Ready (run state (lent (seen lists.entry) eta.now numbers.now line.now)) n) }
{
    takes(Register::MAX_SIZE, Register::MAX_TOTAL, lists)
        && Register::MAX_SIZE <= eta.len()
        && 4000 <= numbers.len()
        && 8000 <= line.len()
        && state.used <= 8000
        && n <= usize::MAX - state.number
        && turn_right(state.turn)
}

// Whether the run goes on: it has not ended, and there is room for a reply line.
fn goes_on(state: State, out: &Output) -> bool
    ensures { Says result ((has_ended state ≡ false) × HasRoom max_reply out.now) }
{
    let room = out.bytes.len();
    MAX_REPLY <= room && out.len <= room - MAX_REPLY && !ended(state)
}

// The end of a line. The lines are of closed kinds, so a match says which step is taken, and no function is passed.
fn end_line(
    state: State,
    line: &[u8],
    numbers: &mut [u16],
    lists: &mut LentMut,
    eta: &mut [u16],
    out: &mut Output,
) -> State
    requires { Roomy (lent (held lists.old) eta.old numbers.old line.now)
        × Steady state line.now out.old × TurnRight state.turn }
    ensures same_lists { SameLists lists.old lists.new }
    ensures makes { Makes (LineDoes state.turn (run state (lent (held lists.old) eta.old numbers.old line.now)))
        out.old (run result (lent (held lists.new) eta.new numbers.new line.now)) out.new }
{
    match state.turn {
        Turn::Order => order_line(state, line, lists.col_starts, out),
        Turn::Column { size, column, fits } => {
            col_line(state, size, column, fits, line, numbers, lists, out)
        }
        Turn::Put { size } => put_line(state, size, line, numbers, lists, eta, out),
        Turn::Ended => state,
    }
}

// One byte.
fn byte(
    b: u8,
    state: State,
    line: &mut [u8],
    numbers: &mut [u16],
    lists: &mut LentMut,
    eta: &mut [u16],
    out: &mut Output,
) -> State
    requires { Roomy (lent (held lists.old) eta.old numbers.old line.old)
        × Steady state line.old out.old × TurnRight state.turn × (has_ended state ≡ false) }
    ensures same_lists { SameLists lists.old lists.new }
    ensures makes { Makes (Byte (run state (lent (held lists.old) eta.old numbers.old line.old)) b)
        out.old (run result (lent (held lists.new) eta.new numbers.new line.new)) out.new }
{
    if b == b'\n' {
        return end_line(state, line, numbers, lists, eta, out);
    }
    let used = state.used;
    if used == 8000 {
        return bad(state, out);
    }
    line[used] = b;
    State {
        used: used + 1,
        ..state
    }
}

// All bytes of the chunk, or as many as there is room for.
pub fn feed_ready(
    chunk: &[u8],
    state: State,
    line: &mut [u8],
    numbers: &mut [u16],
    lists: &mut LentMut,
    eta: &mut [u16],
    out: &mut [u8],
) -> Fed
    requires { Ready (run state (lent (held lists.old) eta.old numbers.old line.old)) (length chunk.now) }
    ensures same_lists { SameLists lists.old lists.new }
    ensures feeds { Feeds (run state (lent (held lists.old) eta.old numbers.old line.old)) chunk.now out.old
        (fed_out (run result.state (lent (held lists.new) eta.new numbers.new line.new)) result.taken result.written out.new) }
{
    let mut st = state;
    let mut output = Output { bytes: out, len: 0 };
    for (i, &b) in chunk.iter().enumerate() {
        if !goes_on(st, &output) {
            return Fed {
                state: st,
                taken: i,
                written: output.len,
            };
        }
        st = byte(b, st, line, numbers, lists, eta, &mut output);
    }
    Fed {
        state: st,
        taken: chunk.len(),
        written: output.len,
    }
}
