// How a run goes on to the next line, and what ends it: a bad line, or a refused start.
ghost use Rattle.std.specs.Prelude.{◌≡◌, ◌+◌, ◌<◌};
ghost use Rattle.text.specs.Prints.{HasRoom, Prints};
ghost use Rattle.text.specs.Text.{max_count};
ghost use Rattle.replies.specs.Replies.{max_reply, bad_line, start_refused};
ghost use Rattle.turns.specs.Turns.{state as standing};
ghost use Rattle.turns.specs.declared.Turn.TheVariants as turn;

use crate::{State, Turn};
use replies::{bad_line, start_refused};
use text::output::Output;

// The run ended.
fn ended(state: State) -> State
    ensures { result ≡ standing turn.Ended state.number state.used }
{
    State {
        turn: Turn::Ended,
        ..state
    }
}

// The next line begins.
pub fn next_line(state: State, turn: Turn) -> State
    requires { state.number < max_count }
    ensures { result ≡ standing turn (state.number + 1) 0 }
{
    State {
        turn,
        number: state.number + 1,
        used: 0,
    }
}

// 'bad line k' ends the run.
pub fn bad(state: State, out: &mut Output) -> State
    requires { HasRoom max_reply out.old }
    ensures { (result ≡ standing turn.Ended state.number state.used) × Prints (bad_line state.number) out.old out.new }
{
    bad_line(state.number, out);
    ended(state)
}

// 'start REFUSED n' ends the run.
pub fn refuse(state: State, n: usize, out: &mut Output) -> State
    requires { HasRoom max_reply out.old }
    ensures { (result ≡ standing turn.Ended state.number state.used) × Prints (start_refused n) out.old out.new }
{
    start_refused(n, out);
    ended(state)
}
