// The tryout: a text of replacements worked through, byte by byte, in lists that the caller lends. A run is a struct that goes in
// and comes back; its reply lines go to the head of an output list.

#![tactic(auto)]

mod bytes;

ghost use Rattle.std.specs.Prelude.{cond, [], ◌≡◌};
ghost use Rattle.register.specs.Loan.{held, SameLists};
ghost use Rattle.replies.specs.Replies.{bad_line};
ghost use Rattle.turns.specs.Turns.{lent, run, begun};
ghost use Rattle.script.specs.Feed.{fed_out, Feeds, Finishes};
ghost use Rattle.script.specs.Tryout.{has_ended, closing};

use crate::bytes::{feed_ready, ready};
use register::lent::LentMut;
use replies::{MAX_REPLY, bad_line};
use text::output::Output;
use turns::{State, Turn};

// What comes of bytes that are fed: how the run stands, how many bytes were taken, and how many were written.
#[derive(Drop)]
pub struct Fed {
    pub state: State,
    pub taken: usize,
    pub written: usize,
}

// A run at its beginning.
pub fn begin() -> State
    ensures { result ≡ begun }
{
    State {
        turn: Turn::Order,
        number: 1,
        used: 0,
    }
}

// Whether a run has ended: it takes nothing more.
pub fn ended(state: State) -> bool
    ensures { result ≡ has_ended state }
{
    matches!(state.turn, Turn::Ended)
}

// Feeds bytes to a run. Taking stops where the run has ended or the output list has no room for another reply line.
pub fn feed(
    chunk: &[u8],
    state: State,
    line: &mut [u8],
    numbers: &mut [u16],
    lists: &mut LentMut,
    eta: &mut [u16],
    out: &mut [u8],
) -> Fed
    ensures same_lists { SameLists lists.old lists.new }
    ensures feeds { Feeds (run state (lent (held lists.old) eta.old numbers.old line.old)) chunk.now out.old
        (fed_out (run result.state (lent (held lists.new) eta.new numbers.new line.new)) result.taken result.written out.new) }
{
    if !ready(chunk.len(), state, line, numbers, lists.view(), eta) {
        return Fed {
            state,
            taken: 0,
            written: 0,
        };
    }
    feed_ready(chunk, state, line, numbers, lists, eta, out)
}

// Whether the end of the input is a bad line.
fn ends_badly(state: State) -> bool
    ensures { closing state ≡ cond result (bad_line state.number) [] }
{
    match state.turn {
        Turn::Order | Turn::Column { .. } => true,
        Turn::Put { .. } => state.used != 0,
        Turn::Ended => false,
    }
}

// The end of the input: what is still to be printed goes to the head of the output list; replies how many bytes.
pub fn finish(state: State, out: &mut [u8]) -> usize
    ensures { Finishes state out.old (result, out.new) }
{
    if out.len() < MAX_REPLY {
        return 0;
    }
    if !ends_badly(state) {
        return 0;
    }
    let mut output = Output { bytes: out, len: 0 };
    bad_line(state.number, &mut output);
    output.len
}
